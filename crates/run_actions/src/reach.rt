// A list of actions as far as it goes without executing another.
ghost use Rattle.std.specs.Prelude.{IfOk, List, MatchResult, ◌≡◌, ℕ, suc, ◌+◌, ◌/◌, ◌^◌, ◌≤◌, ◌<◌, length};
ghost use Rattle.language.specs.Acting as T;
ghost use Rattle.language.specs.Description.{Description};
ghost use Rattle.language.specs.Encode.{action_size};
ghost use Rattle.image_records.specs.Actions.{meant};
ghost use Rattle.store_layout.specs.InBytes.{InBytes, bytes};
ghost use Rattle.run_stores.specs.Seen.{halted, ran_seen, seen, viewed};
ghost use Rattle.run_actions.specs.Acts.{CameFalls, Comes, ForActs, HeldFalls, Reaches, TakenFalls, left_of, one_done, over_done, taken_done};

use crate::ways::Nested;
use crate::{arms, simple, ways};
use image_records::actions::Action;
use image_records::record_sizes;
use image_sections::sections::Sections;
use run_references::worth::{Halted, Stuck};
use run_stores::doing::Doing;

// What an action comes to: a list that is still to be executed, or what the cycle has done then.
#[derive(Clone, Copy)]
pub enum Came {
    Into(Nested),
    Done(Doing),
}

// A list that an action holds; and the records from `at` on that follow the action: so many, of which it passes over so many.
#[derive(Clone, Copy)]
pub struct Held {
    pub list: Nested,
    pub at: usize,
    pub left: u16,
    pub over: u16,
    pub doing: Doing,
}

#[derive(Clone, Copy)]
pub enum Reached {
    Inside(Held),
    Ended(Doing),
}

// Where a way leads that was taken after g.
fn along(w: Option<Nested>, g: Doing) -> Came
    ensures { ((limit m : ℕ) → TakenFalls limit m w → CameFalls limit m result) × ((d : Description) (c : T.Doing InBytes) (B P M : List ℕ) → viewed g B P M ≡ seen c → Comes d g c result B P M (taken_done d w c)) }
{
    match w {
        Some(list) => Came::Into(list),
        None => Came::Done(g),
    }
}

// The action at record i; m records stand after it.
fn one(
    image: &Sections,
    store: &mut [u8],
    pending: &mut [u8],
    mask: &mut [u8],
    limit: usize,
    states: usize,
    i: usize,
    m: u16,
    a: Action,
    g: Doing,
) -> Result<Came, Halted>
    requires { i < length image.now.actions.now / action_size }
    ensures { IfOk result (CameFalls limit m) × ForActs image.now states (viewed g store.old pending.old mask.old) (λ d c. MatchResult result (λ k. Comes d g c k store.new pending.new mask.new (one_done (bytes d) d (T.operation_below (bytes d) d limit) (T.list_below (bytes d) d (T.operation_below (bytes d) d limit) (suc m)) i (meant a) c)) (λ h. halted h ≡ ran_seen (one_done (bytes d) d (T.operation_below (bytes d) d limit) (T.list_below (bytes d) d (T.operation_below (bytes d) d limit) (suc m)) i (meant a) c))) }
{
    match a {
        Action::Perform(o) => Ok(along(ways::perform(image.operations, limit, m, o)?, g)),
        Action::When(e, x) => Ok(along(ways::when(image, store, limit, i, m, e, x)?, g)),
        Action::Choose(e, n, x) => Ok(along(ways::choose(image, store, limit, i, m, e, n, x)?, g)),
        _ => Ok(Came::Done(simple::simple(image, store, pending, mask, states, a, g)?)),
    }
}

// So many records from the first on, of which so many are passed over, up to the first action with a list to execute. It is compiled by itself, so that its frame is gone before a list within is executed.
#[inline(never)]
pub fn reach(
    image: &Sections,
    store: &mut [u8],
    pending: &mut [u8],
    mask: &mut [u8],
    limit: usize,
    states: usize,
    first: usize,
    count: u16,
    over: u16,
    g: Doing,
) -> Result<Reached, Halted>
    requires { first + over < 2 ^ 64 }
    ensures { IfOk result (λ r. (left_of r ≤ count) × HeldFalls limit r) × ForActs image.now states (viewed g store.old pending.old mask.old) (λ d c. MatchResult result (λ r. Reaches d limit r store.new pending.new mask.new (ran_seen (over_done d limit first count over c))) (λ h. halted h ≡ ran_seen (over_done d limit first count over c))) }
{
    if count < over {
        return Err(Halted::Stuck(Stuck::RunsOver));
    }
    let actions = image.actions;
    let all = actions.len() / record_sizes::ACTION;
    let mut i = first + over as usize;
    let mut left = count - over;
    let mut h = g;
    while 0 < left {
        if all <= i {
            return Err(Halted::Stuck(Stuck::WrongRecord));
        }
        let a = image_records::actions::action_at(actions, i);
        left -= 1;
        let x = arms::passed(a);
        let came = one(image, store, pending, mask, limit, states, i, left, a, h)?;
        match came {
            Came::Into(list) => {
                return Ok(Reached::Inside(Held {
                    list,
                    at: i + 1,
                    left,
                    over: x,
                    doing: h,
                }));
            }
            Came::Done(next) => {
                if left < x {
                    return Err(Halted::Stuck(Stuck::RunsOver));
                }
                h = next;
                i = i + 1 + x as usize;
                left -= x;
            }
        }
    }
    Ok(Reached::Ended(h))
}
