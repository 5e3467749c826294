// Lists of actions, and the lists that actions hold, which call each other: the operations that may be named and the records left fall.
ghost use Rattle.std.specs.Prelude.{◌≡◌, ◌/◌, length};
ghost use Rattle.language.specs.Acting as T;
ghost use Rattle.language.specs.Description.{Description};
ghost use Rattle.language.specs.Encode.{operation_size};
ghost use Rattle.store_layout.specs.InBytes.{bytes};
ghost use Rattle.run_stores.specs.Seen.{Ran, did, ran_seen, viewed};
ghost use Rattle.run_actions.specs.Acts.{ActsOf, ForActs, HeldFalls, Reaches, run_of};

use crate::reach;
use crate::reach::Reached;
use image_records::record_sizes;
use image_sections::sections::Sections;
use run_stores::doing::{Did, Doing};

// The lists that actions hold, from the one reached on, and what stands between them.
#[cycle(run_held_run_list)]
fn run_held(
    image: &Sections,
    store: &mut [u8],
    pending: &mut [u8],
    mask: &mut [u8],
    limit: usize,
    states: usize,
    from: Reached,
) -> Did
    requires { HeldFalls limit from }
    ensures { (d : Description) (w : Ran) → ActsOf d image.now states → Reaches d limit from store.old pending.old mask.old w → did result store.new pending.new mask.new ≡ w }
{
    let mut reached = from;
    loop {
        let held = match reached {
            Reached::Ended(done) => return Ok(done),
            Reached::Inside(held) => held,
        };
        let next = run_list(
            image,
            store,
            pending,
            mask,
            held.list.below,
            states,
            held.list.first,
            held.list.count,
            held.doing,
        )?;
        reached = reach::reach(
            image, store, pending, mask, limit, states, held.at, held.left, held.over, next,
        )?;
    }
}

// So many records from the first on: those that conditionals hold are passed over.
#[cycle(run_held_run_list)]
fn run_list(
    image: &Sections,
    store: &mut [u8],
    pending: &mut [u8],
    mask: &mut [u8],
    limit: usize,
    states: usize,
    first: usize,
    count: u16,
    g: Doing,
) -> Did
    ensures { ForActs image.now states (viewed g store.old pending.old mask.old) (λ d c. did result store.new pending.new mask.new ≡ ran_seen (T.run_list (bytes d) d (T.operation_below (bytes d) d limit) (run_of first count) c)) }
{
    let from = reach::reach(
        image, store, pending, mask, limit, states, first, count, 0, g,
    )?;
    run_held(image, store, pending, mask, limit, states, from)
}

// The actions of a state, which know every operation.
pub fn run_actions(
    image: &Sections,
    store: &mut [u8],
    pending: &mut [u8],
    mask: &mut [u8],
    states: usize,
    first: u16,
    count: u16,
    g: Doing,
) -> Did
    ensures { ForActs image.now states (viewed g store.old pending.old mask.old) (λ d c. (length d.operations ≡ length image.now.operations.now / operation_size → did result store.new pending.new mask.new ≡ ran_seen (T.run_actions (bytes d) d (run_of first count) c))) }
{
    let limit = image.operations.len() / record_sizes::OPERATION;
    run_list(
        image,
        store,
        pending,
        mask,
        limit,
        states,
        first as usize,
        count,
        g,
    )
}
