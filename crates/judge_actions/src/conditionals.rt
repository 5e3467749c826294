// What a conditional makes of the verdicts on its condition and its arms.
ghost use Rattle.std.specs.Prelude.{cond, ◌≡◌, ℕ, ◌+◌, ◌<◌, ◌≤◌, eqb};
ghost use Rattle.language.specs.Description.{nowhere};
ghost use Rattle.language.specs.Expressions.{own_work};
ghost use Rattle.language.specs.Judging as L;
ghost use Rattle.language.specs.Words as W;
ghost use Rattle.judge_verdicts.specs.Meaning.{capped, met, seen};
ghost use Rattle.language.specs.declared.refusals.Refusal.TheVariants.{BadLength, NoContinuation};
ghost use Rattle.text_words.specs.Meaning.{positioned};
ghost use Rattle.judge_actions.specs.Listed.{arm_holds, branch_of, held_by, right_arms};

use image_records::actions::Action;
use judge_records::places;
use judge_terms::{lengths, operators};
use judge_verdicts::{Verdict, Worth, faults, work};
use language::refusals::Refusal;
use text_words::Position;

// What a conditional chooses among: IF without ELSE has one arm. No `Option`: one arm is a choice too, and none is absent.
#[derive(Clone, Copy)]
pub enum Choices {
    One,
    Several(u16),
}

// A conditional: its condition, its choices, and how many records belong to it.
#[derive(Clone, Copy)]
pub struct Branch {
    pub condition: u16,
    pub choices: Choices,
    pub size: u16,
}

// The conditional that an action is, if it is one: any other holds no actions.
pub fn branch_of(a: Action) -> Option<Branch>
    ensures { result ≡ branch_of a }
{
    match a {
        Action::When(condition, size) => Some(Branch {
            condition,
            choices: Choices::One,
            size,
        }),
        Action::Choose(condition, n, size) => Some(Branch {
            condition,
            choices: Choices::Several(n),
            size,
        }),
        _ => None,
    }
}

// How many of the records after an action belong to it.
pub fn held(b: Option<Branch>) -> usize
    ensures { (result ≡ held_by b) × (result < 65536) }
{
    match b {
        Some(b) => b.size as usize,
        None => 0,
    }
}

// How many actions an arm has, where m records stand after it: none where it is no arm, or has more.
pub fn arm_size(a: Action, m: usize) -> usize
    ensures { (result ≡ arm_holds m a) × (result ≤ m) }
{
    let Action::Arm(x) = a else {
        return 0;
    };
    let n = x as usize;
    if m < n {
        return 0;
    }
    n
}

// Whether there are n arms.
fn are(arms: usize, n: u16) -> bool
    ensures { (a : ℕ) → arms ≡ capped a → result ≡ eqb a n }
{
    arms == n as usize
}

// Whether condition and arms fit.
fn right_arms(c: Choices, v: Worth, w: Worth) -> bool
    ensures { (x y : L.Worth) → v ≡ met x → w ≡ met y → result ≡ right_arms c x y }
{
    match c {
        Choices::One => v.length == 1 && are(w.arms, 1),
        Choices::Several(n) => lengths::selects(v.length, n) && are(w.arms, n),
    }
}

// An action that counts one, with the work of its parts.
pub fn counted(x: usize, y: usize) -> Verdict
    ensures { (a b : ℕ) → x ≡ capped a → y ≡ capped b → result ≡ seen (L.worth 1 0 (own_work + a + b)) }
{
    work::only(work::with_two(x, y))
}

// A condition, and the arms that it chooses among.
pub fn conditional(at: Position, c: Choices, a: Verdict, b: Verdict) -> Verdict
    ensures { (q : W.Position) (j k : L.Judged) → positioned at ≡ q → a ≡ seen j → b ≡ seen k → result ≡ seen (L.given_both j k (λ v w. cond (right_arms c v w) (L.worth 1 0 (own_work + v.work + w.work)) (L.refuse q BadLength))) }
{
    let (v, w) = faults::both(a, b)?;
    if right_arms(c, v, w) {
        counted(v.work, w.work)
    } else {
        faults::refused(at, Refusal::BadLength)
    }
}

// Arms, and the list of one more.
pub fn arm(a: Verdict, b: Verdict) -> Verdict
    ensures { (j k : L.Judged) → a ≡ seen j → b ≡ seen k → result ≡ seen (L.given_both j k (λ v w. L.worth 1 (v.arms + 1) (v.work + w.work))) }
{
    let (v, w) = faults::both(a, b)?;
    Ok(Worth {
        length: 1,
        arms: work::added(v.arms, 1),
        work: work::added(v.work, w.work),
    })
}

// Records that no list has, after what is judged already.
pub fn no_continuation(a: Verdict) -> Verdict
    ensures { (j : L.Judged) (on : L.Worth → L.Worth → L.Judged) → a ≡ seen j → result ≡ seen (L.given_both j (L.refuse nowhere NoContinuation) on) }
{
    operators::together(
        a,
        faults::refused(places::nowhere(), Refusal::NoContinuation),
    )
}
