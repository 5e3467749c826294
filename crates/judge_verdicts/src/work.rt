// Work, added up to 65,537.
ghost use Rattle.std.specs.Prelude.{◌≡◌, ℕ, ◌+◌};
ghost use Rattle.language.specs.Judging as L;
ghost use Rattle.language.specs.Expressions.{own_work};
ghost use Rattle.judge_verdicts.specs.Meaning.{capped, seen};

use crate::{Verdict, Worth};
use language::ceilings;

const MOST: usize = ceilings::WORK;

// Two works together.
pub fn added(x: usize, y: usize) -> usize
    ensures { (a b : ℕ) → x ≡ capped a → y ≡ capped b → result ≡ capped (a + b) }
{
    x.saturating_add(y).min(MOST + 1)
}

// The work of an operator or operand itself.
pub fn own() -> usize
    ensures { result ≡ capped own_work }
{
    1
}

// What counts for its work alone.
pub fn only(work: usize) -> Verdict
    ensures same { result ≡ Ok (record { length = 1; arms = 0; work = work }) }
    ensures shown { (w : ℕ) → work ≡ capped w → result ≡ seen (L.worth 1 0 w) }
{
    Ok(Worth {
        length: 1,
        arms: 0,
        work,
    })
}

// With one part, and with two.
pub fn with_one(x: usize) -> usize
    ensures { (a : ℕ) → x ≡ capped a → result ≡ capped (own_work + a) }
{
    added(own(), x)
}

pub fn with_two(x: usize, y: usize) -> usize
    ensures { (a b : ℕ) → x ≡ capped a → y ≡ capped b → result ≡ capped (own_work + a + b) }
{
    added(with_one(x), y)
}
