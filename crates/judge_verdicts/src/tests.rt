// What an expression must be where it stands.
ghost use Rattle.std.specs.Prelude.{◌≡◌, ℕ};
ghost use Rattle.language.specs.Judging as L;
ghost use Rattle.text_words.specs.Meaning.{positioned};
ghost use Rattle.judge_verdicts.specs.Meaning.{capped, seen};

use crate::{Verdict, Worth, faults};
use language::ceilings;
use language::refusals::Refusal;
use text_words::Position;

const LONGEST: u64 = ceilings::VALUE as u64;

// A length from 1 to 256, or a refusal.
pub fn sized(at: Position, length: u64, work: usize) -> Verdict
    ensures { (w : ℕ) → work ≡ capped w → result ≡ seen (L.sized (positioned at) length w) }
{
    if length == 0 || LONGEST < length {
        return faults::refused(at, Refusal::BadLength);
    }
    Ok(Worth {
        length: length as u16,
        arms: 0,
        work,
    })
}

// An expression proper, and not a list of arms.
pub fn proper(at: Position, v: Verdict) -> Verdict
    ensures { (j : L.Judged) → v ≡ seen j → result ≡ seen (L.proper (positioned at) j) }
{
    let w = v?;
    if w.arms == 0 {
        v
    } else {
        faults::refused(at, Refusal::NoContinuation)
    }
}

// A list of arms.
pub fn arm_list(at: Position, v: Verdict) -> Verdict
    ensures { (j : L.Judged) → v ≡ seen j → result ≡ seen (L.arm_list (positioned at) j) }
{
    let w = v?;
    if w.arms == 0 {
        faults::refused(at, Refusal::NoContinuation)
    } else {
        v
    }
}
