// Faults of parts, in front of what comes after them.
ghost use Rattle.std.specs.Prelude.{List, ◌++◌, ◌≡◌};
ghost use Rattle.language.specs.Judging as L;
ghost use Rattle.language.specs.WordStage.{least};
ghost use Rattle.language.specs.Words as W;
ghost use Rattle.text_words.specs.Meaning.{judged, positioned};
ghost use Rattle.judge_verdicts.specs.Meaning.{earlier_of, paired, seen};

use crate::{Verdict, Worth};
use language::refusals::Refusal;
use text_words::{Fault, Judged, Position, faults};

// A refusal at a place.
pub fn refused(at: Position, refusal: Refusal) -> Verdict
    ensures { result ≡ seen (L.refuse (positioned at) refusal) }
{
    Err(Fault { at, refusal })
}

// One fault where a test fails.
pub fn unless(right: bool, at: Position, refusal: Refusal) -> Judged
    ensures { judged result ≡ least (L.unless right (positioned at) refusal) }
{
    if right {
        Ok(())
    } else {
        Err(Fault { at, refusal })
    }
}

// The faults of both.
pub fn also(a: Judged, b: Judged) -> Judged
    ensures { (x y : List W.Fault) → judged a ≡ least x → judged b ≡ least y → judged result ≡ least (x ++ y) }
{
    faults::earlier(a, b)
}

// The faults of an expression.
pub fn faults_of(v: Verdict) -> Judged
    ensures { (j : L.Judged) → v ≡ seen j → judged result ≡ least (L.faults_of j) }
{
    v?;
    Ok(())
}

// The earlier of two faults.
fn earlier(f: Fault, g: Fault) -> Fault
    ensures { result ≡ earlier_of f g }
{
    if faults::before(g, f) { g } else { f }
}

// Two parts together: both without fault, or the earlier fault.
pub fn both(a: Verdict, b: Verdict) -> Result<(Worth, Worth), Fault>
    ensures { result ≡ paired a b }
{
    match (a, b) {
        (Ok(v), Ok(w)) => Ok((v, w)),
        (Err(f), Err(g)) => Err(earlier(f, g)),
        (Err(f), Ok(_)) => Err(f),
        (Ok(_), Err(g)) => Err(g),
    }
}
