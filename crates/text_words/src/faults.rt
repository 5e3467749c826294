// Faults: the smallest place answers, and there the smallest number.
ghost use Rattle.std.specs.Prelude.{◌≡◌};
ghost use Rattle.language.specs.WordStage as L;
ghost use Rattle.text_words.specs.Meaning.{faulted, judged, lesser, refused_at};

use crate::{Fault, Judged, places};
use language::refusals::Refusal;

// A refusal at a place.
pub fn refused(place: usize, refusal: Refusal) -> Judged
    ensures { judged result ≡ refused_at place refusal }
{
    let at = places::position(place);
    Err(Fault { at, refusal })
}

// Whether one fault answers before another.
pub fn before(a: Fault, b: Fault) -> bool
    ensures { result ≡ L.before (faulted a) (faulted b) }
{
    let p = places::place(a.at);
    let q = places::place(b.at);
    let one = u8::from(a.refusal);
    let other = u8::from(b.refusal);
    p < q || p == q && one < other
}

// Which of two judgements answers.
pub fn earlier(a: Judged, b: Judged) -> Judged
    ensures { judged result ≡ lesser (judged a) (judged b) }
{
    match (a, b) {
        (Err(f), Err(g)) => if before(g, f) { b } else { a },
        _ => a.and(b),
    }
}
