// The first two stages of judging a text: its length, and its words with its lines.
ghost use Rattle.std.specs.Prelude.{◌≡◌, ltb, length};
ghost use Rattle.language.specs.Ceilings.{longest_text};
ghost use Rattle.language.specs.WordStage as L;
ghost use Rattle.text_words.specs.Meaning.{first_fault, judged, kind_fault};

use crate::{Judged, faults, lines};
use language::ceilings;
use language::refusals::Refusal;
use text_items::{ItemKind, items};

// Whether a text is too long.
fn too_long(text: &[u8]) -> bool
    ensures { result ≡ ltb longest_text (length text.now) }
{
    ceilings::TEXT < text.len()
}

// What an item at a place has wrong.
fn fault_of(kind: ItemKind, place: usize) -> Judged
    ensures { judged result ≡ kind_fault kind place }
{
    match kind {
        ItemKind::Wrong(refusal) => faults::refused(place, refusal),
        _ => Ok(()),
    }
}

// The first item that is wrong.
fn first_wrong(text: &[u8]) -> Judged
    ensures { judged result ≡ L.least (L.scan text.now).faults }
{
    let mut at = 0;
    while at < text.len() {
        let item = items::item_at(&text[at..]);
        fault_of(item.kind, at)?;
        at += item.size;
    }
    Ok(())
}

// The fault of the stage of words, if there is one.
fn word_fault(text: &[u8]) -> Judged
    ensures { judged result ≡ L.word_fault text.now }
{
    faults::earlier(first_wrong(text), lines::first_long(text))
}

// What is wrong with a text in front of its grammar.
pub fn first_fault(text: &[u8]) -> Judged
    ensures { judged result ≡ first_fault text.now }
{
    if too_long(text) {
        return faults::refused(0, Refusal::TextTooLong);
    }
    word_fault(text)
}
