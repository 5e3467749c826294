// Lines and columns (01, "Words" and refusal 2).
ghost use Rattle.std.specs.Prelude.{[], ◌∷◌, ◌≡◌, ◌≤◌};
ghost use Rattle.language.specs.Columns.{long_lines, width_after};
ghost use Rattle.language.specs.WordStage.{least};
ghost use Rattle.text_words.specs.Meaning.{judged};

use crate::{Judged, faults};
use language::ceilings;
use language::refusals::Refusal;
use text_characters::parts;

// How wide a line of that width is after a byte, which another follows.
fn width_after(width: usize, b: u8, next: u8) -> usize
    requires { width ≤ 132 }
    ensures { result ≡ width_after width b (next ∷ []) }
{
    match b {
        b'\n' => 0,
        b'\t' => (width / 8 + 1) * 8,
        b'\r' if next == b'\n' => width,
        _ => width + 1,
    }
}

// The first line that is too long, at the byte that passes the last column.
pub fn first_long(text: &[u8]) -> Judged
    ensures { judged result ≡ least (long_lines 0 0 text.now) }
{
    let mut width = 0;
    for (at, b) in text.iter().enumerate() {
        width = width_after(width, *b, parts::byte(text, at + 1));
        if ceilings::LINE < width {
            return faults::refused(at, Refusal::BadCharacter);
        }
    }
    Ok(())
}
