// Runs of bytes at the start of a text.
ghost use Rattle.std.specs.Prelude.{◌≡◌};
ghost use Rattle.language.specs.Scan.{span};
ghost use Rattle.text_characters.specs.Runs.{belonging};

use crate::letters;

// What the bytes of a run are.
#[derive(Clone, Copy)]
pub enum Stretch {
    // Letters and digits.
    Name,
    // Digits of a base.
    Digits(u8),
    // What stands in a comment.
    Comment,
}

// Whether a byte belongs to a name; for so few classes comparisons do, and the table is not laid out for each byte.
fn is_name_part(b: u8) -> bool
    ensures { result ≡ belonging Stretch.Name b }
{
    letters::is_within(b'A', b, b'Z')
        || letters::is_within(b'a', b, b'z')
        || letters::is_within(b'0', b, b'9')
}

// Whether a byte leaves a comment open.
fn in_comment(b: u8) -> bool
    ensures { result ≡ belonging Stretch.Comment b }
{
    b != b'"' && b != b'\n'
}

// Whether a byte belongs to a run.
fn belongs(run: Stretch, b: u8) -> bool
    ensures { result ≡ belonging run b }
{
    match run {
        Stretch::Name => is_name_part(b),
        Stretch::Digits(base) => letters::digit_worth(b) < base,
        Stretch::Comment => in_comment(b),
    }
}

// How many bytes at the start of a text belong to a run.
pub fn length_of(run: Stretch, text: &[u8]) -> usize
    ensures { result ≡ span (belonging run) text.now }
{
    for (n, b) in text.iter().enumerate() {
        if !belongs(run, *b) {
            return n;
        }
    }
    text.len()
}
