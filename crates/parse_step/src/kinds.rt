// The kinds of words by number, as the grammar has them.
ghost use Rattle.std.specs.Prelude.{◌≡◌};
ghost use Rattle.parse_step.specs.Course.{kind_no};

use text_words::{Word, WordKind};

// The number of a word's kind; the end of the text has 0, as no word.
pub fn number(kind: WordKind) -> u8
    ensures { result ≡ kind_no kind }
{
    match kind {
        WordKind::End => 0,
        WordKind::Name => language::kinds::NAME,
        WordKind::Constant => language::kinds::CONSTANT,
        WordKind::Sign(k) => k,
    }
}

// The same of a word.
pub fn kind_of(w: Word) -> u8
    ensures { result ≡ kind_no w.kind }
{
    number(w.kind)
}
