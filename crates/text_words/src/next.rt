// The words of a text, one after the other.
ghost use Rattle.std.specs.Prelude.{◌≡◌};
ghost use Rattle.text_words.specs.Meaning.{Next, is_end, word_item, word_kind};

use crate::{Word, WordKind, places};
use text_items::{Item, ItemKind, items};

// The kind of word that an item is, and the end where it is none.
impl From<ItemKind> for WordKind {
    ghost from_gives = { λ kind word. word ≡ word_kind kind };

    fn from(kind: ItemKind) -> WordKind {
        match kind {
            ItemKind::Name => WordKind::Name,
            ItemKind::Constant => WordKind::Constant,
            ItemKind::Sign(k) => WordKind::Sign(k),
            ItemKind::Gap | ItemKind::Wrong(_) => WordKind::End,
        }
    }
}

// The word that an item at a place is.
fn word_of(item: Item, place: usize) -> Word
    ensures { result ≡ word_item item place }
{
    Word {
        kind: WordKind::from(item.kind),
        at: places::position(place),
        size: item.size,
        bare: item.bare,
        value: item.value,
    }
}

// Whether no word is left.
pub fn is_end(kind: WordKind) -> bool
    ensures { result ≡ is_end kind }
{
    matches!(kind, WordKind::End)
}

// The next word from a place on, and the end where there is none. What is wrong is passed over: the stage of words refuses it.
pub fn next_word(text: &[u8], from: usize) -> Word
    ensures { Next text.now from result }
{
    let mut at = from;
    while at < text.len() {
        let item = items::item_at(&text[at..]);
        let word = word_of(item, at);
        if !is_end(word.kind) {
            return word;
        }
        at += item.size;
    }
    word_of(text_items::plain(ItemKind::Gap, 0), text.len())
}
