// The item at the start of a text, by the class of its first byte.
ghost use Rattle.std.specs.Prelude.{◌≡◌, drop};
ghost use Rattle.language.specs.Scan.{comment_at, name_at};
ghost use Rattle.text_items.specs.Meaning.{item_start, meant};

use crate::{Item, ItemKind, constant, plain, reserved, symbols};
use language::ceilings;
use language::refusals::Refusal;
use text_characters::runs::Stretch;
use text_characters::{classes, parts, runs};

// The name or reserved word at the start of a text.
fn name(text: &[u8]) -> Item
    ensures { meant text.now result ≡ name_at text.now }
{
    let size = runs::length_of(Stretch::Name, text);
    if let Some(kind) = reserved::kind_of(parts::first(text, size)) {
        return plain(ItemKind::Sign(kind), size);
    }
    if size <= ceilings::NAME {
        plain(ItemKind::Name, size)
    } else {
        plain(ItemKind::Wrong(Refusal::BadName), size)
    }
}

// The comment at the start of a text: it ends with the next quote, or before the end of the line.
fn comment(text: &[u8]) -> Item
    ensures { meant text.now result ≡ comment_at (drop 1 text.now) }
{
    let inside = parts::rest(text, 1);
    let n = runs::length_of(Stretch::Comment, inside);
    if parts::byte(inside, n) == b'"' {
        plain(ItemKind::Gap, n + 2)
    } else {
        plain(ItemKind::Gap, n + 1)
    }
}

// The item at the start of a text, and an empty gap where it ends.
pub fn item_at(text: &[u8]) -> Item
    ensures { meant text.now result ≡ item_start text.now }
{
    if text.len() == 0 {
        return plain(ItemKind::Gap, 0);
    }
    let class = classes::class_of(text[0]);
    if class == classes::LETTER {
        return name(text);
    }
    if class == classes::DIGIT {
        return constant::constant_at(text);
    }
    if class == classes::BLANK {
        return plain(ItemKind::Gap, 1);
    }
    if class == classes::QUOTE {
        return comment(text);
    }
    if class == classes::SYMBOL {
        return symbols::symbol(text);
    }
    plain(ItemKind::Wrong(Refusal::BadCharacter), 1)
}
