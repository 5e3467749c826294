// Symbols: the longest match is taken (01, "Words").
ghost use Rattle.std.specs.Prelude.{[], ◌∷◌, ◌≡◌};
ghost use Rattle.language.specs.Scan.{symbol_at};
ghost use Rattle.text_items.specs.Meaning.{meant};
ghost use Rattle.text_items.specs.Tables.{unless_zero, of_one, of_three, of_two, symbol_kind};

use crate::{Item, ItemKind, plain};
use language::kinds;
use language::refusals::Refusal;
use text_characters::parts;

// The kind of the symbol that three bytes are.
#[tactic(auto, using(std::proofs::lemmas::Bool::Decides::nat_tests), unfolding(crate::specs::Tables::of_three, crate::specs::Tables::symbol_kind, language::specs::Scan::spelled_symbols, language::specs::Scan::bytes, language::specs::Scan::same))]
fn of_three(a: u8, b: u8, c: u8) -> Option<u8>
    ensures { result ≡ unless_zero (symbol_kind of_three (a ∷ b ∷ c ∷ [])) }
{
    match (a, b, c) {
        (b'(', b'+', b')') => Some(kinds::SUM),
        (b'(', b'-', b')') => Some(kinds::DIFFERENCE),
        (b'(', b'=', b')') => Some(kinds::SAME),
        (b'[', b'+', b']') => Some(kinds::EXCLUSIVE),
        _ => None,
    }
}

// The kind of the symbol that two bytes are.
#[tactic(auto, using(std::proofs::lemmas::Bool::Decides::nat_tests), unfolding(crate::specs::Tables::of_two, crate::specs::Tables::symbol_kind, language::specs::Scan::spelled_symbols, language::specs::Scan::bytes, language::specs::Scan::same))]
fn of_two(a: u8, b: u8) -> Option<u8>
    ensures { result ≡ unless_zero (symbol_kind of_two (a ∷ b ∷ [])) }
{
    match (a, b) {
        (b'>', b'=') => Some(kinds::AT_LEAST),
        (b'<', b'=') => Some(kinds::AT_MOST),
        (b'-', b'>') => Some(kinds::GOTO),
        (b'=', b'>') => Some(kinds::CALL),
        (b'<', b'-') => Some(kinds::DELAYED),
        _ => None,
    }
}

// The kind of the symbol that one byte is.
#[tactic(auto, using(std::proofs::lemmas::Bool::Decides::nat_tests), unfolding(crate::specs::Tables::of_one, crate::specs::Tables::symbol_kind, language::specs::Scan::spelled_symbols, language::specs::Scan::bytes, language::specs::Scan::same))]
fn of_one(a: u8) -> Option<u8>
    ensures { result ≡ unless_zero (symbol_kind of_one (a ∷ [])) }
{
    match a {
        b'_' => Some(kinds::DELAYED),
        b'#' => Some(kinds::HASH),
        b'$' => Some(kinds::DOLLAR),
        b'(' => Some(kinds::OPEN_PAREN),
        b')' => Some(kinds::CLOSE_PAREN),
        b'*' => Some(kinds::STAR),
        b'+' => Some(kinds::PLUS),
        b',' => Some(kinds::COMMA),
        b'-' => Some(kinds::MINUS),
        b'.' => Some(kinds::PERIOD),
        b'/' => Some(kinds::SLASH),
        b':' => Some(kinds::COLON),
        b';' => Some(kinds::SEMICOLON),
        b'<' => Some(kinds::LESS),
        b'=' => Some(kinds::EQUAL),
        b'>' => Some(kinds::GREATER),
        b'@' => Some(kinds::AT),
        b'[' => Some(kinds::OPEN_BRACKET),
        b']' => Some(kinds::CLOSE_BRACKET),
        _ => None,
    }
}

// The symbol at the start of a text.
pub fn symbol(text: &[u8]) -> Item
    ensures { meant text.now result ≡ symbol_at text.now }
{
    let a = parts::byte(text, 0);
    let b = parts::byte(text, 1);
    if let Some(three) = of_three(a, b, parts::byte(text, 2)) {
        return plain(ItemKind::Sign(three), 3);
    }
    if let Some(two) = of_two(a, b) {
        return plain(ItemKind::Sign(two), 2);
    }
    if let Some(one) = of_one(a) {
        return plain(ItemKind::Sign(one), 1);
    }
    plain(ItemKind::Wrong(Refusal::BadCharacter), 1)
}
