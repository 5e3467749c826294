// The constant at the start of a text (the manual, 2.3): decimal digits, which are its length if the letter of a base follows.
ghost use Rattle.std.specs.Prelude.{◌≡◌, suc, ◌<◌, ◌≤◌, drop, length};
ghost use Rattle.language.specs.Scan.{binary_at, constant_at, decimal_at, digit_bits};
ghost use Rattle.value_constants.specs.Digits.{counting, held};
ghost use Rattle.text_items.specs.Meaning.{meant};
ghost use Rattle.text_items.specs.Digits.{binary_from, length_of};
ghost use Rattle.text_items.specs.Tables.{unless_zero};

use crate::{Item, ItemKind, digits, made, plain};
use language::ceilings;
use language::refusals::Refusal;
use text_characters::{letters, parts};
use value_constants::Decimal;

const LONGEST: u32 = ceilings::VALUE as u32;

// Bits of a digit after the letter of a base, B Q @ H.
#[tactic(auto, using(std::proofs::lemmas::Bool::Decides::nat_tests), unfolding(language::specs::Characters::folded, language::specs::Scan::digit_bits))]
fn digit_bits(b: u8) -> Option<u16>
    ensures { result ≡ unless_zero (digit_bits b) }
{
    match letters::fold(b) {
        b'B' => Some(1),
        b'Q' => Some(2),
        b'@' => Some(3),
        b'H' => Some(4),
        _ => None,
    }
}

// The length that decimal digits give, and 0 where no value is so long: its digits are read all the same, and make no value.
fn length_given(x: Decimal) -> u16
    ensures { result ≡ length_of (counting (held x)) }
{
    let n = value_constants::counted(x);
    if n <= LONGEST { n as u16 } else { 0 }
}

// The constant of k-bit digits, which begin at a place of the text.
fn binary_from(text: &[u8], start: usize, k: u16, l: u16, left: bool) -> Item
    requires { (start ≤ length text.now) × (k ≤ 4) }
    ensures { meant text.now result ≡ binary_from k left l start (drop start text.now) }
{
    let ds = digits::digits_at(&text[start..], 1 << k);
    let size = start + ds.len();
    if ds.len() == 0 {
        return plain(ItemKind::Wrong(Refusal::BadConstant), size);
    }
    let x = digits::binary(ds, k, left);
    if left {
        made(value_constants::left_constant(x, l), false, size)
    } else {
        made(value_constants::right_constant(x, l), false, size)
    }
}

// The constant after n digits and the letter of a base of k-bit digits: a period left-justifies it.
fn binary_at(text: &[u8], n: usize, k: u16, l: u16) -> Item
    requires { (n < length text.now) × (k ≤ 4) }
    ensures { meant text.now result ≡ binary_at k l n (drop (suc n) text.now) }
{
    if parts::byte(text, n + 1) == b'.' {
        binary_from(text, n + 2, k, l, true)
    } else {
        binary_from(text, n + 1, k, l, false)
    }
}

// The constant after n digits and the letter of the decimal base.
fn decimal_at(text: &[u8], n: usize, l: u16) -> Item
    requires { n < length text.now }
    ensures { meant text.now result ≡ decimal_at l n (drop (suc n) text.now) }
{
    let start = n + 1;
    let ds = digits::digits_at(&text[start..], 10);
    let size = start + ds.len();
    if ds.len() == 0 {
        return plain(ItemKind::Wrong(Refusal::BadConstant), size);
    }
    made(
        value_constants::decimal_constant(digits::decimal(ds), l),
        false,
        size,
    )
}

// The constant at the start of a text.
pub fn constant_at(text: &[u8]) -> Item
    ensures { meant text.now result ≡ constant_at text.now }
{
    let ds = digits::digits_at(text, 10);
    let n = ds.len();
    let x = digits::decimal(ds);
    let b = parts::byte(text, n);
    if let Some(k) = digit_bits(b) {
        return binary_at(text, n, k, length_given(x));
    }
    if letters::fold(b) == b'D' {
        return decimal_at(text, n, length_given(x));
    }
    made(value_constants::bare_constant(x), true, n)
}
