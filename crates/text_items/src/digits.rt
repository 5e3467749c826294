// The digits of a constant, one after the other.
ghost use Rattle.std.specs.Prelude.{map, ◌≡◌, take};
ghost use Rattle.language.specs.Characters.{digit_worth};
ghost use Rattle.language.specs.Scan.{is_digit_of, span};
ghost use Rattle.value_constants.specs.Digits.{decimal_more, held, holding, on_right, written};
ghost use Rattle.text_items.specs.Digits.{binary_more, each_digit};

use text_characters::runs::Stretch;
use text_characters::{letters, parts, runs};
use value_constants::{Binary, Decimal};

// The digits of a base at the start of a text.
pub fn digits_at(text: &[u8], base: u8) -> &[u8]
    ensures { result.now ≡ take (span (is_digit_of base) text.now) text.now }
{
    parts::first(text, runs::length_of(Stretch::Digits(base), text))
}

// Decimal digits.
pub fn decimal(digits: &[u8]) -> Decimal
    ensures { held result ≡ each_digit decimal_more (holding 0) (map digit_worth digits.now) }
{
    let mut x = value_constants::no_decimal();
    for d in digits {
        x = value_constants::decimal_digit(x, letters::digit_worth(*d));
    }
    x
}

// One digit of k bits more, at the left or at the right.
fn one_more(x: Binary, k: u16, left: bool, digit: u8) -> Binary
    ensures { written result ≡ binary_more k left (written x) digit }
{
    if left {
        value_constants::left_digit(x, k, digit)
    } else {
        value_constants::right_digit(x, k, digit)
    }
}

// Digits of k bits, left-justified or right-justified.
pub fn binary(digits: &[u8], k: u16, left: bool) -> Binary
    ensures { written result ≡ each_digit (binary_more k left) (on_right 0 0) (map digit_worth digits.now) }
{
    let mut x = value_constants::no_digit();
    for d in digits {
        x = one_more(x, k, left, letters::digit_worth(*d));
    }
    x
}
