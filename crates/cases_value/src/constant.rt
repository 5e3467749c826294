// A constant, from its digits, its length and its kind.
use crate::columns;
use value_constants::{Binary, Decimal};
use value_operators::{Value, numbers};

// The decimal digits before the first blank.
fn decimals(s: &[u8]) -> Decimal {
    let mut r = value_constants::no_decimal();
    for b in s.iter().take_while(|b| **b != b' ') {
        r = value_constants::decimal_digit(r, columns::digit(*b));
    }
    r
}

// One digit of k bits more, on the left or on the right.
fn more(x: Binary, k: u16, d: u8, on_left: bool) -> Binary {
    if on_left {
        value_constants::left_digit(x, k, d)
    } else {
        value_constants::right_digit(x, k, d)
    }
}

// The digits of k bits before the first blank.
fn binaries(s: &[u8], k: u16, on_left: bool) -> Binary {
    let mut r = value_constants::no_digit();
    for b in s.iter().take_while(|b| **b != b' ') {
        r = more(r, k, columns::digit(*b), on_left);
    }
    r
}

// A bare constant is of kind 0 and a decimal one of kind 10; digits of k bits are of kind k, and of kind 10 + k at the left; kind 20 is a length.
pub fn made(s: &[u8], kind: u16, length: u16) -> Option<Value> {
    match kind {
        0 => value_constants::bare_constant(decimals(s)),
        1..=4 => value_constants::right_constant(binaries(s, kind, false), length),
        10 => value_constants::decimal_constant(decimals(s), length),
        11..=14 => value_constants::left_constant(binaries(s, kind - 10, true), length),
        20 => numbers::from_number(32, value_constants::counted(decimals(s)) as u64),
        _ => None,
    }
}
