// Constants (the manual, 2.3): their digits, one by one, and the value once they end.
#![tactic(auto)]

ghost use Rattle.std.specs.Prelude.{◌≡◌, ◌+◌, ◌-◌, ◌/◌, ◌%◌, ◌^◌, min};
ghost use Rattle.language.specs.Value as L;
ghost use Rattle.language.specs.Constants.{left_justified};
ghost use Rattle.value_limbs.specs.Limbs.{number};
ghost use Rattle.value_operators.specs.Meaning.{Means};
ghost use Rattle.value_constants.specs.Digits.{held, holding, decimal_more, counting, bare, written, on_right, right_more, left_more};
ghost use Rattle.value_constants.specs.Doubling.{adding};

use language::ceilings;
use value_operators::{Value, fitting, lengths};

// Decimal digits: their number modulo 2 to the 256, and whether it passed that. Each tells something by itself: a constant
// of a given length is its low bits, also of a number that passed, so that no `Option` stands for both.
#[derive(Clone, Copy)]
pub struct Decimal {
    pub limbs: [u64; 4],
    pub passed: bool,
}

// Digits of base 2, 4, 8 or 16: their bits at the right or at the left of 256, and how many there are, up to 256.
#[derive(Clone, Copy)]
pub struct Binary {
    pub limbs: [u64; 4],
    pub bits: u16,
}

// The largest bare constant, and one more.
const BARE_LARGEST: u32 = ceilings::BARE;

const BARE_PAST: u32 = BARE_LARGEST + 1;

// No decimal digit yet.
pub fn no_decimal() -> Decimal
    ensures { held result ≡ holding 0 }
{
    Decimal {
        limbs: [0; 4],
        passed: false,
    }
}

// x + y modulo 2 to the 256, and whether a sum has passed that, this one or one before.
fn added(x: [u64; 4], y: [u64; 4], passed: bool) -> Decimal
    ensures { held result ≡ adding (number x) (number y) passed }
{
    let (limbs, carry) = value_limbs::sums::sum(x, y);
    Decimal {
        limbs,
        passed: passed || carry,
    }
}

// One decimal digit more, by doubling and adding: some benches have no wide multiply.
pub fn decimal_digit(x: Decimal, d: u8) -> Decimal
    ensures { held result ≡ decimal_more (held x) d }
{
    let twice = added(x.limbs, x.limbs, x.passed);
    let four = added(twice.limbs, twice.limbs, twice.passed);
    let five = added(four.limbs, x.limbs, four.passed);
    let ten = added(five.limbs, five.limbs, five.passed);
    added(ten.limbs, value_limbs::small(d as u64), ten.passed)
}

// The number of a length or a bare constant, where anything larger is 65,536.
pub fn counted(x: Decimal) -> u32
    ensures { result ≡ counting (held x) }
{
    if x.passed {
        return BARE_PAST;
    }
    if value_limbs::sums::less(x.limbs, value_limbs::small(BARE_PAST as u64)) {
        x.limbs[0] as u32
    } else {
        BARE_PAST
    }
}

// The decimal constant of that length.
pub fn decimal_constant(x: Decimal, length: u16) -> Option<Value>
    ensures { Means result (L.fit length (number x.limbs)) }
{
    fitting::fit(length as u32, x.limbs)
}

// The bare constant, where it is not too large.
pub fn bare_constant(x: Decimal) -> Option<Value>
    ensures { Means result (bare (held x)) }
{
    let n = counted(x);
    if BARE_LARGEST < n {
        return None;
    }
    fitting::fit(lengths::bare_length(), value_limbs::small(n as u64))
}

// No digit of a binary base yet.
pub fn no_digit() -> Binary
    ensures { written result ≡ on_right 0 0 }
{
    Binary {
        limbs: [0; 4],
        bits: 0,
    }
}

// The bits written, up to 256.
fn more_bits(bits: u16, k: u16) -> u16
    ensures { result ≡ min (bits + k) 256 }
{
    (bits as u32 + k as u32).min(256) as u16
}

// One digit of k bits more, right-justified.
pub fn right_digit(x: Binary, k: u16, d: u8) -> Binary
    ensures { written result ≡ right_more (written x) k d }
{
    Binary {
        limbs: value_limbs::shifts::joined(x.limbs, k as u32, value_limbs::small(d as u64)),
        bits: more_bits(x.bits, k),
    }
}

// A digit of k bits at the left of so much room.
fn placed(room: u32, k: u32, d: u8) -> [u64; 4]
    ensures { number result ≡ (left_justified room k d).number % 2 ^ 256 }
{
    let digit = value_limbs::small(d as u64);
    if k <= room {
        value_limbs::shifts::left(digit, room - k)
    } else {
        value_limbs::shifts::right(digit, k - room)
    }
}

// One digit of k bits more, left-justified.
pub fn left_digit(x: Binary, k: u16, d: u8) -> Binary
    ensures { written result ≡ left_more (written x) k d }
{
    let room = lengths::LONGEST.saturating_sub(x.bits as u32);
    let (limbs, _) = value_limbs::sums::sum(x.limbs, placed(room, k as u32, d));
    Binary {
        limbs,
        bits: more_bits(x.bits, k),
    }
}

// The right-justified constant of that length.
pub fn right_constant(x: Binary, length: u16) -> Option<Value>
    ensures { Means result (L.fit length (number x.limbs)) }
{
    fitting::fit(length as u32, x.limbs)
}

// The left-justified constant of that length.
pub fn left_constant(x: Binary, length: u16) -> Option<Value>
    ensures { Means result (L.fit length (number x.limbs / 2 ^ (256 - length))) }
{
    let below = lengths::LONGEST.saturating_sub(length as u32);
    fitting::fit(length as u32, value_limbs::shifts::right(x.limbs, below))
}
