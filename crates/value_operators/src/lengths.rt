// The rules for lengths, one function each. A length is a u16, and what a rule gives is a u32, where nothing overflows.
#![tactic(auto, using(std::proofs::lemmas::Bool::Decides::nat_tests), unfolding(language::specs::Value::sum_length, language::specs::Value::difference_length, language::specs::Value::negation_length, language::specs::Value::relation_length, language::specs::Value::complement_length, language::specs::Value::logical_length, language::specs::Value::join_length, language::specs::Value::repeat_length, language::specs::Value::cut_length, language::specs::Value::reduction_length, language::specs::Value::count_length, language::specs::Value::part_length, language::specs::Constants::bare_length, language::specs::Ceilings::longest, crate::specs::Meaning::allowed))]

ghost use Rattle.std.specs.Prelude.{◌≡◌, max, ◌<◌};
ghost use Rattle.language.specs.Value.{sum_length, difference_length, negation_length, relation_length, complement_length, logical_length, join_length, repeat_length, cut_length, reduction_length, count_length, part_length};
ghost use Rattle.language.specs.Constants.{bare_length};
ghost use Rattle.value_operators.specs.Meaning.{allowed as Allowed};

use language::ceilings;

// The longest value.
pub const LONGEST: u32 = ceilings::VALUE as u32;
// The first bit of a difference, which tells a borrow.
const SIGN: u32 = 1;

// Whether a value may have this length.
pub fn allowed(length: u32) -> bool
    ensures { result ≡ Allowed length }
{
    0 < length && length <= LONGEST
}

// The longer of two lengths.
fn longer(m: u16, n: u16) -> u32
    ensures { (result ≡ max m n) × (result < 65536) }
{
    m.max(n) as u32
}

// (+): one bit more than the longer operand.
pub fn sum_length(m: u16, n: u16) -> u32
    ensures { result ≡ sum_length m n }
{
    longer(m, n) + 1
}

// (-): one bit more than the longer operand.
pub fn difference_length(m: u16, n: u16) -> u32
    ensures { result ≡ difference_length m n }
{
    longer(m, n) + SIGN
}

// (-) as a prefix: one bit more than the operand.
pub fn negation_length(m: u16) -> u32
    ensures { result ≡ negation_length m }
{
    m as u32 + SIGN
}

// A relation is one bit.
pub fn relation_length() -> u32
    ensures { result ≡ relation_length }
{
    1
}

// The complement.
pub fn complement_length(m: u16) -> u32
    ensures { result ≡ complement_length m }
{
    m as u32
}

// AND, OR and exclusive OR.
pub fn logical_length(m: u16, n: u16) -> u32
    ensures { result ≡ logical_length m n }
{
    longer(m, n)
}

// CON.
pub fn join_length(m: u16, n: u16) -> u32
    ensures { result ≡ join_length m n }
{
    m as u32 + n as u32
}

// EXT c.
pub fn repeat_length(m: u16, c: u16) -> u32
    ensures { result ≡ repeat_length m c }
{
    m as u32 * c as u32
}

// HEAD c and TAIL c.
pub fn cut_length(m: u16, c: u16) -> u32
    ensures { result ≡ cut_length m c }
{
    if c <= m { c as u32 } else { 0 }
}

// RED, but for the count.
pub fn reduction_length() -> u32
    ensures { result ≡ reduction_length }
{
    1
}

// (+) RED.
pub fn count_length() -> u32
    ensures { result ≡ count_length }
{
    16
}

// A bare constant.
pub fn bare_length() -> u32
    ensures { result ≡ bare_length }
{
    16
}

// A part of `count` bits from the bit `from` on.
pub fn part_length(m: u16, from: u16, count: u16) -> u32
    ensures { result ≡ part_length m from count }
{
    if from as u32 + count as u32 <= m as u32 {
        count as u32
    } else {
        0
    }
}
