// Numbers in bytes, the lowest first. Bytes past the end count 0.
ghost use Rattle.std.specs.Prelude.{◌≡◌, ◌+◌, ◌*◌, ◌<◌, ◌≤◌, ◌/◌, ◌%◌, ◌^◌, eqb, get_or, length};
ghost use Rattle.language.specs.Decode.{number_at};
ghost use Rattle.language.specs.Encode as L;
ghost use Rattle.language.specs.Tests.{both};
ghost use Rattle.image_records.specs.Placed.{placed};

use crate::bytes;

pub fn wide(x: u8) -> u16
    ensures { (result ≡ x) × (result < 256) }
{
    x as u16
}

// A number by its low and its high half.
pub fn joined(low: u16, high: u16) -> u32
    ensures { result ≡ low + 65536 * high }
{
    low as u32 + 65536 * high as u32
}

// Whether numbers are zero, as fields are that a record has no use for.
#[tactic(auto, using(std::proofs::lemmas::Bool::Decides::nat_tests))]
pub fn two_zero(a: u16, b: u16) -> bool
    ensures { result ≡ both (eqb a 0) (eqb b 0) }
{
    a == 0 && b == 0
}

#[tactic(auto, using(std::proofs::lemmas::Bool::Decides::nat_tests))]
pub fn three_zero(a: u16, b: u16, c: u16) -> bool
    ensures { result ≡ both (eqb a 0) (both (eqb b 0) (eqb c 0)) }
{
    a == 0 && b == 0 && c == 0
}

// The byte at a place.
pub fn byte(s: &[u8], at: usize) -> u8
    ensures { result ≡ get_or s.now at 0 }
{
    s.get(at).copied().unwrap_or(0)
}

// The number in two bytes that are all there.
#[tactic(auto, unfolding(language::specs::Decode::number_at))]
pub fn two_there(s: &[u8], at: usize) -> u16
    requires { at + 2 ≤ length s.now }
    ensures { result ≡ number_at 2 at s.now }
{
    u16::from_le_bytes([s[at], s[at + 1]])
}

// The number in two bytes.
pub fn two(s: &[u8], at: usize) -> u16
    ensures { result ≡ number_at 2 at s.now }
{
    if s.len() < at {
        return 0;
    }
    if 2 <= s.len() - at {
        return two_there(s, at);
    }
    wide(byte(s, at))
}

// The number in four bytes that are all there.
#[tactic(auto, unfolding(language::specs::Decode::number_at))]
pub fn four_there(s: &[u8], at: usize) -> u32
    requires { at + 4 ≤ length s.now }
    ensures { result ≡ number_at 4 at s.now }
{
    u32::from_le_bytes([s[at], s[at + 1], s[at + 2], s[at + 3]])
}

// The number in four bytes.
pub fn four(s: &[u8], at: usize) -> u32
    ensures { result ≡ number_at 4 at s.now }
{
    if s.len() < at {
        return 0;
    }
    if 4 <= s.len() - at {
        return four_there(s, at);
    }
    two(s, at) as u32 + two(s, at + 2) as u32 * 0x10000
}

// The number in six bytes that are all there.
pub fn six_there(s: &[u8], at: usize) -> u64
    requires { at + 6 ≤ length s.now }
    ensures { (result ≡ number_at 6 at s.now) × (result < 2 ^ 48) }
{
    four_there(s, at) as u64 + two_there(s, at + 4) as u64 * 0x100000000
}

// The number in six bytes.
pub fn six(s: &[u8], at: usize) -> u64
    ensures { (result ≡ number_at 6 at s.now) × (result < 2 ^ 48) }
{
    if s.len() < at {
        return 0;
    }
    if 6 <= s.len() - at {
        return six_there(s, at);
    }
    four(s, at) as u64 + two(s, at + 4) as u64 * 0x100000000
}

// The two bytes of a number.
pub fn low(x: u16) -> u8
    ensures { result ≡ x % 256 }
{
    (x % 256) as u8
}

pub fn high(x: u16) -> u8
    ensures { result ≡ x / 256 % 256 }
{
    (x / 256) as u8
}

// The four bytes of a number.
#[tactic(auto, unfolding(language::specs::Encode::little))]
pub fn four_bytes(x: u64) -> [u8; 4]
    ensures { result ≡ L.four x }
{
    let [b0, b1, b2, b3, ..] = x.to_le_bytes();
    [b0, b1, b2, b3]
}

// Writes a number in four bytes at a place, where they fit.
#[tactic(auto, unfolding(language::specs::Encode::little))]
pub fn write_four(s: &mut [u8], at: usize, x: u32)
    ensures { s.new ≡ placed s.old at (L.four x) }
{
    bytes::put(s, at, &x.to_le_bytes());
}
