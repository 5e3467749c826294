// Up to 64 bits of a word, most significant first.
ghost use Rattle.std.specs.Prelude.{true, ◌≡◌, ◌+◌, ◌*◌, ◌/◌, ◌%◌, ◌^◌, ◌≤◌, ◌<◌, length as size};
ghost use Rattle.language.specs.Layout.{word_bytes};
ghost use Rattle.store_layout.specs.Layout.{position, word_in};
ghost use Rattle.store_layout.specs.Parts.{part_in, with_part};
ghost use Rattle.store_words.specs.Runs.{Cuts};

use crate::bytes;
use store_geometry::shapes;

// Bits that lie in one byte of a word: the byte, counted from the least significant one, and which of its bits.
#[derive(Clone, Copy)]
struct Cut {
    byte: usize,
    shift: usize,
    bits: usize,
}

// The uppermost of `left` bits above the lowest `low` ones.
fn uppermost(low: usize, left: usize) -> Cut
    requires { (0 < left) × (low + left < 2 ^ 64) }
    ensures { Cuts low left result.byte result.shift result.bits }
{
    let end = low + left;
    let byte = (end - 1) / 8;
    let room = end - 8 * byte;
    let bits = room.min(left);
    Cut {
        byte,
        shift: room - bits,
        bits,
    }
}

// The index of a word's byte j, counted from the least significant one.
#[tactic(auto, unfolding(store_layout::specs::Layout::position))]
fn position_of(length: u32, j: usize) -> usize
    requires { j < word_bytes length }
    ensures { result ≡ position length j }
{
    shapes::word_bytes(length as u64) - 1 - j
}

// Whether bits lie in one byte, so that no loop is needed.
fn in_one_byte(low: usize, count: usize) -> bool
    requires { count ≤ 64 }
    ensures { result ≡ true → Cuts low count (low / 8) (low % 8) count }
{
    0 < count && low % 8 + count <= 8
}

// A word of up to eight bytes as one number.
fn word(s: &[u8], at: usize, length: u32) -> u64
    requires { (at + word_bytes length ≤ size s.now) × (word_bytes length ≤ 8) }
    ensures { result ≡ word_in s.now at length }
{
    let mut acc = 0;
    for b in &s[at..at + shapes::word_bytes(length as u64)] {
        acc = bytes::join(acc, 8, *b as u64);
    }
    acc
}

// `count` bits of a word above its lowest `low` ones, byte by byte. A turn takes what lies in one byte, so that no range counts the turns.
fn bits_by_bytes(s: &[u8], at: usize, length: u32, low: usize, count: usize) -> u64
    requires { (at + word_bytes length ≤ size s.now) × (low + count ≤ 8 * word_bytes length) × (count ≤ 64) }
    ensures { result ≡ part_in s.now at length low count }
{
    let mut acc = 0;
    let mut left = count;
    while 0 < left {
        let c = uppermost(low, left);
        let b = s[at + position_of(length, c.byte)];
        acc = bytes::join(acc, c.bits, bytes::field(b, c.shift, c.bits));
        left -= c.bits;
    }
    acc
}

// These bits replaced by the low ones of v, byte by byte, in the same turns.
fn put_by_bytes(s: &mut [u8], at: usize, length: u32, low: usize, count: usize, v: u64)
    requires { (at + word_bytes length ≤ size s.old) × (low + count ≤ 8 * word_bytes length) × (count ≤ 64) }
    ensures { s.new ≡ with_part s.old at length low count v }
{
    let mut left = count;
    while 0 < left {
        let c = uppermost(low, left);
        let i = at + position_of(length, c.byte);
        left -= c.bits;
        s[i] = bytes::insert(s[i], c.shift, c.bits, v >> left);
    }
}

// `count` bits of a word above its lowest `low` ones.
pub fn bits(s: &[u8], at: usize, length: u32, low: usize, count: usize) -> u64
    requires { (at + word_bytes length ≤ size s.now) × (low + count ≤ 8 * word_bytes length) × (count ≤ 64) }
    ensures { result ≡ part_in s.now at length low count }
{
    if in_one_byte(low, count) {
        let b = s[at + position_of(length, low / 8)];
        return bytes::field(b, low % 8, count);
    }
    if shapes::word_bytes(length as u64) < 8 {
        return bytes::low(word(s, at, length) >> low, count);
    }
    bits_by_bytes(s, at, length, low, count)
}

// These bits replaced by the low ones of v.
pub fn put(s: &mut [u8], at: usize, length: u32, low: usize, count: usize, v: u64)
    requires { (at + word_bytes length ≤ size s.old) × (low + count ≤ 8 * word_bytes length) × (count ≤ 64) }
    ensures { s.new ≡ with_part s.old at length low count v }
{
    if in_one_byte(low, count) {
        let i = at + position_of(length, low / 8);
        s[i] = bytes::insert(s[i], low % 8, count, v);
    } else {
        put_by_bytes(s, at, length, low, count, v);
    }
}
