// Spare bits, above a word's own, are zero.
ghost use Rattle.std.specs.Prelude.{◌≡◌, ◌+◌, ◌-◌, ◌*◌, ◌≤◌, length as size};
ghost use Rattle.language.specs.Layout.{word_bytes};
ghost use Rattle.store_layout.specs.Parts.{part_in};
ghost use Rattle.store_layout.specs.Spare.{narrow_at};

use crate::bits;
use store_geometry::shapes;

// The spare bits of a word.
fn spare_bits(s: &[u8], at: usize, length: u32) -> u64
    requires { at + word_bytes length ≤ size s.now }
    ensures { result ≡ part_in s.now at length length (8 * word_bytes length - length) }
{
    let own = length as usize;
    bits::bits(
        s,
        at,
        length,
        own,
        8 * shapes::word_bytes(length as u64) - own,
    )
}

// Whether `words` words of `length` bits lie in the slice from `at` on, and none has a spare bit.
pub fn no_spare_bits(s: &[u8], at: usize, words: u32, length: u32) -> bool
    ensures { result ≡ narrow_at s.now at words length }
{
    let n = shapes::word_bytes(length as u64);
    let all = words as usize * n;
    if s.len() < all || s.len() - all < at {
        return false;
    }
    // Words that fill their bytes have no spare bits.
    if 8 * n == length as usize {
        return true;
    }
    for i in 0..words as usize {
        if spare_bits(s, at + n * i, length) != 0 {
            return false;
        }
    }
    true
}
