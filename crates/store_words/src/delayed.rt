// Delayed stores wait in a slice like the store, beside a mask of the bits that they name.
ghost use Rattle.std.specs.Prelude.{◌≡◌, ◌-◌, ◌^◌, ltb};
ghost use Rattle.store_layout.specs.Parts.{loaded, saved};
ghost use Rattle.store_layout.specs.Slices.{land_bits, landed};

use crate::parts;
use language::ceilings;
use value_operators::Value;

// Whether a bit of a part is set in the mask.
pub fn marked(mask: &[u8], at: usize, length: u32, from: u32, count: u32) -> bool
    ensures { result ≡ ltb 0 (loaded mask.now at length from count).number }
{
    let v = parts::load(mask, at, length, from, count);
    value_limbs::sums::less(value_limbs::small(0), v.limbs)
}

// Sets the bits of a part in the mask.
pub fn mark(mask: &mut [u8], at: usize, length: u32, from: u32, count: u32)
    ensures { mask.new ≡ saved mask.old at length from count (2 ^ 256 - 1) }
{
    let v = Value {
        limbs: value_limbs::full(),
        length: ceilings::VALUE,
    };
    parts::save(mask, at, length, from, count, v);
}

// The bits of p where the mask m has one, and those of s elsewhere.
#[tactic(auto, unfolding(store_layout::specs::Slices::land_bits))]
fn land_bits(s: u8, p: u8, m: u8) -> u8
    ensures { result ≡ land_bits s p m }
{
    s ^ ((s ^ p) & m)
}

// All delayed stores land.
pub fn land(store: &mut [u8], pending: &[u8], mask: &[u8])
    ensures { store.new ≡ landed store.old pending.now mask.now }
{
    let n = store.len().min(pending.len()).min(mask.len());
    for i in 0..n {
        store[i] = land_bits(store[i], pending[i], mask[i]);
    }
}
