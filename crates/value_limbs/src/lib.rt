// Numbers of 256 bits in four limbs, the lowest first, handed over by value.
#![tactic(auto)]

pub mod bits;
pub mod shifts;
pub mod sums;

ghost use Rattle.std.specs.Prelude.{◌≡◌, ◌-◌, ◌^◌};
ghost use Rattle.value_limbs.specs.Limbs.{number};

// One limb, and zeroes above it.
pub fn small(a: u64) -> [u64; 4]
    ensures { number result ≡ a }
{
    [a, 0, 0, 0]
}

// Every bit set.
pub fn full() -> [u64; 4]
    ensures { number result ≡ 2 ^ 256 - 1 }
{
    [u64::MAX; 4]
}
