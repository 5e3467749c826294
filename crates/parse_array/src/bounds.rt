// The numbers of constants as records hold them.
ghost use Rattle.std.specs.Prelude.{◌≡◌, ◌≤◌, min};
ghost use Rattle.language.specs.Describe as L;
ghost use Rattle.value_limbs.specs.Limbs.{number};

use language::ceilings;
use value_operators::{Value, numbers};

// What stands for a bound, and for a count, that is too large: no rule tells larger ones apart.
const PAST_BOUND: u64 = ceilings::BOUND as u64 + 1;

const LARGEST_COUNT: u64 = 65535;

// A value's number, or the ceiling where it is more.
fn at_most(v: Value, ceiling: u64) -> u64
    ensures { (result ≡ min (number v.limbs) ceiling) × (result ≤ ceiling) }
{
    if numbers::fits64(v) {
        numbers::low64(v).min(ceiling)
    } else {
        ceiling
    }
}

// A bound or an end of a part.
pub fn bound(v: Value) -> u32
    ensures { result ≡ L.bound (number v.limbs) }
{
    at_most(v, PAST_BOUND) as u32
}

// A count after HEAD, TAIL or EXT.
pub fn count(v: Value) -> u16
    ensures { result ≡ L.count (number v.limbs) }
{
    at_most(v, LARGEST_COUNT) as u16
}
