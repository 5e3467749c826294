// Parts of a value. Bit 0 is the first, most significant one.
ghost use Rattle.language.specs.Value as L;
ghost use Rattle.value_limbs.specs.Limbs.{number};
ghost use Rattle.value_operators.specs.Meaning.{Means, valued};

use crate::{Value, fitting, lengths};

// `count` bits of x from the bit `from` on.
pub fn part(x: Value, from: u16, count: u16) -> Option<Value>
    ensures { Means result (L.part (valued x) from count) }
{
    let below = (x.length as u32).saturating_sub(from as u32 + count as u32);
    fitting::fit(
        lengths::part_length(x.length, from, count),
        value_limbs::shifts::right(x.limbs, below),
    )
}

// x with the c bits above the lowest `low` ones replaced by v's low bits.
pub fn replaced(x: Value, low: u16, c: u16, v: Value) -> Option<Value>
    ensures { Means result (L.fit x.length (L.replaced (number x.limbs) low c (number v.limbs))) }
{
    let k = low as u32;
    let n = c as u32;
    let above = value_limbs::shifts::joined(
        value_limbs::shifts::right(x.limbs, k + n),
        n,
        value_limbs::shifts::low(v.limbs, n),
    );
    fitting::fit(
        x.length as u32,
        value_limbs::shifts::joined(above, k, value_limbs::shifts::low(x.limbs, k)),
    )
}
