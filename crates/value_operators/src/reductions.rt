// RED (the manual, 5.3.7).
ghost use Rattle.std.specs.Prelude.{◌≡◌, ◌-◌, ◌^◌, eqb};
ghost use Rattle.language.specs.Value as L;
ghost use Rattle.value_limbs.specs.Limbs.{number};
ghost use Rattle.value_operators.specs.Meaning.{Means, valued};

use crate::{Value, fitting, lengths};

// + RED x: whether a bit is one.
pub fn or_reduction(x: Value) -> Option<Value>
    ensures { Means result (L.or_reduction (valued x)) }
{
    fitting::flag(
        lengths::reduction_length(),
        value_limbs::sums::less([0; 4], x.limbs),
    )
}

// Whether the m low bits are all one, and no other is.
fn all_ones(x: Value) -> bool
    ensures { result ≡ eqb (number x.limbs) (2 ^ x.length - 1) }
{
    let m = x.length as u32;
    m <= lengths::LONGEST
        && value_limbs::sums::same(x.limbs, value_limbs::shifts::low(value_limbs::full(), m))
}

// * RED x: whether every bit is one.
pub fn and_reduction(x: Value) -> Option<Value>
    ensures { Means result (L.and_reduction (valued x)) }
{
    fitting::flag(lengths::reduction_length(), all_ones(x))
}

// [+] RED x: whether the number of one bits is odd.
pub fn exclusive_reduction(x: Value) -> Option<Value>
    ensures { Means result (L.exclusive_reduction (valued x)) }
{
    let n = value_limbs::bits::count(x.limbs) as u64;
    fitting::fit(lengths::reduction_length(), value_limbs::small(n))
}

// (+) RED x: the number of one bits.
pub fn sum_reduction(x: Value) -> Option<Value>
    ensures { Means result (L.sum_reduction (valued x)) }
{
    let n = value_limbs::bits::count(x.limbs) as u64;
    fitting::fit(lengths::count_length(), value_limbs::small(n))
}
