// Between values and the machine's numbers.
ghost use Rattle.std.specs.Prelude.{◌≡◌, ◌%◌, ◌^◌, eqb, ltb};
ghost use Rattle.language.specs.Value as L;
ghost use Rattle.value_limbs.specs.Limbs.{number};
ghost use Rattle.value_operators.specs.Meaning.{Means};

use crate::{Value, fitting};

// The low bits of n as a value of that length.
pub fn from_number(length: u16, n: u64) -> Option<Value>
    ensures { Means result (L.fit length n) }
{
    fitting::fit(length as u32, value_limbs::small(n))
}

// The low 64 bits of x.
pub fn low64(x: Value) -> u64
    ensures { result ≡ number x.limbs % 2 ^ 64 }
{
    x.limbs[0]
}

// Whether the low 64 bits are all of x.
pub fn fits64(x: Value) -> bool
    ensures { result ≡ ltb (number x.limbs) (2 ^ 64) }
{
    value_limbs::sums::less(x.limbs, [0, 1, 0, 0])
}

// Whether x and y have the same number.
pub fn same(x: Value, y: Value) -> bool
    ensures { result ≡ eqb (number x.limbs) (number y.limbs) }
{
    value_limbs::sums::same(x.limbs, y.limbs)
}
