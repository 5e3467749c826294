// The complement and the logical operators (the manual, 5.3.5 and 5.3.6).
ghost use Rattle.language.specs.Value as L;
ghost use Rattle.value_limbs.specs.Limbs.{number};
ghost use Rattle.value_operators.specs.Meaning.{Means, valued};

use crate::{Value, fitting, lengths};

// - x: every bit turned.
pub fn complement(x: Value) -> Option<Value>
    ensures { Means result (L.complement (valued x)) }
{
    let (turned, _) = value_limbs::sums::difference(value_limbs::full(), x.limbs);
    fitting::fit(lengths::complement_length(x.length), turned)
}

// The bits that a logical operator makes of operands of these lengths.
fn logical(m: u16, n: u16, limbs: [u64; 4]) -> Option<Value>
    ensures { Means result (L.fit (L.logical_length m n) (number limbs)) }
{
    fitting::fit(lengths::logical_length(m, n), limbs)
}

// x * y.
pub fn conjunction(x: Value, y: Value) -> Option<Value>
    ensures { Means result (L.conjunction (valued x) (valued y)) }
{
    logical(x.length, y.length, value_limbs::bits::and(x.limbs, y.limbs))
}

// x [+] y.
pub fn exclusive(x: Value, y: Value) -> Option<Value>
    ensures { Means result (L.exclusive (valued x) (valued y)) }
{
    logical(x.length, y.length, value_limbs::bits::xor(x.limbs, y.limbs))
}

// x + y.
pub fn disjunction(x: Value, y: Value) -> Option<Value>
    ensures { Means result (L.disjunction (valued x) (valued y)) }
{
    logical(x.length, y.length, value_limbs::bits::or(x.limbs, y.limbs))
}
