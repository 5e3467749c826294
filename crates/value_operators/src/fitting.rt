// The one place where values are made: the low bits of a number, at a length that a value may have.
ghost use Rattle.language.specs.Value as L;
ghost use Rattle.value_limbs.specs.Limbs.{number};
ghost use Rattle.value_operators.specs.Meaning.{Means};

use crate::{Value, lengths};

// The low bits of a number as a value of that length.
pub fn fit(length: u32, limbs: [u64; 4]) -> Option<Value>
    ensures { Means result (L.fit length (number limbs)) }
{
    if !lengths::allowed(length) {
        return None;
    }
    Some(Value {
        limbs: value_limbs::shifts::low(limbs, length),
        length: length as u16,
    })
}

// One bit at a length: whether something holds.
pub fn flag(length: u32, holds: bool) -> Option<Value>
    ensures { Means result (L.fit length (L.bit holds)) }
{
    fit(length, value_limbs::small(holds as u64))
}
