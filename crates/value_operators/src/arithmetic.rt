// (+) and (-) (the manual, 5.3.1).
ghost use Rattle.language.specs.Value as L;
ghost use Rattle.value_operators.specs.Meaning.{Means, valued};

use crate::{Value, fitting, lengths};

// x (+) y: exact.
pub fn sum(x: Value, y: Value) -> Option<Value>
    ensures { Means result (L.sum (valued x) (valued y)) }
{
    let (sum, _) = value_limbs::sums::sum(x.limbs, y.limbs);
    fitting::fit(lengths::sum_length(x.length, y.length), sum)
}

// x (-) y: exact with its sign, in two's complement.
pub fn difference(x: Value, y: Value) -> Option<Value>
    ensures { Means result (L.difference (valued x) (valued y)) }
{
    let (rest, _) = value_limbs::sums::difference(x.limbs, y.limbs);
    fitting::fit(lengths::difference_length(x.length, y.length), rest)
}

// (-) x: from zero.
pub fn negation(x: Value) -> Option<Value>
    ensures { Means result (L.negation (valued x)) }
{
    let (rest, _) = value_limbs::sums::difference([0; 4], x.limbs);
    fitting::fit(lengths::negation_length(x.length), rest)
}
