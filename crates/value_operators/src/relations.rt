// Relations (the manual, 5.3.2): one bit, whether it holds.
ghost use Rattle.language.specs.Value as L;
ghost use Rattle.value_operators.specs.Meaning.{Means, valued};

use crate::{Value, fitting, lengths};

// One bit, whether a relation holds.
pub fn related(holds: bool) -> Option<Value>
    ensures { Means result (L.related holds) }
{
    fitting::flag(lengths::relation_length(), holds)
}

// x (=) y.
pub fn equal(x: Value, y: Value) -> Option<Value>
    ensures { Means result (L.equal (valued x) (valued y)) }
{
    related(value_limbs::sums::same(x.limbs, y.limbs))
}

// x # y.
pub fn unequal(x: Value, y: Value) -> Option<Value>
    ensures { Means result (L.unequal (valued x) (valued y)) }
{
    related(!value_limbs::sums::same(x.limbs, y.limbs))
}

// x < y.
pub fn less(x: Value, y: Value) -> Option<Value>
    ensures { Means result (L.less (valued x) (valued y)) }
{
    related(value_limbs::sums::less(x.limbs, y.limbs))
}

// x > y.
pub fn greater(x: Value, y: Value) -> Option<Value>
    ensures { Means result (L.greater (valued x) (valued y)) }
{
    less(y, x)
}

// x <= y.
pub fn at_most(x: Value, y: Value) -> Option<Value>
    ensures { Means result (L.at_most (valued x) (valued y)) }
{
    related(!value_limbs::sums::less(y.limbs, x.limbs))
}

// x >= y.
pub fn at_least(x: Value, y: Value) -> Option<Value>
    ensures { Means result (L.at_least (valued x) (valued y)) }
{
    at_most(y, x)
}
