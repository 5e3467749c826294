// The value of a state: a constant in parentheses, which takes the length of the sequencing register where it was written without one and fits.
ghost use Rattle.std.specs.Prelude.{◌≡◌};
ghost use Rattle.language.specs.DescribeText.{state_constant};
ghost use Rattle.language.specs.Scan as S;
ghost use Rattle.value_operators.specs.Meaning.{valued};
ghost use Rattle.parse_states.specs.Begins.{length_of};
ghost use Rattle.parse_states.specs.Heads.{Stated};

use text_words::Word;
use value_operators::{Value, lengths};

// The value that a constant gives a state, where the sequencing register has l bits.
fn state_value(bare: bool, v: Value, l: u16) -> Value
    ensures { valued result ≡ state_constant (length_of l) (S.written bare (valued v)) }
{
    if bare
        && lengths::allowed(l as u32)
        && value_limbs::sums::same(value_limbs::shifts::low(v.limbs, l as u32), v.limbs)
    {
        return Value { length: l, ..v };
    }
    v
}

// A constant's word with the value that it gives a state.
pub fn stated(w: Word, l: u16) -> Word
    ensures { Stated l w result }
{
    Word {
        value: state_value(w.bare, w.value, l),
        ..w
    }
}
