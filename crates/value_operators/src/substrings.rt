// CON, EXT, HEAD and TAIL (the manual, 5.3.3 and 5.3.4).
ghost use Rattle.std.specs.Prelude.{◌≡◌, ◌%◌, ◌^◌};
ghost use Rattle.language.specs.Value as L;
ghost use Rattle.value_limbs.specs.Limbs.{number};
ghost use Rattle.value_operators.specs.Meaning.{Means, valued};

use crate::{Value, fitting, lengths};

// x CON y.
pub fn join(x: Value, y: Value) -> Option<Value>
    ensures { Means result (L.join (valued x) (valued y)) }
{
    fitting::fit(
        lengths::join_length(x.length, y.length),
        value_limbs::shifts::joined(x.limbs, y.length as u32, y.limbs),
    )
}

// x, of m bits, written c times, modulo 2 to the 256.
fn repeated(x: [u64; 4], m: u32, c: u16) -> [u64; 4]
    ensures { number result ≡ L.repeated m (number x) c % 2 ^ 256 }
{
    let mut r = [0; 4];
    for _ in 0..c {
        let more = value_limbs::shifts::joined(r, m, x);
        r = more;
    }
    r
}

// x EXT c.
pub fn extended(x: Value, c: u16) -> Option<Value>
    ensures { Means result (L.extended (valued x) c) }
{
    let length = lengths::repeat_length(x.length, c);
    if !lengths::allowed(length) {
        return None;
    }
    fitting::fit(length, repeated(x.limbs, x.length as u32, c))
}

// x HEAD c: the c bits on the left.
pub fn head(x: Value, c: u16) -> Option<Value>
    ensures { Means result (L.head (valued x) c) }
{
    let below = x.length.saturating_sub(c);
    fitting::fit(
        lengths::cut_length(x.length, c),
        value_limbs::shifts::right(x.limbs, below as u32),
    )
}

// x TAIL c: the c bits on the right.
pub fn tail(x: Value, c: u16) -> Option<Value>
    ensures { Means result (L.tail (valued x) c) }
{
    fitting::fit(lengths::cut_length(x.length, c), x.limbs)
}
