// The columns of a line: numbers of 64 hexadecimal digits, and lengths and counts of three decimal ones.
ghost use Rattle.std.specs.Prelude.{◌<◌};

use value_operators::Value;

// The number of a digit.
pub fn digit(b: u8) -> u8
    ensures { result < 16 }
{
    match b {
        b'0'..=b'9' => b - b'0',
        b'a'..=b'f' => b - b'a' + 10,
        b'A'..=b'F' => b - b'A' + 10,
        _ => 0,
    }
}

// Sixteen digits from a place on.
fn limb(line: &[u8; 213], at: usize) -> u64
    requires { at < 197 }
{
    let mut n = 0;
    for b in &line[at..at + 16] {
        n = (n << 4) | digit(*b) as u64;
    }
    n
}

// Sixty-four digits from a place on.
fn number(line: &[u8; 213], at: usize) -> [u64; 4]
    requires { at < 149 }
{
    [
        limb(line, at + 48),
        limb(line, at + 32),
        limb(line, at + 16),
        limb(line, at),
    ]
}

// Three decimal digits.
fn small(a: u8, b: u8, c: u8) -> u16 {
    digit(a) as u16 * 100 + digit(b) as u16 * 10 + digit(c) as u16
}

// The left operand.
pub fn left(line: &[u8; 213]) -> Value {
    Value {
        limbs: number(line, 6),
        length: small(line[2], line[3], line[4]),
    }
}

// The right operand.
pub fn right(line: &[u8; 213]) -> Value {
    Value {
        limbs: number(line, 75),
        length: small(line[71], line[72], line[73]),
    }
}

// The count.
pub fn count(line: &[u8; 213]) -> u16 {
    small(line[140], line[141], line[142])
}

// The value that is expected, of length 0 where none is.
pub fn expected(line: &[u8; 213]) -> Value {
    Value {
        limbs: number(line, 148),
        length: small(line[144], line[145], line[146]),
    }
}
