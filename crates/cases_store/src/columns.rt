// The columns of a line: a letter, four numbers of six decimal digits, and a value of 64 hexadecimal ones.
ghost use Rattle.std.specs.Prelude.{◌<◌};

use value_operators::Value;

// Where a part lies, or the words of a facility, and the value for it.
#[derive(Clone, Copy)]
pub struct Command {
    pub at: usize,
    pub length: u32,
    pub from: u32,
    pub count: u32,
    pub value: Value,
}

// The number of a digit.
fn digit(b: u8) -> u32
    ensures { result < 16 }
{
    match b {
        b'0'..=b'9' => (b - b'0') as u32,
        b'a'..=b'f' => (b - b'a' + 10) as u32,
        _ => 0,
    }
}

// Three decimal digits from a place on.
fn three(line: &[u8; 95], at: usize) -> u32
    requires { at < 93 }
    ensures { result < 2000 }
{
    digit(line[at]) * 100 + digit(line[at + 1]) * 10 + digit(line[at + 2])
}

// Six decimal digits from a place on.
fn six(line: &[u8; 95], at: usize) -> u32
    requires { at < 90 }
{
    three(line, at) * 1000 + three(line, at + 3)
}

// Sixteen hexadecimal digits from a place on.
fn limb(line: &[u8; 95], at: usize) -> u64
    requires { at < 79 }
{
    let mut n: u64 = 0;
    for i in 0..16 {
        n = (n << 4) | (digit(line[at + i]) as u64);
    }
    n
}

// What a line asks for.
pub fn asked(line: &[u8; 95]) -> Command {
    let value = Value {
        limbs: [
            limb(line, 78),
            limb(line, 62),
            limb(line, 46),
            limb(line, 30),
        ],
        length: 256,
    };
    Command {
        at: six(line, 2) as usize,
        length: six(line, 9),
        from: six(line, 16),
        count: six(line, 23),
        value,
    }
}
