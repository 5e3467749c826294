// What a command gives, as a line.
ghost use Rattle.std.specs.Prelude.{◌<◌};

use std::io;
use value_operators::Value;

// Whether something holds.
pub fn holds(rt: &impl Print, b: bool) -> io::Result<()> {
    println!(rt; "{}", if b { "yes" } else { "no" })
}

// A value: its length, and its number in hexadecimal.
pub fn value(rt: &impl Print, v: Value) -> io::Result<()> {
    let a = v.limbs;
    println!(rt;
        "{} {:016x}{:016x}{:016x}{:016x}",
        v.length, a[3], a[2], a[1], a[0]
    )
}

// A number in which every byte of a slice counts.
fn sum(s: &[u8]) -> u64 {
    let mut n: u64 = 0;
    for b in s {
        n = (n * 31 + *b as u64) % 4294967296;
    }
    n
}

// All bytes of a slice, as one number.
pub fn slice(rt: &impl Print, s: &[u8]) -> io::Result<()> {
    println!(rt; "{:08x}", sum(s))
}
