// Bits within one byte.
ghost use Rattle.std.specs.Prelude.{◌≡◌, ◌+◌, ◌*◌, ◌/◌, ◌%◌, ◌^◌, ◌≤◌, ◌<◌};
ghost use Rattle.language.specs.Value.{replaced};

// The n low bits.
pub fn low(a: u64, n: usize) -> u64
    requires { n < 64 }
    ensures { result ≡ a % 2 ^ n }
{
    a & ((1 << n) - 1)
}

// The bits of `high`, and then the n bits of `below`.
pub fn join(high: u64, n: usize, below: u64) -> u64
    requires { (n < 64) × (below < 2 ^ n) × (high * 2 ^ n < 2 ^ 64) }
    ensures { result ≡ high * 2 ^ n + below }
{
    (high << n) | below
}

// n bits of a byte, above its lowest `shift` ones.
pub fn field(b: u8, shift: usize, n: usize) -> u64
    requires { shift + n ≤ 8 }
    ensures { result ≡ b / 2 ^ shift % 2 ^ n }
{
    low((b as u64) >> shift, n)
}

// The byte with these n bits replaced by the low ones of v.
pub fn insert(b: u8, shift: usize, n: usize, v: u64) -> u8
    requires { shift + n ≤ 8 }
    ensures { result ≡ replaced b shift n v }
{
    let w = b as u64;
    let above = join(w >> (shift + n), n, low(v, n));
    join(above, shift, low(w, shift)) as u8
}
