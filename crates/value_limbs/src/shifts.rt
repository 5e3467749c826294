// The low bits of a number, shifts to the left and to the right, and one number behind another.
ghost use Rattle.std.specs.Prelude.{◌≡◌, ◌+◌, ◌*◌, ◌/◌, ◌%◌, ◌^◌, ◌<◌};
ghost use Rattle.value_limbs.specs.Limbs.{cat, number, Carry};

// The k low bits of a limb, where k may be any number.
fn low_limb(a: u64, k: u32) -> u64
    ensures { result ≡ a % 2 ^ k }
{
    if k < 64 { a & ((1 << k) - 1) } else { a }
}

// The k low bits.
pub fn low(x: [u64; 4], k: u32) -> [u64; 4]
    ensures { number result ≡ number x % 2 ^ k }
{
    [
        low_limb(x[0], k),
        low_limb(x[1], k.saturating_sub(64)),
        low_limb(x[2], k.saturating_sub(128)),
        low_limb(x[3], k.saturating_sub(192)),
    ]
}

// a * 2^s + c, where c holds the s bits that left the limb below; and the s bits that leave this one.
fn limb_left(a: u64, s: u32, c: u64) -> (u64, u64)
    requires { (s < 64) × (c < 2 ^ s) }
    ensures { (result.1 < 2 ^ s) × Carry (2 ^ 64) (a * 2 ^ s) c result.0 result.1 }
{
    ((a << s) | c, (a >> 1) >> (63 - s))
}

// Shifted to the left by less than a limb: five limbs.
fn left_within(x: [u64; 4], s: u32) -> (u64, u64, u64, u64, u64)
    requires { s < 64 }
    ensures { cat (cat (cat (cat result.4 result.3) result.2) result.1) result.0 ≡ number x * 2 ^ s }
{
    let (l0, c0) = limb_left(x[0], s, 0);
    let (l1, c1) = limb_left(x[1], s, c0);
    let (l2, c2) = limb_left(x[2], s, c1);
    let (l3, c3) = limb_left(x[3], s, c2);
    (l0, l1, l2, l3, c3)
}

// One limb to the left.
fn limb_up(x: [u64; 4]) -> [u64; 4]
    ensures { number result ≡ number x * 2 ^ 64 % 2 ^ 256 }
{
    [0, x[0], x[1], x[2]]
}

// One limb to the right.
fn limb_down(x: [u64; 4]) -> [u64; 4]
    ensures { number result ≡ number x / 2 ^ 64 }
{
    [x[1], x[2], x[3], 0]
}

// Some limbs to the left.
fn limbs_up(x: [u64; 4], n: u32) -> [u64; 4]
    ensures { number result ≡ number x * 2 ^ (64 * n) % 2 ^ 256 }
{
    let mut a = x;
    for _ in 0..n {
        let up = limb_up(a);
        a = up;
    }
    a
}

// Shifted to the left by any number of bits, modulo 2 to the 256. By less than a limb there is nothing to count.
pub fn left(x: [u64; 4], k: u32) -> [u64; 4]
    ensures { number result ≡ number x * 2 ^ k % 2 ^ 256 }
{
    let a = if k < 64 { x } else { limbs_up(x, k / 64) };
    let (l0, l1, l2, l3, _) = left_within(a, k % 64);
    [l0, l1, l2, l3]
}

// Some limbs to the right.
fn limbs_down(x: [u64; 4], n: u32) -> [u64; 4]
    ensures { number result ≡ number x / 2 ^ (64 * n) }
{
    let mut a = x;
    for _ in 0..n {
        let down = limb_down(a);
        a = down;
    }
    a
}

// Shifted to the right by any number of bits: to the left by the rest of a limb, and a limb down.
pub fn right(x: [u64; 4], k: u32) -> [u64; 4]
    ensures { number result ≡ number x / 2 ^ k }
{
    let a = if k < 64 { x } else { limbs_down(x, k / 64) };
    let s = k % 64;
    if s == 0 {
        return a;
    }
    let (_, l1, l2, l3, l4) = left_within(a, 64 - s);
    [l1, l2, l3, l4]
}

// x, and then the m bits of y, modulo 2 to the 256.
pub fn joined(x: [u64; 4], m: u32, y: [u64; 4]) -> [u64; 4]
    ensures { number result ≡ (number x * 2 ^ m + number y) % 2 ^ 256 }
{
    crate::sums::sum(left(x, m), y).0
}
