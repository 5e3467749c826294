// What is done on each bit apart, and the count of ones.
ghost use Rattle.std.specs.Prelude.{◌≡◌};
ghost use Rattle.std.specs.Int.Bits.{bit_and, bit_or, bit_xor};
ghost use Rattle.std.specs.Int.Count.{ones};
ghost use Rattle.value_limbs.specs.Limbs.{number};

// The bits that both have.
pub fn and(x: [u64; 4], y: [u64; 4]) -> [u64; 4]
    ensures { number result ≡ bit_and (number x) (number y) }
{
    [x[0] & y[0], x[1] & y[1], x[2] & y[2], x[3] & y[3]]
}

// The bits that one or both have.
pub fn or(x: [u64; 4], y: [u64; 4]) -> [u64; 4]
    ensures { number result ≡ bit_or (number x) (number y) }
{
    [x[0] | y[0], x[1] | y[1], x[2] | y[2], x[3] | y[3]]
}

// The bits that one alone has.
pub fn xor(x: [u64; 4], y: [u64; 4]) -> [u64; 4]
    ensures { number result ≡ bit_xor (number x) (number y) }
{
    [x[0] ^ y[0], x[1] ^ y[1], x[2] ^ y[2], x[3] ^ y[3]]
}

// The number of one bits.
pub fn count(x: [u64; 4]) -> u32
    ensures { result ≡ ones (number x) }
{
    x[3].count_ones() + x[2].count_ones() + x[1].count_ones() + x[0].count_ones()
}
