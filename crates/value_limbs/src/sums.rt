// Sums and differences with a carry, and what a difference tells of the order.
ghost use Rattle.std.specs.Prelude.{◌≡◌, ◌+◌, ◌%◌, ◌^◌, eqb, leb, ltb};
ghost use Rattle.language.specs.Value.{difference_number};
ghost use Rattle.value_limbs.specs.Limbs.{number};

// x + y: modulo 2 to the 256, and whether it passed that.
pub fn sum(x: [u64; 4], y: [u64; 4]) -> ([u64; 4], bool)
    ensures { (number result.0 ≡ (number x + number y) % 2 ^ 256) × (result.1 ≡ leb (2 ^ 256) (number x + number y)) }
{
    let (s0, c0) = x[0].carrying_add(y[0], false);
    let (s1, c1) = x[1].carrying_add(y[1], c0);
    let (s2, c2) = x[2].carrying_add(y[2], c1);
    let (s3, c3) = x[3].carrying_add(y[3], c2);
    ([s0, s1, s2, s3], c3)
}

// x - y: modulo 2 to the 256, and a borrow exactly where y is the larger.
pub fn difference(x: [u64; 4], y: [u64; 4]) -> ([u64; 4], bool)
    ensures { (number result.0 ≡ difference_number 256 (number x) (number y) % 2 ^ 256) × (result.1 ≡ ltb (number x) (number y)) }
{
    let (d0, b0) = x[0].borrowing_sub(y[0], false);
    let (d1, b1) = x[1].borrowing_sub(y[1], b0);
    let (d2, b2) = x[2].borrowing_sub(y[2], b1);
    let (d3, b3) = x[3].borrowing_sub(y[3], b2);
    ([d0, d1, d2, d3], b3)
}

// Whether x is the smaller.
pub fn less(x: [u64; 4], y: [u64; 4]) -> bool
    ensures { result ≡ ltb (number x) (number y) }
{
    difference(x, y).1
}

// Whether x and y are equal: neither is the smaller.
pub fn same(x: [u64; 4], y: [u64; 4]) -> bool
    ensures { result ≡ eqb (number x) (number y) }
{
    !less(x, y) && !less(y, x)
}
