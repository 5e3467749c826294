// The lengths that a conditional's parts may have.
ghost use Rattle.std.specs.Prelude.{◌≡◌};
ghost use Rattle.language.specs.Expressions as E;

// Whether a condition of that length, at most six bits, chooses among n arms.
pub fn selects(length: u16, n: u16) -> bool
    ensures { result ≡ E.selects length n }
{
    match length {
        0 => n == 1,
        1 => n == 2,
        2 => n == 4,
        3 => n == 8,
        4 => n == 16,
        5 => n == 32,
        6 => n == 64,
        _ => false,
    }
}

// The length of arms together.
pub fn evenly(m: u16, n: u16) -> u16
    ensures { result ≡ E.evenly m n }
{
    if m == n { m } else { 0 }
}
