// Numbers of constants, compared whole, however many records they take.
ghost use Rattle.std.specs.Prelude.{◌≡◌, ◌+◌, ◌*◌, ◌<◌, ◌^◌, eqb};
ghost use Rattle.language.specs.Decode.{digits_before, node_of, number_at};
ghost use Rattle.language.specs.Description as D;
ghost use Rattle.language.specs.Description.{in_bounds};
ghost use Rattle.language.specs.Value.{Value};
ghost use Rattle.language.specs.Encode.{node_size};
ghost use Rattle.store_geometry.specs.Shapes.{bounds_meant};

use image_records::{numbers, record_sizes};
use store_geometry::bounds;
use store_geometry::bounds::Bounds;

// The digit in record n.
fn digit(exprs: &[u8], n: u16) -> u64
    ensures { (result ≡ number_at 6 (node_size * n + 2) exprs.now) × (result < 2 ^ 48) }
{
    numbers::six(exprs, record_sizes::NODE * n as usize + 2)
}

// Whether the k records before record n hold nothing but zeros.
fn digits_zero(exprs: &[u8], n: u16, k: u16) -> bool
    ensures { result ≡ eqb (digits_before k n exprs.now) 0 }
{
    (n.saturating_sub(k)..n).all(|m| digit(exprs, m) == 0)
}

// Whether the constant that ends at record n lies within bounds.
pub fn within(exprs: &[u8], n: u16, b: Bounds) -> bool
    ensures { (v : Value) → node_of exprs.now n ≡ D.constant v → result ≡ in_bounds (bounds_meant b) v.number }
{
    let more = numbers::byte(exprs, record_sizes::NODE * n as usize + 1) / 48;
    digits_zero(exprs, n, u16::from(more)) && bounds::in_bounds(b, digit(exprs, n))
}

// Whether the constant that ends at record n after k more has the number 0.
pub fn number_zero(exprs: &[u8], n: u16, k: u8) -> bool
    ensures { result ≡ eqb (number_at 6 (node_size * n + 2) exprs.now + digits_before k n exprs.now) 0 }
{
    digit(exprs, n) == 0 && digits_zero(exprs, n, u16::from(k))
}

// Whether two constants have the same number: the one that ends at record n after k more, the other at record m after j more.
pub fn same_number(exprs: &[u8], n: u16, k: u8, m: u16, j: u8) -> bool
    ensures { result ≡ eqb (number_at 6 (node_size * n + 2) exprs.now + digits_before k n exprs.now) (number_at 6 (node_size * m + 2) exprs.now + digits_before j m exprs.now) }
{
    // Most numbers differ in their lowest digit.
    if digit(exprs, n) != digit(exprs, m) {
        return false;
    }
    let (k, j) = (u16::from(k), u16::from(j));
    let shared = k.min(n).min(j).min(m);
    for d in 0..=shared {
        if digit(exprs, n - d) != digit(exprs, m - d) {
            return false;
        }
    }
    digits_zero(exprs, n - shared, k - shared) && digits_zero(exprs, m - shared, j - shared)
}
