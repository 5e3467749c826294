// Constants: a record holds 48 bits, and those of a wide one stand in the records before it, the highest first.
ghost use Rattle.std.specs.Prelude.{◌≡◌, ◌*◌, ◌^◌, ◌≤◌, ltb, length};
ghost use Rattle.language.specs.Decode.{digits_marked, node_of};
ghost use Rattle.language.specs.Description as D;
ghost use Rattle.language.specs.Description.{further_digits};
ghost use Rattle.language.specs.Encode.{node_size};
ghost use Rattle.language.specs.Value as L;

use crate::{marks, numbers, record_sizes};

// Whether the k records before record n are marked as further digits. It is compiled by itself, so that a record is read where it is used.
#[inline(never)]
fn all_marked(exprs: &[u8], n: usize, k: u8) -> bool
    requires { node_size * n ≤ length exprs.now }
    ensures { result ≡ digits_marked k n exprs.now }
{
    for i in 0..k as usize {
        if n <= i || exprs[record_sizes::NODE * (n - i - 1)] != marks::MORE {
            return false;
        }
    }
    true
}

// The same: most constants have none.
pub fn digits_marked(exprs: &[u8], n: usize, k: u8) -> bool
    requires { node_size * n ≤ length exprs.now }
    ensures { result ≡ digits_marked k n exprs.now }
{
    k == 0 || all_marked(exprs, n, k)
}

// How many records a constant of l bits has before its own.
#[tactic(auto, unfolding(language::specs::Description::further_digits, language::specs::Description::digit_length))]
pub fn further_digits(l: u16) -> u16
    ensures { result ≡ further_digits l }
{
    l.saturating_sub(1) / 48
}

// Whether the number of a constant that ends at record n fits its length: its highest digit does.
pub fn constant_fits(exprs: &[u8], n: usize) -> bool
    ensures { (v : L.Value) → node_of exprs.now n ≡ D.constant v → result ≡ ltb v.number (2 ^ v.length) }
{
    if exprs.len() / record_sizes::NODE <= n {
        return true;
    }
    let x = exprs[record_sizes::NODE * n + 1];
    let more = (x / 48) as usize;
    if n < more {
        return true;
    }
    let highest = numbers::six_there(exprs, record_sizes::NODE * (n - more) + 2);
    highest < 1 << (x % 48 + 1)
}
