// Some bytes in the middle of a slice, cleared.
ghost use Rattle.std.specs.Prelude.{◌≡◌, replicate};
ghost use Rattle.image_records.specs.Placed.{placed};

use store_words::slices;

// n bytes from `at` on are zero, where the slice has them.
pub fn clear(s: &mut [u8], at: usize, n: usize)
    ensures { s.new ≡ placed s.old at (replicate n 0) }
{
    if s.len() < at || s.len() - at < n {
        return;
    }
    let end = at + n;
    slices::zero(&mut s[at..end]);
}
