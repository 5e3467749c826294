// Whole slices: all zero, and copied.
ghost use Rattle.std.specs.Prelude.{◌≡◌, length, replicate};
ghost use Rattle.store_layout.specs.Slices.{copied};

// Every byte zero.
pub fn zero(s: &mut [u8])
    ensures { s.new ≡ replicate (length s.old) 0 }
{
    s.fill(0);
}

// The bytes of `source` onto the first of s, as many as both have.
pub fn copy(s: &mut [u8], source: &[u8])
    ensures { s.new ≡ copied s.old source.now }
{
    // Byte by byte: copied whole, it would be a call of memmove, which the archive for C needs for nothing else.
    for i in 0..s.len().min(source.len()) {
        s[i] = source[i];
    }
}
