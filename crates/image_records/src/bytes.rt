// Bytes at a place: compared, and written.
ghost use Rattle.std.specs.Prelude.{◌≡◌, length, take, drop};
ghost use Rattle.language.specs.Scan as L;
ghost use Rattle.image_records.specs.Placed.{placed};

// n bytes from a place on, as far as there are any.
pub fn part(s: &[u8], at: usize, n: usize) -> &[u8]
    ensures { result.now ≡ take n (drop at s.now) }
{
    let rest = &s[at.min(s.len())..];
    &rest[..n.min(rest.len())]
}

// Whether two rows of bytes are the same.
pub fn same(s: &[u8], t: &[u8]) -> bool
    ensures { result ≡ L.same s.now t.now }
{
    s == t
}

// Whether these bytes stand at a place.
pub fn stand(s: &[u8], at: usize, bytes: &[u8]) -> bool
    ensures { result ≡ L.same (take (length bytes.now) (drop at s.now)) bytes.now }
{
    same(part(s, at, bytes.len()), bytes)
}

// Writes bytes at a place; nothing where they do not fit.
pub fn put(s: &mut [u8], at: usize, bytes: &[u8])
    ensures { s.new ≡ placed s.old at bytes.now }
{
    if at <= s.len() && bytes.len() <= s.len() - at {
        // Byte by byte: copied whole, it would be a call of memmove, which the archive for C needs for nothing else.
        for i in 0..bytes.len() {
            s[at + i] = bytes[i];
        }
    }
}
