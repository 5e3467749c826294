// Parts of a text, wherever they end: past the end of the text there is nothing.
ghost use Rattle.std.specs.Prelude.{◌≡◌, take, drop, get_or};

// The byte at a place, and 0 past the end.
pub fn byte(text: &[u8], at: usize) -> u8
    ensures { result ≡ get_or text.now at 0 }
{
    text.get(at).copied().unwrap_or(0)
}

// The first n bytes.
pub fn first(text: &[u8], n: usize) -> &[u8]
    ensures { result.now ≡ take n text.now }
{
    &text[..n.min(text.len())]
}

// What follows the first n bytes.
pub fn rest(text: &[u8], n: usize) -> &[u8]
    ensures { result.now ≡ drop n text.now }
{
    &text[n.min(text.len())..]
}
