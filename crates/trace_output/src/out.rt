// Text that grows in a buffer: what stands before `at` is written. Where there is no room, nothing more is.
ghost use Rattle.std.specs.Prelude.{[], ◌∷◌, ◌≡◌, ◌≤◌, drop, length};
ghost use Rattle.language.specs.Trace.{decimal as in_decimal};
ghost use Rattle.trace_output.specs.Adds.{Adds};

use image_records::bytes;

// One byte more.
pub fn push(out: &mut [u8], at: usize, b: u8) -> usize
    ensures { Adds (b ∷ []) out.old at out.new result }
{
    if at < out.len() {
        out[at] = b;
        return at + 1;
    }
    at
}

// All bytes of a slice.
pub fn append(out: &mut [u8], at: usize, bytes: &[u8]) -> usize
    ensures { Adds bytes.now out.old at out.new result }
{
    let mut end = at;
    for b in bytes {
        end = push(out, end, *b);
    }
    end
}

// The digits of a number, at the end of the buffer: where they begin.
fn digits(last: &mut [u8; 20], n: u64) -> usize
    ensures { (result ≤ 20) × (length last.new ≡ 20) × (drop result last.new ≡ in_decimal n) }
{
    let mut left = n;
    for at in (0..20).rev() {
        last[at] = (left % 10) as u8 + b'0';
        left /= 10;
        if left == 0 {
            return at;
        }
    }
    0
}

// A number in decimal.
pub fn decimal(out: &mut [u8], at: usize, n: u64) -> usize
    ensures { Adds (in_decimal n) out.old at out.new result }
{
    let mut last = [0u8; 20];
    let from = digits(&mut last, n);
    append(out, at, bytes::part(&last, from, 20))
}
