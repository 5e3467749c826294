// A line of standard input, byte by byte.
ghost use Rattle.std.specs.Prelude.{List, [], ◌∷◌, ◌++◌, ◌≡◌, ℕ, ◌≤◌, length};
ghost use Rattle.language.specs.Characters.{line_feed};
ghost use Rattle.trace_input.specs.Lines.{Held, without_return};

use language::ceilings;

// Room for a line that is longer than every stimulus, which has no more bits than a store, and for the CR before its LF.
pub const LINE: usize = 8 * ceilings::STORE + 2;

// One byte more of a line; what there is no room for is left out.
pub fn put(line: &mut [u8], n: usize, b: u8) -> usize
    requires { n ≤ length line.old }
    ensures { (result ≤ length line.new) × ((l : List ℕ) → (b ≡ line_feed → ⊥) → Held l line.old n → Held (l ++ b ∷ []) line.new result) }
{
    if n < line.len() {
        line[n] = b;
        return n + 1;
    }
    n
}

// A line that an LF ends, without the CR before it.
pub fn without_return(line: &[u8]) -> &[u8]
    ensures { result.now ≡ without_return line.now }
{
    let n = line.len();
    if n == 0 {
        return line;
    }
    let last = n - 1;
    if line[last] == b'\r' {
        return &line[0..last];
    }
    line
}
