// A run of action records.
ghost use Rattle.std.specs.Prelude.{◌≡◌, ◌+◌, ◌≤◌, length};
ghost use Rattle.language.specs.Decode.{run_at};
ghost use Rattle.image_sections.specs.Declarations.{run_meant};

use image_records::numbers;

#[derive(Clone, Copy)]
pub struct Run {
    pub first: u16,
    pub count: u16,
}

// The run at a place of a section.
pub fn run_at(s: &[u8], at: usize) -> Run
    requires { at + 4 ≤ length s.now }
    ensures { run_meant result ≡ run_at at s.now }
{
    Run {
        first: numbers::two_there(s, at),
        count: numbers::two_there(s, at + 2),
    }
}
