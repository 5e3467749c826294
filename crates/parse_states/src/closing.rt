// A state added to its tables, with its label.
ghost use Rattle.std.specs.Prelude.{◌≡◌, ◌-◌, ◌<◌};
ghost use Rattle.parse_states.specs.Written.{Closed};

use crate::Head;
use image_sections::runs::Run;
use parse_array::Work;
use parse_tables::{Table, names, states};

// The action records from one on, before another.
pub fn run(first: u16, end: u16) -> Run
    ensures { result ≡ record { first = first; count = end - first } }
{
    Run {
        first,
        count: end.saturating_sub(first),
    }
}

// Adds state n; its label's word is at its place.
pub fn close(work: &mut Work, n: u16, x: Head, actions: Run)
    ensures { n < 256 → Closed n x actions work.old work.new }
{
    names::add_name(work, Table::Labels, n, x.at, x.size);
    states::add_state(work, n, x.at, x.size, x.value, x.spot, actions);
}
