// The names of facilities, operations and states, one behind the other.
ghost use Rattle.std.specs.Prelude.{List, ◌++◌, ◌≡◌, ℕ, ◌+◌, ◌*◌, ◌≤◌, length};
ghost use Rattle.language.specs.Reading.{filled};
ghost use Rattle.parse_held.specs.Sections.{names_held};

use crate::{Holding, letters};
use parse_array::Work;
use parse_tables::Table;

// How many letters they have.
pub fn count(text: &[u8], work: &Work, c: Holding) -> usize
    ensures { (result ≡ length (names_held text.now work.now c)) × (result ≤ 65535 * (c.facilities + (c.operations + c.states))) }
{
    let f = letters::count(text, work, Table::FacilityNames, c.facilities);
    let o = letters::count(text, work, Table::OperationNames, c.operations);
    let s = letters::count(text, work, Table::Labels, c.states);
    f + (o + s)
}

// Writes them behind what a buffer holds, where they fit.
pub fn put(image: &mut [u8], at: usize, text: &[u8], work: &Work, c: Holding)
    requires { at ≤ 0xffffffff }
    ensures { (p : List ℕ) → length p ≡ at → image.old ≡ filled (length image.old) p → at + length (names_held text.now work.now c) ≤ length image.old → image.new ≡ filled (length image.old) (p ++ names_held text.now work.now c) }
{
    let o = letters::put(image, at, text, work, Table::FacilityNames, c.facilities);
    let s = letters::put(image, o, text, work, Table::OperationNames, c.operations);
    letters::put(image, s, text, work, Table::Labels, c.states);
}
