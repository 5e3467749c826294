// States: a record, and the places of its first word and its value. Labels have a table of their own.
ghost use Rattle.std.specs.Prelude.{◌≡◌, ◌<◌, length};
ghost use Rattle.image_sections.specs.Declarations.{run_meant, value_meant};
ghost use Rattle.language.specs.Encode.{state_record};
ghost use Rattle.language.specs.Tree.{Name};
ghost use Rattle.judge_records.specs.Noted.{state_beside_bytes};
ghost use Rattle.text_words.specs.Meaning.{positioned};
ghost use Rattle.parse_array.specs.Layout.{state_rows};
ghost use Rattle.parse_tables.specs.States.{StateAdded};

use crate::{Table, places, rows};
use image_records::record_sizes;
use image_sections::runs::Run;
use image_sections::states;
use image_sections::states::StateRecord;
use parse_array::Work;
use text_words::Position;

// The bytes of a record.
fn state_row(size: usize, value: Option<u16>, actions: Run) -> [u8; record_sizes::STATE]
    ensures { (name : Name) → length name ≡ size → result ≡ state_record (record { name = name; value = value_meant value; actions = run_meant actions }) }
{
    let name = (size % 256) as u8;
    let s = StateRecord {
        name,
        value,
        actions,
    };
    states::state_bytes(s)
}

// The bytes of the places beside it.
fn state_beside(at: Position, value: Position) -> [u8; 4]
    ensures { result ≡ state_beside_bytes (record { at = positioned at; value = positioned value }) }
{
    let [p0, p1] = places::place_row(at);
    let [q0, q1] = places::place_row(value);
    [p0, p1, q0, q1]
}

// Adds state n, whose label has `size` bytes and whose value stands at `spot`.
pub fn add_state(
    work: &mut Work,
    n: u16,
    at: Position,
    size: usize,
    value: Option<u16>,
    spot: Position,
    actions: Run,
)
    ensures { n < state_rows → StateAdded n (positioned at) size (value_meant value) (positioned spot) (run_meant actions) work.old work.new }
{
    rows::write(work, Table::States, n, &state_row(size, value, actions));
    rows::write(work, Table::StatePlaces, n, &state_beside(at, spot));
}
