// The records of a table, by their numbers. Only these functions know where a table stands.
ghost use Rattle.std.specs.Prelude.{◌≡◌, ◌<◌, ◌≤◌, min, length};
ghost use Rattle.parse_array.specs.Layout.{work_size};
ghost use Rattle.parse_tables.specs.Rows.{Wrote, from, most, size};

use crate::Table;
use image_records::bytes;
use parse_array::{Work, layout};

// Where a table begins.
pub fn begin(table: Table) -> usize
    ensures { (result ≡ from table) × (result ≤ work_size) }
{
    match table {
        Table::Actions => layout::ACTIONS,
        Table::ActionPlaces => layout::ACTION_PLACES,
        Table::Facilities => layout::FACILITIES,
        Table::FacilityPlaces => layout::FACILITY_PLACES,
        Table::Operations => layout::OPERATIONS,
        Table::OperationPlaces => layout::OPERATION_PLACES,
        Table::States => layout::STATES,
        Table::StatePlaces => layout::STATE_PLACES,
        Table::FacilityNames => layout::FACILITY_NAMES,
        Table::OperationNames => layout::OPERATION_NAMES,
        Table::Labels => layout::LABELS,
    }
}

// How many bytes a record has.
pub fn bytes_of(table: Table) -> usize
    ensures { (result ≡ size table) × (result ≤ 13) }
{
    match table {
        Table::Actions => layout::ACTION_SIZE,
        Table::ActionPlaces => layout::ACTION_BESIDE,
        Table::Facilities => layout::FACILITY_SIZE,
        Table::FacilityPlaces => layout::FACILITY_BESIDE,
        Table::Operations => layout::OPERATION_SIZE,
        Table::OperationPlaces => layout::OPERATION_BESIDE,
        Table::States => layout::STATE_SIZE,
        Table::StatePlaces => layout::STATE_BESIDE,
        Table::FacilityNames => layout::NAME_SIZE,
        Table::OperationNames => layout::NAME_SIZE,
        Table::Labels => layout::NAME_SIZE,
    }
}

// How many records there is room for.
fn room(table: Table) -> u16
    ensures { result ≡ most table }
{
    match table {
        Table::Actions => layout::MOST_ACTIONS,
        Table::ActionPlaces => layout::MOST_ACTIONS,
        Table::Facilities => layout::MOST_FACILITIES,
        Table::FacilityPlaces => layout::MOST_FACILITIES,
        Table::Operations => layout::MOST_OPERATIONS,
        Table::OperationPlaces => layout::MOST_OPERATIONS,
        Table::States => layout::MOST_STATES,
        Table::StatePlaces => layout::MOST_STATES,
        Table::FacilityNames => layout::MOST_FACILITIES,
        Table::OperationNames => layout::MOST_OPERATIONS,
        Table::Labels => layout::MOST_STATES,
    }
}

// How many of n records a table holds.
pub fn held(table: Table, n: u16) -> u16
    ensures { result ≡ min n (most table) }
{
    let most = room(table);
    if n < most { n } else { most }
}

// Writes record n of a table.
pub fn write(work: &mut Work, table: Table, n: u16, row: &[u8])
    ensures { length row.now ≡ size table → n < most table → Wrote table n row.now work.old work.new }
{
    let s: &mut [u8] = work;
    let at = begin(table) + bytes_of(table) * n as usize;
    bytes::put(s, at, row);
}
