// The sections of records: parts of the array, and as they stand in an image.
ghost use Rattle.std.specs.Prelude.{List, ◌++◌, ◌≡◌, ℕ, ◌≤◌, length};
ghost use Rattle.image_sections.specs.Header.{names_from};
ghost use Rattle.language.specs.Reading.{filled};
ghost use Rattle.parse_tables.specs.Rows as R;
ghost use Rattle.parse_array.specs.Held.{held};
ghost use Rattle.parse_array.specs.Layout.{work_size};
ghost use Rattle.parse_held.specs.Sections.{Few, counts_held, records_held};

use crate::Holding;
use image_records::{bytes, record_sizes};
use parse_array::layout::{NODE_BESIDE, NODE_PLACES};
use parse_tables::{Table, rows};

// The first n records of a table.
pub fn rows_of(work: &[u8], table: Table, n: u16) -> &[u8]
    ensures { result.now ≡ R.rows table n work.now }
{
    bytes::part(work, rows::begin(table), rows::bytes_of(table) * n as usize)
}

// The first n expressions.
#[tactic(auto, unfolding(parse_array::specs::Held::held))]
pub fn nodes_of(work: &[u8], n: u16) -> &[u8]
    ensures { result.now ≡ (held n work.now).nodes }
{
    bytes::part(work, 0, record_sizes::NODE * n as usize)
}

// The places beside them.
#[tactic(auto, unfolding(parse_array::specs::Held::held))]
pub fn node_places_of(work: &[u8], n: u16) -> &[u8]
    ensures { result.now ≡ (held n work.now).places }
{
    bytes::part(work, NODE_PLACES, NODE_BESIDE * n as usize)
}

// Writes the sections behind the header.
pub fn put(image: &mut [u8], work: &[u8], c: Holding)
    ensures { (p : List ℕ) → length work.now ≡ work_size → Few c → length p ≡ 52 → image.old ≡ filled (length image.old) p → names_from (counts_held c 0) ≤ length image.old → image.new ≡ filled (length image.old) (p ++ records_held work.now c) }
{
    let operations = record_sizes::HEADER + record_sizes::FACILITY * c.facilities as usize;
    let expressions = operations + record_sizes::OPERATION * c.operations as usize;
    let actions = expressions + record_sizes::NODE * c.nodes as usize;
    let states = actions + record_sizes::ACTION * c.actions as usize;
    bytes::put(
        image,
        record_sizes::HEADER,
        rows_of(work, Table::Facilities, c.facilities),
    );
    bytes::put(
        image,
        operations,
        rows_of(work, Table::Operations, c.operations),
    );
    bytes::put(image, expressions, nodes_of(work, c.nodes));
    bytes::put(image, actions, rows_of(work, Table::Actions, c.actions));
    bytes::put(image, states, rows_of(work, Table::States, c.states));
}
