// Operations: a record, the place of the name, and the name.
ghost use Rattle.std.specs.Prelude.{◌≡◌, ◌<◌, length};
ghost use Rattle.image_sections.specs.Declarations.{run_meant};
ghost use Rattle.language.specs.Encode.{operation_record};
ghost use Rattle.language.specs.Tree.{Name};
ghost use Rattle.parse_array.specs.Layout.{operation_rows};
ghost use Rattle.parse_tables.specs.Operations.{OperationAdded};

use crate::{Table, names, places, rows};
use image_records::record_sizes;
use image_sections::operations;
use image_sections::operations::OperationRecord;
use image_sections::runs::Run;
use parse_array::Work;
use text_words::Position;

// The bytes of a record.
fn operation_row(size: usize, body: Run) -> [u8; record_sizes::OPERATION]
    ensures { (name : Name) → length name ≡ size → result ≡ operation_record (record { name = name; body = run_meant body }) }
{
    let name = (size % 256) as u8;
    let o = OperationRecord { name, body };
    operations::operation_bytes(o)
}

// Adds operation n, whose name is given by its place and size.
pub fn add_operation(work: &mut Work, n: u16, at: Position, size: usize, body: Run)
    ensures { n < operation_rows → OperationAdded n at size body work.old work.new }
{
    rows::write(work, Table::Operations, n, &operation_row(size, body));
    rows::write(work, Table::OperationPlaces, n, &places::place_row(at));
    names::add_name(work, Table::OperationNames, n, at, size);
}
