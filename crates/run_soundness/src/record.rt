// The run record in its bytes: read, and written.
ghost use Rattle.std.specs.Prelude.{◌≡◌, ◌≤◌, length};
ghost use Rattle.language.specs.Calls.{over};
ghost use Rattle.language.specs.RecordBytes as L;
ghost use Rattle.language.specs.RecordBytes.{fours, record_bytes, record_from, returns_from};
ghost use Rattle.run_next.specs.Seen.{record_meant};
ghost use Rattle.image_records.specs.Placed.{placed};

use image_records::numbers;
use language::ceilings;
use run_next::record::Record;

// The letters DDLP.
const OPEN_MARK: u32 = 0x504c4444;

// Whether the bytes begin with them.
#[tactic(auto, unfolding(language::specs::RecordBytes::marked, language::specs::RecordBytes::open_mark))]
pub fn marked(bytes: &[u8]) -> bool
    ensures { result ≡ L.marked bytes.now }
{
    numbers::four(bytes, 0) == OPEN_MARK
}

// The sixteen return states.
fn returns_at(bytes: &[u8]) -> [u32; ceilings::RETURNS]
    ensures { result ≡ returns_from 16 16 bytes.now }
{
    let mut returns = [0u32; ceilings::RETURNS];
    for (i, x) in returns.iter_mut().enumerate() {
        *x = numbers::four(bytes, 16 + 4 * i);
    }
    returns
}

// The record that its bytes hold; bytes that are not there count 0.
#[tactic(auto, unfolding(language::specs::RecordBytes::record_from, language::specs::Ceilings::most_returns))]
pub fn record_at(bytes: &[u8]) -> Record
    ensures { record_meant result ≡ record_from bytes.now }
{
    Record {
        state: numbers::four(bytes, 4),
        cycle: numbers::four(bytes, 8),
        held: numbers::four(bytes, 12),
        returns: returns_at(bytes),
    }
}

// Writes the return states, where there is room.
fn write_returns(bytes: &mut [u8], returns: [u32; ceilings::RETURNS])
    ensures { 80 ≤ length bytes.old → bytes.new ≡ placed bytes.old 16 (fours returns) }
{
    for (i, x) in returns.iter().enumerate() {
        numbers::write_four(bytes, 16 + 4 * i, *x);
    }
}

// Writes the record in front of what lies beyond it, where there is room.
pub fn write_record(bytes: &mut [u8], r: Record)
    ensures { 80 ≤ length bytes.old → bytes.new ≡ over (record_bytes (record_meant r)) bytes.old }
{
    numbers::write_four(bytes, 0, OPEN_MARK);
    numbers::write_four(bytes, 4, r.state);
    numbers::write_four(bytes, 8, r.cycle);
    numbers::write_four(bytes, 12, r.held);
    write_returns(bytes, r.returns);
}
