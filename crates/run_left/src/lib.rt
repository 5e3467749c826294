// What a cycle leaves of store, record and scratch, by how it ended.
#![tactic(auto)]

ghost use Rattle.std.specs.Prelude.{◌≡◌, ◌≤◌, length};
ghost use Rattle.run_next.specs.Seen.{record_meant};
ghost use Rattle.run_left.specs.Kept.{kept, kept_record, kept_store};

use run_end::outcome::Ended;
use run_next::record::Record;
use run_soundness::record;
use store_words::slices;

// A completed cycle's working copy, kept; of any other cycle nothing is.
pub fn keep_store(ended: &Ended, work: &[u8], store: &mut [u8])
    ensures { store.new ≡ kept_store ended.now work.now store.old }
{
    match ended {
        Ok(_) => slices::copy(store, work),
        Err(_) => {}
    }
}

// The record after a cycle from r that ended so.
pub fn keep_record(r: Record, ended: &Ended) -> Record
    ensures { result ≡ kept ended.now r }
{
    match ended {
        Ok(s) => s.record,
        Err(_) => r,
    }
}

// The record of a run with completed cycles is written.
pub fn note(record: &mut [u8], completed: u32, r: Record)
    ensures { 80 ≤ length «record».old → «record».new ≡ kept_record completed (record_meant r) «record».old }
{
    if 0 < completed {
        record::write_record(record, r);
    }
}
