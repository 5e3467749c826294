// The cycles of a run that is not refused.
ghost use Rattle.std.specs.Prelude.{List, ◌≡◌, ℕ, ◌≤◌, length};
ghost use Rattle.std.proofs.Math.Option.{none};
ghost use Rattle.language.specs.Calls as L;
ghost use Rattle.language.specs.Calls.{run_refusal};
ghost use Rattle.language.specs.Decode.{decode};
ghost use Rattle.language.specs.Layout.{store_size};
ghost use Rattle.language.specs.Reading.{zeroes};
ghost use Rattle.run_next.specs.Seen.{record_meant};
ghost use Rattle.call_answers.specs.Run.{tallied};
ghost use Rattle.run_left.specs.Kept.{kept_record};
ghost use Rattle.call_stimuli.specs.Lent.{Lent, SomeLent};

use call_answers::ran::Tally;
use image_records::bytes;
use image_sections::sections;
use image_sections::sections::Sections;
use language::ceilings;
use language::stops::Stop;
use run_advance::carried;
use run_begin::formed;
use run_next::record::Record;
use run_references::worth::Halted;
use run_soundness::{record, sizes};
use store_words::slices;

// Bytes of a store for which small arrays do.
const SMALL: usize = 1024;

// A run so far, and the record that it has come to.
#[derive(Clone, Copy)]
struct CarriedOn {
    tally: Tally,
    record: Record,
}

// So many cycles completed, with so many conflicts, and the stop that ended them, if one did.
fn ended(completed: u32, conflicts: u64, stop: Option<Stop>, r: Record) -> CarriedOn
    ensures { result ≡ record { tally = record { completed = completed; conflicts = conflicts; stop = stop }; «record» = r } }
{
    let tally = Tally {
        completed,
        conflicts,
        stop,
    };
    CarriedOn { tally, record: r }
}

// One cycle after the other, each with its own stimulus, until one stops; no later one is refused. The store after each goes to the trace, where there is one.
fn carry_on(
    image: &Sections,
    r: Record,
    store: &mut [u8],
    stimuli: &[u8],
    cycles: u32,
    work: &mut [u8],
    pending: &mut [u8],
    mask: &mut [u8],
    trace: &mut [u8],
) -> CarriedOn
    requires { SomeLent image.now (record_meant r) store.old stimuli.now cycles work.old pending.old mask.old trace.old }
    ensures { (i K : List ℕ) (n : ℕ) → Lent i K n image.now (record_meant r) store.old stimuli.now cycles work.old pending.old mask.old trace.old → tallied result.tally store.new (kept_record result.tally.completed (record_meant result.«record») K) (zeroes n) trace.new ≡ L.run i store.old K stimuli.now cycles n (length trace.old) }
{
    let size = work.len();
    let each = formed::share(stimuli.len(), cycles);
    let mut conflicts: u64 = 0;
    let mut at: usize = 0;
    let mut to: usize = 0;
    let mut reached = r;
    for n in 0..cycles {
        let came = carried::carried(
            image,
            reached,
            store,
            bytes::part(stimuli, at, each),
            work,
            pending,
            mask,
        );
        match came {
            Ok(a) => {
                conflicts += a.conflicts as u64;
                bytes::put(trace, to, bytes::part(store, 0, size));
                at += each;
                to += size;
                reached = a.record;
            }
            Err(Halted::Stopped(stop)) => return ended(n, conflicts, Some(stop), reached),
            Err(Halted::Stuck(_)) => return ended(n, conflicts, None, reached),
        }
    }
    ended(cycles, conflicts, None, reached)
}

// The run that is owed, where nothing is refused and the trace is zero. Delayed stores wait in arrays that have n bytes, as the store has, or more.
fn carry_in(
    image: &[u8],
    store: &mut [u8],
    record: &mut [u8],
    stimuli: &[u8],
    cycles: u32,
    scratch: &mut [u8],
    trace: &mut [u8],
    n: usize,
    pending: &mut [u8],
    mask: &mut [u8],
) -> Tally
    requires { (run_refusal image.now store.old «record».old stimuli.now cycles (length scratch.old) (length trace.old) ≡ none) × (trace.old ≡ zeroes (length trace.old)) × (n ≡ store_size (decode image.now)) × (n ≤ length pending.old) × (n ≤ length mask.old) }
    ensures { tallied result store.new «record».new scratch.new trace.new ≡ L.run image.now store.old «record».old stimuli.now cycles (length scratch.old) (length trace.old) }
{
    let a = carry_on(
        &Sections::of(image),
        record::record_at(record),
        store,
        stimuli,
        cycles,
        &mut scratch[0..n],
        &mut pending[0..n],
        &mut mask[0..n],
        trace,
    );
    slices::zero(scratch);
    let tally = a.tally;
    run_left::note(record, tally.completed, a.record);
    tally
}

// For most stores small arrays do; the large ones have the largest store's size. One slice cannot be lent in three parts at once, so they do not stand in scratch.
pub fn carry_out(
    image: &[u8],
    store: &mut [u8],
    record: &mut [u8],
    stimuli: &[u8],
    cycles: u32,
    scratch: &mut [u8],
    trace: &mut [u8],
) -> Tally
    requires { (run_refusal image.now store.old «record».old stimuli.now cycles (length scratch.old) (length trace.old) ≡ none) × (trace.old ≡ zeroes (length trace.old)) }
    ensures { tallied result store.new «record».new scratch.new trace.new ≡ L.run image.now store.old «record».old stimuli.now cycles (length scratch.old) (length trace.old) }
{
    let n = sizes::store_size(sections::section(image, sections::FACILITIES));
    if n <= SMALL {
        let mut pending = [0u8; SMALL];
        let mut mask = [0u8; SMALL];
        return carry_in(
            image,
            store,
            record,
            stimuli,
            cycles,
            scratch,
            trace,
            n,
            &mut pending,
            &mut mask,
        );
    }
    let mut pending = [0u8; ceilings::STORE];
    let mut mask = [0u8; ceilings::STORE];
    carry_in(
        image,
        store,
        record,
        stimuli,
        cycles,
        scratch,
        trace,
        n,
        &mut pending,
        &mut mask,
    )
}
