// A cycle that is not refused: on the caller's store, from sections of the image and a record by value.
ghost use Rattle.std.specs.Prelude.{List, ◌≡◌, ℕ, ◌/◌, ◌≤◌, length};
ghost use Rattle.std.proofs.Math.Option.{none};
ghost use Rattle.language.specs.Calls.{cycle, cycle_refusal};
ghost use Rattle.language.specs.Decode.{decode};
ghost use Rattle.language.specs.Layout.{store_size};
ghost use Rattle.language.specs.RecordBytes.{record_from};
ghost use Rattle.run_next.specs.Seen.{record_meant};
ghost use Rattle.run_left.specs.Kept.{called};
ghost use Rattle.run_advance.specs.Carried.{Sliced, completed_back};
ghost use Rattle.language.specs.Encode.{facility_size, state_size};

use crate::advance;
use image_sections::sections::Sections;
use run_end::outcome::{Ended, Stepped};
use run_next::record::Record;
use store_words::slices;

// The cycle on a working copy, with as many bytes as the store has for the copy, for delayed stores that wait, and for their mask. A completed cycle's answer has the record that stands where it was lent.
pub fn carried(
    image: &Sections,
    r: Record,
    store: &mut [u8],
    stimulus: &[u8],
    work: &mut [u8],
    pending: &mut [u8],
    mask: &mut [u8],
) -> Ended
    requires { (length image.now.facilities.now / facility_size ≤ 65536) × (length image.now.states.now / state_size ≤ 65536) × (r.held ≤ 16) }
    ensures { (i K : List ℕ) (n : ℕ) → Sliced i image.now → record_from K ≡ record_meant r → length work.old ≡ store_size (decode i) → length pending.old ≡ store_size (decode i) → length mask.old ≡ store_size (decode i) → cycle_refusal i store.old K stimulus.now n ≡ none → (called result store.new K n ≡ cycle i store.old K stimulus.now n) × completed_back result }
{
    slices::copy(work, store);
    slices::zero(mask);
    let (record, ended) = advance::lent(image, r, stimulus, work, pending, mask);
    run_left::keep_store(&ended, work, store);
    let s = ended?;
    Ok(Stepped {
        record,
        conflicts: s.conflicts,
    })
}
