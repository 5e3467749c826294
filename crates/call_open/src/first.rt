// The first state is entered, in a store and a record that are zero.
ghost use Rattle.std.specs.Prelude.{true, ◌≡◌, ◌≤◌, length};
ghost use Rattle.language.specs.Calls.{open_words};
ghost use Rattle.language.specs.Decode.{decode};
ghost use Rattle.language.specs.Description.{Description};
ghost use Rattle.language.specs.Image.{passes};
ghost use Rattle.language.specs.Layout.{store_size};
ghost use Rattle.language.specs.Reading.{filled, zeroes};
ghost use Rattle.language.specs.RecordBytes.{record_bytes, record_size};
ghost use Rattle.language.specs.Step.{open_record};
ghost use Rattle.language.specs.Store.{to_bytes};
ghost use Rattle.run_next.specs.Seen.{record_meant};

use image_sections::sections::Sections;
use language::ceilings;
use run_end::register;
use run_next::record::Record;
use run_soundness::{record, sizes};

// The sequencing register takes the first state's value.
pub fn first_words(image: &[u8], store: &mut [u8])
    requires { (passes image.now ≡ true) × (store_size (decode image.now) ≤ length store.old) }
    ensures { store.old ≡ zeroes (length store.old) → store.new ≡ filled (length store.old) (to_bytes (decode image.now).facilities (open_words (decode image.now))) }
{
    let sections = Sections::of(image);
    let size = sizes::store_size(sections.facilities);
    register::set_register(&sections, &mut store[0..size], 0);
}

// State 0, cycle 0, no returns.
fn at_first() -> Record
    ensures { (d : Description) → record_meant result ≡ open_record d }
{
    let none = [0u32; ceilings::RETURNS];
    Record {
        state: 0,
        cycle: 0,
        held: 0,
        returns: none,
    }
}

// The record has its mark.
pub fn first_record(bytes: &mut [u8])
    ensures { (d : Description) → bytes.old ≡ zeroes (length bytes.old) → record_size ≤ length bytes.old → bytes.new ≡ filled (length bytes.old) (record_bytes (open_record d)) }
{
    record::write_record(bytes, at_first());
}
