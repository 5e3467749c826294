// Opening: the tests in their order, and every byte of both buffers, where it is known whether the image passes.
ghost use Rattle.std.specs.Prelude.{true, ◌≡◌, leb, length};
ghost use Rattle.language.specs.Calls.{open'};
ghost use Rattle.language.specs.Decode.{decode};
ghost use Rattle.language.specs.Image as L;
ghost use Rattle.language.specs.Layout.{store_size};
ghost use Rattle.language.specs.RecordBytes.{record_size};
ghost use Rattle.call_answers.specs.Opening.{called};
ghost use Rattle.language.specs.Tests.{both};

use crate::first;
use image_sections::sections;
use language::ceilings;
use language::refusals::Refusal;
use run_soundness::sizes;
use store_words::slices;

// Whether so many bytes of store and record are enough for an image that passes.
fn roomy(image: &[u8], store: usize, kept: usize) -> bool
    requires { L.passes image.now ≡ true }
    ensures { result ≡ both (leb (store_size (decode image.now)) store) (leb record_size kept) }
{
    let size = sizes::store_size(sections::section(image, sections::FACILITIES));
    size <= store && ceilings::RECORD <= kept
}

// Store and record are zero, but on success for the first state's part of them.
pub fn open(image: &[u8], passed: bool, store: &mut [u8], kept: &mut [u8]) -> Result<(), Refusal>
    requires { passed ≡ L.passes image.now }
    ensures { called result store.new kept.new ≡ open' image.now (length store.old) (length kept.old) }
{
    slices::zero(store);
    slices::zero(kept);
    if !passed {
        return Err(Refusal::ImageFails);
    }
    if !roomy(image, store.len(), kept.len()) {
        return Err(Refusal::BufferTooShort);
    }
    first::first_words(image, store);
    first::first_record(kept);
    Ok(())
}
