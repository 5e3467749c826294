// The image of what the working array holds.
ghost use Rattle.std.specs.Prelude.{◌≡◌, length};
ghost use Rattle.call_answers.specs.Reading.{called};
ghost use Rattle.language.specs.Encode.{image_of};
ghost use Rattle.language.specs.Reading.{with_room};
ghost use Rattle.parse_held.specs.Sections.{Few, sections_held};

use call_answers::read::Refused;
use image_sections::header;
use language::refusals::Refusal;
use parse_array::Work;
use parse_held::{Holding, body, counts, names};
use store_words::slices;

// Writes the image, and zero behind it; where there is no room, zero alone.
pub fn write_image(text: &[u8], work: &Work, c: Holding, image: &mut [u8]) -> Result<usize, Refused>
    ensures { Few c → called result image.new ≡ with_room (length image.old) (image_of (sections_held text.now work.now c)) }
{
    let s: &[u8] = work;
    slices::zero(image);
    let few = counts::within(c);
    let from = counts::names_from(few);
    let n = names::count(text, work, few);
    if image.len() < from + n {
        return Err(Refused {
            refusal: Refusal::BufferTooShort,
            place: 0,
        });
    }
    header::write_header(image, counts::header_counts(few, n as u32));
    body::put(image, s, few);
    names::put(image, from, text, work, few);
    Ok(from + n)
}
