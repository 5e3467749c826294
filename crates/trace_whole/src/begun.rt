// A text is read and opened, or refused.
ghost use Rattle.std.specs.Prelude.{◌≡◌, ◌≤◌, true, length};
ghost use Rattle.language.specs.Image.{passes};
ghost use Rattle.language.specs.RecordBytes.{record_size};
ghost use Rattle.trace_whole.specs.Begins.{Begins, Opened, image_room};

use image_sections::sections;
use run_soundness::sizes;
use trace_output::line;

// Room for the image of every legal text (docs/IMAGE.md), and for what is printed of a text that is refused.
pub const IMAGE: usize = 165556;

pub const REFUSED: usize = 50;

// How many bytes the image of a legal text and its store have.
#[derive(Clone, Copy)]
pub struct Begun {
    pub image: usize,
    pub store: usize,
}

// The store that an image has, and store and record at its first state.
fn opened(image: &[u8], store: &mut [u8], record: &mut [u8]) -> usize
    requires { (passes image.now ≡ true) × (16384 ≤ length store.old) }
    ensures { Opened image.now (length «record».old) result (length store.old) store.new «record».new }
{
    let size = sizes::store_size(sections::section(image, sections::FACILITIES));
    // The image passes, and its store has room.
    let _ = call_open::open::open(image, true, &mut store[0..size], record);
    size
}

// A text that is legal is opened; of any other the refusal is added to an empty output, which ends where the error says.
pub fn begin_run(
    text: &[u8],
    image: &mut [u8],
    store: &mut [u8],
    record: &mut [u8],
    out: &mut [u8],
) -> Result<Begun, usize>
    requires { (image_room ≤ length image.old) × (16384 ≤ length store.old) × (length «record».old ≡ record_size) }
    ensures { Begins text.now (length store.old) result image.new store.new «record».new out.old out.new }
{
    match call_read::read(text, image) {
        Err(e) => Err(line::refusal(out, 0, u8::from(e.refusal) as u64, e.place as u64)),
        Ok(n) => {
            let size = opened(&image[0..n], store, record);
            Ok(Begun {
                image: n,
                store: size,
            })
        }
    }
}
