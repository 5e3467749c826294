// Reading a text (01, "Refusal numbers"): its length, its words, its grammar and the rest of the rules, and at last its image.
#![tactic(auto)]

ghost use Rattle.std.specs.Prelude.{◌≡◌, ◌≤◌, length};
ghost use Rattle.language.specs.Reading as L;
ghost use Rattle.language.specs.SectionWays.{parse};
ghost use Rattle.language.specs.WordStage.{scan};
ghost use Rattle.call_answers.specs.Reading.{Short, called};
ghost use Rattle.call_read.specs.Writes.{Writes};

use crate::described::whole;
use crate::judging::judge;
use call_answers::read::Refused;
use parse_array::Work;
use parse_array::layout::WORK_SIZE;
use parse_held::Holding;
use parse_image::whole::write_image;
use parse_step::Unread;
use store_words::slices;
use text_words::{Fault, stage};

mod described;
mod judging;

// A refusal leaves nothing in the buffer.
fn refuse(image: &mut [u8], f: Fault) -> Result<usize, Refused>
    ensures { called result image.new ≡ L.read_refused (length image.old) f.refusal f.at.place }
{
    slices::zero(image);
    Err(Refused {
        refusal: f.refusal,
        place: f.at.place,
    })
}

// The text that the array holds, judged and written.
fn written(text: &[u8], work: &Work, c: Holding, image: &mut [u8]) -> Result<usize, Refused>
    ensures { Writes text.now work.now c (length image.old) (called result image.new) }
{
    let fault = judge(text, work, c);
    match fault {
        Ok(()) => write_image(text, work, c, image),
        Err(f) => refuse(image, f),
    }
}

// A text whose words are right.
fn parsed(text: &[u8], image: &mut [u8]) -> Result<usize, Refused>
    requires { length text.now ≤ 32768 }
    ensures image_after { called result image.new ≡ L.read_call (length image.old) (L.after_grammar (parse (scan text.now).words (length text.now))) }
    ensures short { Short (L.read_call (length image.old) (L.after_grammar (parse (scan text.now).words (length text.now)))).answer }
{
    let mut work = [0u8; WORK_SIZE];
    let outcome = whole::described(text, &mut work);
    match outcome {
        Ok(c) => written(text, &work, c, image),
        Err(Unread::Refused(f)) => refuse(image, f),
        Err(Unread::Full(_)) => unreachable!(
            "a text has no more words than the array has room for"
        ),
    }
}

// Writes the image of a legal text; refuses any other, and a buffer that the image has no room in. Lengths and places have 32 bits, so that a caller may keep them in so many.
pub fn read(text: &[u8], image: &mut [u8]) -> Result<usize, Refused>
    ensures image_after { called result image.new ≡ L.read text.now (length image.old) }
    ensures short { Short (L.read text.now (length image.old)).answer }
{
    let fault = stage::first_fault(text);
    match fault {
        Ok(()) => parsed(text, image),
        Err(f) => refuse(image, f),
    }
}
