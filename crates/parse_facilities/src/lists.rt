// Lists of declarations: separated by commas, and ended by a period or END.
ghost use Rattle.parse_facilities.specs.Lists.{Ends, Listing, Lists, Mores, Ones, Stands, memories, registers};

use crate::{Progress, stored};
use image_sections::facilities::FacilityKind;
use language::refusals::Refusal;
use parse_array::Work;
use parse_step::{Bearing, State, Unread, kinds, taking};
use text_words::Word;

// A list of declarations in a section: which it is, and how one of them is read.
pub trait List {
    ghost listing: { Listing };

    fn one(text: &[u8], w: Word, work: &mut Work, s: State, place: u16) -> Result<Progress, Unread>
        ensures { Ones listing text.now w s place work.old work.new result };
}

// Registers, and the sequencing register.
#[derive(Clone, Copy)]
pub struct RegisterList;

impl List for RegisterList {
    ghost listing = { registers };

    fn one(
        text: &[u8],
        w: Word,
        work: &mut Work,
        s: State,
        place: u16,
    ) -> Result<Progress, Unread> {
        stored::register(text, w, work, s, place)
    }
}

#[derive(Clone, Copy)]
pub struct MemoryList;

impl List for MemoryList {
    ghost listing = { memories };

    fn one(
        text: &[u8],
        w: Word,
        work: &mut Work,
        s: State,
        place: u16,
    ) -> Result<Progress, Unread> {
        stored::stored(text, w, work, s, place, FacilityKind::Memory)
    }
}

// The end of a list, where no comma follows.
fn ended(text: &[u8], w: Word, s: State, place: u16) -> Result<Progress, Unread>
    ensures { Ends text.now w s place result }
{
    let kind = kinds::kind_of(w);
    if kind != language::kinds::PERIOD && kind != language::kinds::END {
        return taking::refuse(w, Refusal::NoContinuation);
    }
    let reached = taking::take(text, w, s, false, Bearing::Level)?;
    Ok(Progress { reached, place })
}

// Reads a list of declarations and the word that ends it.
pub fn declarations<L: List>(
    text: &[u8],
    w: Word,
    work: &mut Work,
    s: State,
    place: u16,
) -> Result<Progress, Unread>
    requires { Stands text.now place w s work.old }
    ensures { Lists L.listing text.now w s place work.old work.new result }
{
    let first = L::one(text, w, work, s, place)?;
    more::<L>(text, first, work)
}

// Behind a declaration: others, and the end. Each counts a facility, so that there are not too many.
fn more<L: List>(text: &[u8], first: Progress, work: &mut Work) -> Result<Progress, Unread>
    requires { Stands text.now first.place first.reached.next first.reached.state work.old }
    ensures { Mores L.listing text.now first.reached.next first.reached.state first.place work.old work.new result }
{
    let mut last = first;
    while kinds::kind_of(last.reached.next) == language::kinds::COMMA {
        let at = last.reached;
        let comma = taking::take(text, at.next, at.state, false, Bearing::Level)?;
        last = L::one(text, comma.next, work, comma.state, last.place)?;
    }
    ended(text, last.reached.next, last.reached.state, last.place)
}
