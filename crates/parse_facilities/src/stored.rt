// Registers, sequencing registers and memories: a name and its dimensions.
ghost use Rattle.parse_facilities.specs.Declares.{Registers, Stores};

use crate::{Progress, adding, naming};
use image_sections::facilities::FacilityKind;
use parse_array::Work;
use parse_bounds::extents;
use parse_step::{Bearing, State, Unread, kinds, taking};
use parse_tables::facilities::Declared;
use text_words::{Word, places};

// A facility of a kind that is stored, by its name and dimensions.
pub fn stored(
    text: &[u8],
    w: Word,
    work: &mut Work,
    s: State,
    place: u16,
    kind: FacilityKind,
) -> Result<Progress, Unread>
    ensures { Stores text.now w s place kind work.old work.new result }
{
    let named = naming::facility_name(text, w, s)?;
    let measured = extents::dimensions(text, named.next, named.state)?;
    let x = Declared {
        kind,
        at: w.at,
        size: w.size,
        extent: measured.extent,
        expression: 0,
        equals: places::position(0),
    };
    let reached = measured.reached;
    Ok(adding::declare(work, reached.next, reached.state, place, x))
}

// A register, or behind a `#` the sequencing register.
pub fn register(
    text: &[u8],
    w: Word,
    work: &mut Work,
    s: State,
    place: u16,
) -> Result<Progress, Unread>
    ensures { Registers text.now w s place work.old work.new result }
{
    if kinds::kind_of(w) != language::kinds::HASH {
        return stored(text, w, work, s, place, FacilityKind::Register);
    }
    let hash = taking::take(text, w, s, false, Bearing::Level)?;
    stored(
        text,
        hash.next,
        work,
        hash.state,
        place,
        FacilityKind::Sequencing,
    )
}
