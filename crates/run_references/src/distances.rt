// The subscripts of a reference: which are to be worked out, and the place that they name once they are.
ghost use Rattle.std.specs.Prelude.{◌≡◌, ℕ};
ghost use Rattle.language.specs.Meaning as M;
ghost use Rattle.language.specs.Tree.{Name};
ghost use Rattle.image_sections.specs.Declarations.{FacilityRead, facility_meant};
ghost use Rattle.store_geometry.specs.Subscripts.{subscripts_meant};
ghost use Rattle.run_references.specs.Places.{Worked, first_of, located_meant, second_of};

use crate::places::{Distance, Located};
use crate::{bounds, places};
use image_sections::facilities;
use image_sections::facilities::{FacilityRecord, ShortBounds};
use store_geometry::subscripts::Subscripts;

// A subscript's record and the bounds that it must keep, where there is one to work out.
pub type Sought = Option<(u16, ShortBounds)>;

// The subscript that is worked out first, with its bounds in a facility.
fn first_of(f: FacilityRecord, s: Subscripts) -> Sought
    ensures { result ≡ first_of f s }
{
    match s {
        Subscripts::Whole | Subscripts::Part(_) => None,
        Subscripts::One(e) if f.dimensions == 1 => Some((e, f.bits)),
        Subscripts::One(e) | Subscripts::Two(e, _) | Subscripts::WordPart(e, _) => {
            Some((e, f.words))
        }
    }
}

// The subscript that is worked out first. The facility is read only where there is one.
pub fn first(section: &[u8], number: u8, s: Subscripts) -> Sought
    ensures { (f : FacilityRecord) → FacilityRead section.now number f → result ≡ first_of f s }
{
    match s {
        Subscripts::Whole | Subscripts::Part(_) => None,
        _ => first_of(facilities::facility_at(section, number as usize), s),
    }
}

// The subscript that is worked out after one at the distance d: a bit's, where there is a word.
pub fn second(section: &[u8], number: u8, s: Subscripts, d: Distance) -> Sought
    ensures { (f : FacilityRecord) → FacilityRead section.now number f → result ≡ second_of f s d }
{
    match (s, d) {
        (Subscripts::Two(_, g), Ok(_)) => {
            Some((g, facilities::facility_at(section, number as usize).bits))
        }
        _ => None,
    }
}

// The place that subscripts name by their distances; that of one that is not there says nothing.
pub fn located(number: u8, f: FacilityRecord, s: Subscripts, d: Distance, e: Distance) -> Located
    ensures { (ev : ℕ → M.Answer) (name : Name) → Worked ev (first_of f s) d → Worked ev (second_of f s d) e → located_meant result ≡ M.located ev number (facility_meant name f) (subscripts_meant s) }
{
    match s {
        Subscripts::Whole => places::narrow(number, 0, 0, bounds::word_length(f) as u64),
        Subscripts::One(_) if f.dimensions == 1 => places::narrow(number, 0, d?, 1),
        Subscripts::One(_) => places::narrow(number, d?, 0, bounds::word_length(f) as u64),
        Subscripts::Part(x) => places::constant_part(number, 0, f.bits, x),
        Subscripts::Two(_, _) => places::narrow(number, d?, e?, 1),
        Subscripts::WordPart(_, x) => places::constant_part(number, d?, f.bits, x),
    }
}
