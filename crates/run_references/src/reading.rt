// The value of a part: of a stored word, or of a computed terminal's expression.
ghost use Rattle.std.specs.Prelude.{◌≡◌, ◌+◌, ◌*◌, ◌-◌, ◌/◌, ◌%◌, ◌^◌};
ghost use Rattle.language.specs.Description.{Description, word_length};
ghost use Rattle.language.specs.Layout.{word_bytes};
ghost use Rattle.language.specs.Meaning as M;
ghost use Rattle.language.specs.Tree.{Name};
ghost use Rattle.language.specs.Value as L;
ghost use Rattle.value_limbs.specs.Limbs.{number};
ghost use Rattle.value_operators.specs.Meaning.{valued};
ghost use Rattle.image_sections.specs.Declarations.{facility_meant};
ghost use Rattle.store_layout.specs.InBytes.{InBytes, bytes};
ghost use Rattle.store_layout.specs.Parts.{loaded};
ghost use Rattle.run_references.specs.Places.{place_meant};
ghost use Rattle.run_references.specs.Worth.{answered};

use crate::bounds;
use crate::places::Place;
use crate::worth::{Halted, Stuck, Worth};
use image_sections::facilities::FacilityRecord;
use store_geometry::places;
use store_words::parts;
use value_limbs::shifts;
use value_operators::Value;

// The bits of a value that a place takes.
fn taken(v: Value, p: Place) -> Value
    ensures { valued result ≡ L.value p.count (number v.limbs / 2 ^ (v.length - (p.from + p.count)) % 2 ^ p.count) }
{
    let below = (v.length as u32).saturating_sub(p.from as u32 + p.count as u32);
    let limbs = shifts::low(shifts::right(v.limbs, below), p.count as u32);
    Value {
        limbs,
        length: p.count,
    }
}

// Of a computed terminal, by what its expression is worth.
pub fn of_computed(f: FacilityRecord, p: Place, w: Worth) -> Worth
    ensures { (d : Description) (x : InBytes) (name : Name) → answered result ≡ M.after (answered w) (M.part_of_value (bytes d) d x (facility_meant name f) (place_meant p)) }
{
    let v = w?;
    if v.length as u32 != bounds::word_length(f) {
        return Err(Halted::Stuck(Stuck::LengthDiffers));
    }
    Ok(taken(v, p))
}

// Of a stored word.
pub fn of_stored(store: &[u8], f: FacilityRecord, p: Place) -> Value
    ensures { (name : Name) → valued result ≡ L.value p.count (loaded store.now (f.place + p.word * word_bytes (word_length (facility_meant name f))) (word_length (facility_meant name f)) p.from p.count).number }
{
    let length = bounds::word_length(f);
    let at = places::word_place(f.place as u32, p.word as u32, length);
    let part = parts::load(store, at, length, p.from as u32, p.count as u32);
    let limbs = part.limbs;
    Value {
        limbs,
        length: p.count,
    }
}
