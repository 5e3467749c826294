// The sequencing register's value, and how it takes that of the state entered.
ghost use Rattle.std.specs.Prelude.{List, ◌≡◌, ℕ, ◌*◌, ◌/◌, ◌≤◌, length};
ghost use Rattle.language.specs.Description.{Description, sequencing_of, state_at, word_length};
ghost use Rattle.language.specs.Layout.{store_size_of, word_bytes};
ghost use Rattle.language.specs.Step.{register_value, set_register};
ghost use Rattle.language.specs.Store.{from_bytes};
ghost use Rattle.language.specs.Tree.{Name};
ghost use Rattle.value_limbs.specs.Limbs.{number};
ghost use Rattle.image_sections.specs.Declarations.{facility_meant};
ghost use Rattle.language.specs.Encode.{facility_size};
ghost use Rattle.store_layout.specs.Parts.{saved};
ghost use Rattle.run_references.specs.Described.{Describes};
ghost use Rattle.run_end.specs.Register.{Enters, Holds, entered};

use image_sections::facilities::FacilityRecord;
use image_sections::sections::Sections;
use image_sections::{facilities, states};
use run_next::register;
use run_references::{bounds, constants};
use store_geometry::shapes;
use store_words::parts;
use value_operators::Value;

// All bytes of a facility's first word of at most 256 bits take the number of x, spare bits included.
#[tactic(auto, unfolding(language::specs::Layout::word_bytes))]
fn put_first_word(store: &mut [u8], f: FacilityRecord, x: Value)
    ensures { (name : Name) → word_length (facility_meant name f) ≤ 256 → store.new ≡ saved store.old f.place (8 * word_bytes (word_length (facility_meant name f))) 0 (8 * word_bytes (word_length (facility_meant name f))) (number x.limbs) }
{
    let length = bounds::word_length(f);
    if value_operators::lengths::LONGEST < length {
        return;
    }
    let all = (8 * shapes::word_bytes(length as u64)) as u32;
    parts::save(store, f.place as usize, all, 0, all, x);
}

// The register, if there is one, takes the value of state s. Answers whether that state has one.
pub fn set_register(image: &Sections, store: &mut [u8], s: u32) -> bool
    requires { length image.now.facilities.now / facility_size ≤ 65536 }
    ensures { (d : Description) → Enters d image.now.facilities.now image.now.expressions.now image.now.states.now → store_size_of d.facilities ≤ length store.old → entered result (from_bytes d.facilities store.new) ≡ set_register d (sequencing_of d) (state_at d s).value (from_bytes d.facilities store.old) }
{
    let Some(f) = register::sequencing(image.facilities) else {
        return true;
    };
    let Some(n) = states::state_at(image.states, s as usize).value else {
        return false;
    };
    put_first_word(
        store,
        facilities::facility_at(image.facilities, f as usize),
        constants::constant_at(image.expressions, n as usize),
    );
    true
}

// The register's value, or 0 where there is no register.
pub fn register_value(facilities: &[u8], store: &[u8]) -> Value
    requires { length facilities.now / facility_size ≤ 65536 }
    ensures { (d : Description) (E : List ℕ) → Describes d facilities.now E → Holds d → store_size_of d.facilities ≤ length store.now → number result.limbs ≡ register_value d (sequencing_of d) (from_bytes d.facilities store.now) }
{
    let Some(f) = register::sequencing(facilities) else {
        return Value {
            limbs: [0u64; 4],
            length: 0,
        };
    };
    register::first_word(store, facilities::facility_at(facilities, f as usize))
}
