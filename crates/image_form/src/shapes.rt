// Facilities: registers, memories, terminals in this order, and bounds only where there are dimensions.
ghost use Rattle.std.specs.Prelude.{◌≡◌};
ghost use Rattle.language.specs.Canonical.{facilities_right, facility_right, most_dimensions, no_bounds, rank_of};
ghost use Rattle.language.specs.Description.{Description};
ghost use Rattle.language.specs.Tree.{Name};
ghost use Rattle.image_sections.specs.Declarations.{facility_meant, kind_meant, short_meant};
ghost use Rattle.image_order.specs.Holds.{Facilities};

use image_records::record_sizes;
use image_sections::facilities;
use image_sections::facilities::{FacilityKind, FacilityRecord, ShortBounds};

fn rank_of(kind: FacilityKind) -> u8
    ensures { result ≡ rank_of (kind_meant kind) }
{
    match kind {
        FacilityKind::Register | FacilityKind::Sequencing => 0,
        FacilityKind::Memory => 1,
        FacilityKind::Plain | FacilityKind::Input | FacilityKind::Computed => 2,
    }
}

fn most_dimensions(kind: FacilityKind) -> u8
    ensures { result ≡ most_dimensions (kind_meant kind) }
{
    match kind {
        FacilityKind::Input | FacilityKind::Computed => 1,
        _ => 2,
    }
}

#[tactic(auto, using(std::proofs::lemmas::Bool::Decides::nat_tests))]
fn no_bounds(b: ShortBounds) -> bool
    ensures { result ≡ no_bounds (short_meant b) }
{
    b.first == 0 && b.last == 0
}

#[tactic(auto, using(std::proofs::lemmas::Bool::Decides::nat_tests), unfolding(language::specs::Canonical::facility_right))]
fn facility_shaped(f: FacilityRecord) -> bool
    ensures { (name : Name) → result ≡ facility_right (facility_meant name f) }
{
    f.dimensions <= most_dimensions(f.kind)
        && (2 <= f.dimensions || no_bounds(f.words))
        && (1 <= f.dimensions || no_bounds(f.bits))
}

pub fn facilities_shaped(facilities: &[u8]) -> bool
    ensures { (d : Description) → Facilities d facilities.now → result ≡ facilities_right 0 d.facilities }
{
    let mut rank = 0;
    for n in 0..facilities.len() / record_sizes::FACILITY {
        let f = facilities::facility_at(facilities, n);
        let own = rank_of(f.kind);
        if own < rank || !facility_shaped(f) {
            return false;
        }
        rank = own;
    }
    true
}
