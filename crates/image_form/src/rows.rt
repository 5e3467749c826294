// Whether every record of a section has the bytes that writing gives it.
ghost use Rattle.std.specs.Prelude.{◌≡◌, ◌+◌, ◌*◌, ◌/◌, ◌%◌, ◌<◌, length};
ghost use Rattle.language.specs.Description.{Description};
ghost use Rattle.language.specs.Encode.{action_bytes, action_size, concat, facility_records, facility_size, node_bytes, node_size};
ghost use Rattle.language.specs.Layout.{facility_bytes};
ghost use Rattle.language.specs.Scan.{same};
ghost use Rattle.language.specs.Tree.{Name};
ghost use Rattle.image_sections.specs.Declarations.{facility_meant};
ghost use Rattle.image_order.specs.Holds.{Actions, Facilities, Nodes};
ghost use Rattle.image_form.specs.Form.{NamesLong};

use image_records::{action_bytes, node_bytes, record_sizes};
use image_sections::facilities::FacilityRecord;
use image_sections::{facilities, facility_bytes, shapes};
use store_geometry::places;

pub fn nodes_right(exprs: &[u8]) -> bool
    requires { length exprs.now ≡ node_size * (length exprs.now / node_size) }
    ensures { (d : Description) → Nodes d exprs.now → result ≡ same exprs.now (concat node_bytes d.expressions) }
{
    (0..exprs.len() / record_sizes::NODE).all(|n| node_bytes::node_right(exprs, n))
}

pub fn actions_right(acts: &[u8]) -> bool
    requires { length acts.now ≡ action_size * (length acts.now / action_size) }
    ensures { (d : Description) → Actions d acts.now → result ≡ same acts.now (concat action_bytes d.actions) }
{
    (0..acts.len() / record_sizes::ACTION).all(|n| action_bytes::action_right(acts, n))
}

// The place after that of a facility, as far as a record has room for it.
fn place_after(place: u32, f: FacilityRecord) -> u32
    ensures { (result < 65536) × ((name : Name) → result ≡ (place + facility_bytes (facility_meant name f)) % 65536) }
{
    (places::place_after(place, shapes::shape_of(f)) % 65536) as u32
}

// Each facility stands where the layout of the store puts it.
pub fn facilities_right(facilities: &[u8]) -> bool
    requires { length facilities.now ≡ facility_size * (length facilities.now / facility_size) }
    ensures { (d : Description) → Facilities d facilities.now → NamesLong d facilities.now → result ≡ same facilities.now (facility_records 0 d.facilities) }
{
    let mut place: u32 = 0;
    for n in 0..facilities.len() / record_sizes::FACILITY {
        if !facility_bytes::facility_right(facilities, n, place) {
            return false;
        }
        place = place_after(place, facilities::facility_at(facilities, n));
    }
    true
}
