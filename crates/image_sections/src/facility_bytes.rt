// The bytes of a facility's record: as they are written, and whether they stand there.
ghost use Rattle.std.specs.Prelude.{cond, ◌≡◌, ◌*◌, drop, length, take};
ghost use Rattle.language.specs.Description.{is_computed};
ghost use Rattle.language.specs.Encode.{facility_record, facility_size};
ghost use Rattle.language.specs.Scan.{same};
ghost use Rattle.language.specs.Tree.{Name};
ghost use Rattle.image_sections.specs.Declarations.{facility_in, facility_meant, kind_meant, name_length_in};

use crate::facilities::FacilityRecord;
use crate::kinds;
use image_records::{numbers, record_sizes};

// The number of the last kind, as which greater ones are read.
const COMPUTED: u8 = 5;

// Where a facility is: the number of its expression, or else its place in the store.
fn located(f: FacilityRecord, place: u32) -> u32
    ensures { result ≡ cond (is_computed (kind_meant f.kind)) f.place place }
{
    if kinds::is_computed(f.kind) {
        f.place as u32
    } else {
        place
    }
}

// The bytes of a record, for the place in the store that the layout gives.
#[tactic(auto, unfolding(language::specs::Encode::facility_record, language::specs::Encode::little))]
pub fn facility_bytes(f: FacilityRecord, place: u32) -> [u8; record_sizes::FACILITY]
    ensures { (name : Name) → length name ≡ f.name → result ≡ facility_record place (facility_meant name f) }
{
    let [w0, w1] = f.words.first.to_le_bytes();
    let [w2, w3] = f.words.last.to_le_bytes();
    let [b0, b1] = f.bits.first.to_le_bytes();
    let [b2, b3] = f.bits.last.to_le_bytes();
    let [p0, p1, ..] = located(f, place).to_le_bytes();
    [
        u8::from(f.kind),
        f.dimensions,
        f.name,
        w0,
        w1,
        w2,
        w3,
        b0,
        b1,
        b2,
        b3,
        p0,
        p1,
    ]
}

// Whether record n has the bytes that writing gives it at that place in the store: of a kind that there is not, and of another place, it has not.
pub fn facility_right(facilities: &[u8], n: usize, place: u32) -> bool
    ensures { (name : Name) → length name ≡ name_length_in facility_size 2 facilities.now n → result ≡ same (take facility_size (drop (facility_size * n) facilities.now)) (facility_record place (facility_in facilities.now n name)) }
{
    if facilities.len() / record_sizes::FACILITY <= n {
        return false;
    }
    let at = record_sizes::FACILITY * n;
    let kind = facilities[at];
    if COMPUTED <= kind {
        return kind == COMPUTED;
    }
    numbers::two_there(facilities, at + 11) as u32 == place % 65536
}
