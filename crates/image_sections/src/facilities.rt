// A facility's record; its name stands elsewhere.
ghost use Rattle.std.specs.Prelude.{◌≡◌, ◌+◌, ◌≤◌, length};
ghost use Rattle.language.specs.Decode.{bounds_at, kind_of};
ghost use Rattle.language.specs.Encode.{kind_number};
ghost use Rattle.language.specs.Tree.{Name};
ghost use Rattle.image_sections.specs.Declarations.{FacilityRead, facility_in, facility_meant, kind_meant, none_named, short_meant};

use image_records::{numbers, record_sizes};

#[derive(Clone, Copy, PartialEq, Eq)]
pub enum FacilityKind {
    Register,
    Sequencing,
    Memory,
    Plain,
    Input,
    Computed,
}

// The bounds of a dimension, as far as a record has room for them.
#[derive(Clone, Copy)]
pub struct ShortBounds {
    pub first: u16,
    pub last: u16,
}

#[derive(Clone, Copy)]
pub struct FacilityRecord {
    pub kind: FacilityKind,
    pub dimensions: u8,
    // the length of its name
    pub name: u8,
    pub words: ShortBounds,
    pub bits: ShortBounds,
    // the place of its first byte in the store, or the number of a computed terminal's expression
    pub place: u16,
}

// The kind that a number stands for; greater ones than that of the last kind stand for it too.
impl From<u8> for FacilityKind {
    ghost from_gives = { λ k kind. kind_meant kind ≡ kind_of k };

    #[tactic(auto, using(std::proofs::lemmas::Bool::Decides::nat_tests), unfolding(language::specs::Decode::kind_of))]
    fn from(k: u8) -> FacilityKind {
        match k {
            0 => FacilityKind::Register,
            1 => FacilityKind::Sequencing,
            2 => FacilityKind::Memory,
            3 => FacilityKind::Plain,
            4 => FacilityKind::Input,
            _ => FacilityKind::Computed,
        }
    }
}

// The number that stands for a kind.
impl From<FacilityKind> for u8 {
    ghost from_gives = { λ kind k. k ≡ kind_number (kind_meant kind) };

    fn from(kind: FacilityKind) -> u8 {
        match kind {
            FacilityKind::Register => 0,
            FacilityKind::Sequencing => 1,
            FacilityKind::Memory => 2,
            FacilityKind::Plain => 3,
            FacilityKind::Input => 4,
            FacilityKind::Computed => 5,
        }
    }
}

// First and last bound.
fn bounds_at(s: &[u8], at: usize) -> ShortBounds
    requires { at + 4 ≤ length s.now }
    ensures { short_meant result ≡ bounds_at at s.now }
{
    ShortBounds {
        first: numbers::two_there(s, at),
        last: numbers::two_there(s, at + 2),
    }
}

// No facility.
fn no_facility() -> FacilityRecord
    ensures { (result.name ≡ 0) × (result.place ≡ 0) × ((name : Name) → facility_meant name result ≡ none_named name) }
{
    let none = ShortBounds { first: 0, last: 0 };
    FacilityRecord {
        kind: FacilityKind::Plain,
        dimensions: 0,
        name: 0,
        words: none,
        bits: none,
        place: 0,
    }
}

// Record n of a section of facilities.
pub fn facility_at(facilities: &[u8], n: usize) -> FacilityRecord
    ensures { FacilityRead facilities.now n result }
{
    if facilities.len() / record_sizes::FACILITY <= n {
        return no_facility();
    }
    let at = record_sizes::FACILITY * n;
    FacilityRecord {
        kind: FacilityKind::from(facilities[at]),
        dimensions: facilities[at + 1],
        name: facilities[at + record_sizes::FACILITY_NAME],
        words: bounds_at(facilities, at + 3),
        bits: bounds_at(facilities, at + 7),
        place: numbers::two_there(facilities, at + 11),
    }
}

// The kind of record n alone, by which walks pass over what they do not need.
pub fn kind_at(facilities: &[u8], n: usize) -> FacilityKind
    ensures { (name : Name) → kind_meant result ≡ (facility_in facilities.now n name).kind }
{
    if facilities.len() / record_sizes::FACILITY <= n {
        return FacilityKind::Plain;
    }
    FacilityKind::from(facilities[record_sizes::FACILITY * n])
}
