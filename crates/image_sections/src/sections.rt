// The sections as parts of an image, by what its header says.
ghost use Rattle.std.specs.Prelude.{◌≡◌, ◌<◌};
ghost use Rattle.language.specs.Decode.{count_of, offset_of, section_at};
ghost use Rattle.language.specs.Encode.{action_size, actions_section, expressions_section, facilities_section, facility_size, name_size, names_section, node_size, operation_size, operations_section, state_size, states_section};
ghost use Rattle.image_sections.specs.Header.{size_in};

use image_records::{bytes, numbers, record_sizes};

// The sections by number.
pub const FACILITIES: u8 = 0;

pub const OPERATIONS: u8 = 1;

pub const EXPRESSIONS: u8 = 2;

pub const ACTIONS: u8 = 3;

pub const STATES: u8 = 4;

pub const NAMES: u8 = 5;

// Where the header has how many records the first section has and where it begins; of each that follows, an entry further on.
const COUNT_FIELD: usize = 4;

const OFFSET_FIELD: usize = 8;

const ENTRY: usize = 8;

// How many bytes a record of section k has; names are counted in bytes.
fn size_in(k: u8) -> usize
    ensures { (result ≡ size_in k) × (result < 256) }
{
    match k {
        FACILITIES => record_sizes::FACILITY,
        OPERATIONS => record_sizes::OPERATION,
        EXPRESSIONS => record_sizes::NODE,
        ACTIONS => record_sizes::ACTION,
        STATES => record_sizes::STATE,
        _ => 1,
    }
}

// How many records section k has, as the header says.
pub fn count_of(image: &[u8], k: u8) -> u32
    ensures { result ≡ count_of k image.now }
{
    numbers::four(image, COUNT_FIELD + ENTRY * (k as usize))
}

// Where it begins.
fn offset_of(image: &[u8], k: u8) -> u32
    ensures { result ≡ offset_of k image.now }
{
    numbers::four(image, OFFSET_FIELD + ENTRY * (k as usize))
}

// Section number k, as far as the image has it.
pub fn section(image: &[u8], k: u8) -> &[u8]
    ensures { result.now ≡ section_at k (size_in k) image.now }
{
    let count = count_of(image, k) as usize;
    let offset = offset_of(image, k) as usize;
    bytes::part(image, offset, size_in(k) * count)
}

// The sections of an image, each as its bytes.
#[derive(Clone, Copy)]
pub struct Sections<'a> {
    pub facilities: &'a [u8],
    pub operations: &'a [u8],
    pub expressions: &'a [u8],
    pub actions: &'a [u8],
    pub states: &'a [u8],
    pub names: &'a [u8],
}

impl<'a> Sections<'a> {
    pub fn of(image: &'a [u8]) -> Sections<'a>
        ensures facilities { result.facilities.now ≡ section_at facilities_section facility_size image.now }
        ensures operations { result.operations.now ≡ section_at operations_section operation_size image.now }
        ensures expressions { result.expressions.now ≡ section_at expressions_section node_size image.now }
        ensures actions { result.actions.now ≡ section_at actions_section action_size image.now }
        ensures states { result.states.now ≡ section_at states_section state_size image.now }
        ensures names { result.names.now ≡ section_at names_section name_size image.now }
    {
        Sections {
            facilities: section(image, FACILITIES),
            operations: section(image, OPERATIONS),
            expressions: section(image, EXPRESSIONS),
            actions: section(image, ACTIONS),
            states: section(image, STATES),
            names: section(image, NAMES),
        }
    }
}
