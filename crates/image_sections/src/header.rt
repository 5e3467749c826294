// The header: the total length, and for each section how many records it has and where it begins.
ghost use Rattle.std.specs.Prelude.{◌≡◌};
ghost use Rattle.language.specs.RecordBytes.{fours};
ghost use Rattle.image_records.specs.Placed.{placed};
ghost use Rattle.image_sections.specs.Header.{counts_in, header_numbers, header_right};

use crate::sections;
use image_records::{bytes, numbers, record_sizes};

// Where the total length stands, and how many numbers there are.
const LENGTH_FIELD: usize = 0;

const NUMBERS: usize = 13;

// The sizes among the header's numbers.
const HEADER: u64 = record_sizes::HEADER as u64;

const FACILITY: u64 = record_sizes::FACILITY as u64;

const OPERATION: u64 = record_sizes::OPERATION as u64;

const NODE: u64 = record_sizes::NODE as u64;

const ACTION: u64 = record_sizes::ACTION as u64;

const STATE: u64 = record_sizes::STATE as u64;

// How many records the sections have; of the names, bytes.
#[derive(Clone, Copy)]
pub struct Counts {
    pub facilities: u32,
    pub operations: u32,
    pub expressions: u32,
    pub actions: u32,
    pub states: u32,
    pub names: u32,
}

// The counts that a header gives.
pub fn counts_at(image: &[u8]) -> Counts
    ensures { result ≡ counts_in image.now }
{
    Counts {
        facilities: sections::count_of(image, sections::FACILITIES),
        operations: sections::count_of(image, sections::OPERATIONS),
        expressions: sections::count_of(image, sections::EXPRESSIONS),
        actions: sections::count_of(image, sections::ACTIONS),
        states: sections::count_of(image, sections::STATES),
        names: sections::count_of(image, sections::NAMES),
    }
}

// The header's numbers: the sections follow it and each other without gaps.
pub fn header_numbers(c: Counts) -> [u64; NUMBERS]
    ensures { result ≡ header_numbers c }
{
    let f = c.facilities as u64;
    let o = c.operations as u64;
    let e = c.expressions as u64;
    let a = c.actions as u64;
    let s = c.states as u64;
    let n = c.names as u64;
    let operations = HEADER + FACILITY * f;
    let expressions = operations + OPERATION * o;
    let actions = expressions + NODE * e;
    let states = actions + ACTION * a;
    let names = states + STATE * s;
    [
        names + n,
        f,
        HEADER,
        o,
        operations,
        e,
        expressions,
        a,
        actions,
        s,
        states,
        n,
        names,
    ]
}

// The header's bytes.
pub fn header_bytes(c: Counts) -> [u8; record_sizes::HEADER]
    ensures { result ≡ fours (header_numbers c) }
{
    let all = header_numbers(c);
    let mut header = [0u8; record_sizes::HEADER];
    for i in 0..NUMBERS {
        bytes::put(&mut header, 4 * i, &numbers::four_bytes(all[i]));
    }
    header
}

// Whether a header is right for its counts, and the image is as long as it says.
pub fn header_right(image: &[u8]) -> bool
    ensures { result ≡ header_right image.now }
{
    let c = counts_at(image);
    let total = header_numbers(c)[0];
    if (image.len() as u64) < total || numbers::four(image, LENGTH_FIELD) as u64 != total {
        return false;
    }
    bytes::stand(image, 0, &header_bytes(c))
}

// Writes the header for sections with these counts, where there is room for it.
pub fn write_header(image: &mut [u8], c: Counts)
    ensures { image.new ≡ placed image.old 0 (fours (header_numbers c)) }
{
    bytes::put(image, 0, &header_bytes(c));
}
