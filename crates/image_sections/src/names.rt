// Names: they stand one after the other, of facilities, operations and states, and their lengths stand in the records.
ghost use Rattle.std.specs.Prelude.{◌≡◌, ◌*◌, ◌≤◌};
ghost use Rattle.language.specs.Decode.{names_length};
ghost use Rattle.image_sections.specs.Names.{facility_part, named, part_meant, state_part};

use crate::{facilities, operations, states};
use image_records::{bytes, numbers, record_sizes};

// The sizes of records with names, and where a facility's has the length of its name.
pub const FACILITY: u8 = record_sizes::FACILITY as u8;

pub const OPERATION: u8 = record_sizes::OPERATION as u8;

pub const STATE: u8 = record_sizes::STATE as u8;

pub const FACILITY_NAME: u8 = record_sizes::FACILITY_NAME as u8;

// Where a name stands among the names.
#[derive(Clone, Copy)]
pub struct Part {
    pub offset: usize,
    pub length: usize,
}

// The bytes that the first n records of a section give to names; a record has `size` bytes, and the length stands `inside` it.
pub fn names_length(s: &[u8], n: u32, inside: u8, size: u8) -> usize
    ensures { (result ≡ names_length n inside size s.now) × (result ≤ 255 * n) }
{
    let mut sum = 0;
    for i in 0..n as usize {
        sum += numbers::byte(s, inside as usize + size as usize * i) as usize;
    }
    sum
}

// The name of facility n.
pub fn facility_part(facilities: &[u8], n: u32) -> Part
    ensures { part_meant result ≡ facility_part facilities.now n }
{
    let f = facilities::facility_at(facilities, n as usize);
    Part {
        offset: names_length(facilities, n, FACILITY_NAME, FACILITY),
        length: f.name as usize,
    }
}

// The label of state n, after the names of `count` facilities and `more` operations.
pub fn state_part(
    facilities: &[u8],
    count: u32,
    operations: &[u8],
    more: u32,
    states: &[u8],
    n: u32,
) -> Part
    ensures { part_meant result ≡ state_part facilities.now count operations.now more states.now n }
{
    let before = names_length(facilities, count, FACILITY_NAME, FACILITY);
    let between = names_length(operations, more, 0, OPERATION);
    let s = states::state_at(states, n as usize);
    Part {
        offset: before + between + names_length(states, n, 0, STATE),
        length: s.name as usize,
    }
}

// The name itself.
pub fn name_at(names: &[u8], part: Part) -> &[u8]
    ensures { result.now ≡ named (part_meant part) names.now }
{
    bytes::part(names, part.offset, part.length)
}
