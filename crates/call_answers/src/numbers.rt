// The numbers that C gets for each answer.
ghost use Rattle.std.specs.Prelude.{◌≡◌};
ghost use Rattle.language.specs.Tree.{Name};
ghost use Rattle.image_sections.specs.Declarations.{facility_meant};
ghost use Rattle.call_answers.specs.Cycle as Cycled;
ghost use Rattle.call_answers.specs.Lookups.{answered, name_meant};
ghost use Rattle.language.specs.Stops.{halted};
ghost use Rattle.call_answers.specs.Numbers.{Short, cycle_numbers, facility_numbers, halt_number, name_numbers, open_number, read_numbers, run_numbers, shown};
ghost use Rattle.call_answers.specs.Opening as Opened;
ghost use Rattle.call_answers.specs.Reading as Reads;
ghost use Rattle.call_answers.specs.Run as Ran;

use crate::cycled::Halt;
use crate::exported::{CycleAnswer, FacilityAnswer, NameAnswer, ReadAnswer, RunAnswer};
use crate::ran::Tally;
use crate::read::Refused;
use image_sections::facilities::FacilityRecord;
use image_sections::kinds;
use image_sections::names::Part;
use language::refusals::Refusal;
use language::stops::Stop;

// The length of an image, or a refusal and its place; both have 32 bits.
pub fn read_numbers(a: Result<usize, Refused>) -> ReadAnswer
    requires { Reads.Short (Reads.answered a) }
    ensures { result ≡ read_numbers (Reads.answered a) }
{
    match a {
        Ok(n) => ReadAnswer {
            refusal: 0,
            place: 0,
            length: n as u32,
        },
        Err(e) => ReadAnswer {
            refusal: u8::from(e.refusal) as u32,
            place: e.place as u32,
            length: 0,
        },
    }
}

// The refusal, or 0.
pub fn open_number(a: Result<(), Refusal>) -> u32
    ensures { result ≡ open_number (Opened.answered a) }
{
    match a {
        Ok(()) => 0,
        Err(n) => u8::from(n) as u32,
    }
}

// The conflicts of a completed cycle, a stop or a refusal.
pub fn cycle_numbers(a: Result<u32, Halt>) -> CycleAnswer
    ensures { result ≡ cycle_numbers (Cycled.answered a) }
{
    match a {
        Ok(n) => CycleAnswer {
            refusal: 0,
            stop: 0,
            conflicts: n,
        },
        Err(Halt::Stopped(n)) => CycleAnswer {
            refusal: 0,
            stop: u8::from(n) as u32,
            conflicts: 0,
        },
        Err(Halt::Refused(n)) => CycleAnswer {
            refusal: u8::from(n) as u32,
            stop: 0,
            conflicts: 0,
        },
    }
}

// The number of a stop, or 0.
fn halt_number(stop: Option<Stop>) -> u32
    ensures { result ≡ halt_number (halted stop) }
{
    match stop {
        Some(s) => u8::from(s) as u32,
        None => 0,
    }
}

// Completed cycles, their conflicts and the stop that ended them, or a refusal.
pub fn run_numbers(a: Result<Tally, Refusal>) -> RunAnswer
    ensures { result ≡ run_numbers (Ran.answered a) }
{
    match a {
        Ok(t) => RunAnswer {
            refusal: 0,
            stop: halt_number(t.stop),
            cycles: t.completed as u64,
            conflicts: t.conflicts,
        },
        Err(n) => RunAnswer {
            refusal: u8::from(n) as u32,
            stop: 0,
            cycles: 0,
            conflicts: 0,
        },
    }
}

// Where a name stands, which has 32 bits, since the total length of an image has.
pub fn name_numbers(a: Result<Part, Refusal>) -> NameAnswer
    requires { Short (name_meant a) }
    ensures { result ≡ name_numbers (name_meant a) }
{
    match a {
        Ok(p) => NameAnswer {
            refusal: 0,
            offset: p.offset as u32,
            length: p.length as u32,
        },
        Err(n) => NameAnswer {
            refusal: u8::from(n) as u32,
            offset: 0,
            length: 0,
        },
    }
}

// A declaration, whether it is stored, and where.
fn shown(f: FacilityRecord, stored: u32, place: u32) -> FacilityAnswer
    ensures { (name : Name) → result ≡ shown (facility_meant name f) stored place }
{
    FacilityAnswer {
        refusal: 0,
        kind: u8::from(f.kind) as u32,
        dimensions: f.dimensions as u32,
        words_first: f.words.first as u32,
        words_last: f.words.last as u32,
        bits_first: f.bits.first as u32,
        bits_last: f.bits.last as u32,
        stored,
        place,
    }
}

// A computed terminal has no place.
fn declared(f: FacilityRecord) -> FacilityAnswer
    ensures { (name : Name) → result ≡ facility_numbers (answered name (Ok f)) }
{
    if kinds::is_computed(f.kind) {
        shown(f, 0, 0)
    } else {
        shown(f, 1, f.place as u32)
    }
}

// No facility.
fn unknown(n: Refusal) -> FacilityAnswer
    ensures { (name : Name) → result ≡ facility_numbers (answered name (Err n)) }
{
    FacilityAnswer {
        refusal: u8::from(n) as u32,
        kind: 0,
        dimensions: 0,
        words_first: 0,
        words_last: 0,
        bits_first: 0,
        bits_last: 0,
        stored: 0,
        place: 0,
    }
}

// A declaration or a refusal.
pub fn facility_numbers(a: Result<FacilityRecord, Refusal>) -> FacilityAnswer
    ensures { (name : Name) → result ≡ facility_numbers (answered name a) }
{
    match a {
        Ok(f) => declared(f),
        Err(n) => unknown(n),
    }
}
