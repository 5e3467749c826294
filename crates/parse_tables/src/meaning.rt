// What a name means: a facility, or else an operation, the first that was declared; any other may be a state's.
ghost use Rattle.std.specs.Prelude.{◌≡◌, ◌<◌};
ghost use Rattle.std.proofs.Math.ListN as N;
ghost use Rattle.language.specs.Naming as L;
ghost use Rattle.language.specs.Naming.{or_else};
ghost use Rattle.parse_array.specs.Names.{letters};
ghost use Rattle.parse_tables.specs.Known as K;
ghost use Rattle.parse_tables.specs.Known.{Means, meant};

use crate::{Table, finding};
use image_records::bytes;
use parse_array::Work;

#[derive(Clone, Copy)]
pub enum Meaning {
    Facility(u8),
    Operation(u8),
    // a state that may stand further on, by the length of its name
    State(u16),
    Unknown,
}

// How many names are known, and whether any other waits for its state.
#[derive(Clone, Copy)]
pub struct KnownNames {
    pub facilities: u16,
    pub operations: u16,
    pub waiting: bool,
}

// What a word means that is no facility and no operation.
fn other(text: &[u8], waits: bool, place: usize, length: usize) -> Meaning
    ensures { N.length text.now < 65536 → meant result ≡ or_else (K.waiting waits (letters text.now place length)) L.state L.unknown }
{
    if waits {
        let name = bytes::part(text, place, length);
        return Meaning::State((name.len() % 65536) as u16);
    }
    Meaning::Unknown
}

// What the word of this place and length means.
pub fn what(text: &[u8], work: &Work, n: KnownNames, place: usize, length: usize) -> Meaning
    ensures { Means text.now work.now n place length result }
{
    let facility = finding::find(
        text,
        work,
        Table::FacilityNames,
        n.facilities,
        place,
        length,
    );
    if let Some(k) = facility {
        return Meaning::Facility(k);
    }
    let operation = finding::find(
        text,
        work,
        Table::OperationNames,
        n.operations,
        place,
        length,
    );
    match operation {
        Some(k) => Meaning::Operation(k),
        None => other(text, n.waiting, place, length),
    }
}
