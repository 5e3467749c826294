// The states of a text (the manual, 8.1), read as the machine of the grammar reads them; their records, places and labels go to their tables.
#![tactic(auto)]

use parse_step::Reached;
use text_words::Position;

mod bodies;
mod closing;
mod ends;
mod heads;
pub mod reading;
mod values;

// A state before its actions: where it stands, how long its label is, its value and where that stands.
#[derive(Clone, Copy)]
pub struct Head {
    pub at: Position,
    pub size: usize,
    pub value: Option<u16>,
    pub spot: Position,
}

// The beginning of a state, and whether it ended with the name that its first action begins with.
#[derive(Clone, Copy)]
pub struct Begun {
    pub reached: Reached,
    pub head: Head,
    pub named: bool,
}
