// The course of parsing: what has been counted and written so far, a word taken, a record added; each as the machine of the grammar does it.
#![tactic(auto)]

use text_words::{Fault, Word};

pub mod adding;
pub mod kinds;
pub mod taking;

// The counts of the grammar's machine; how many records of expressions and of actions are written, and how many facilities are known.
#[derive(Clone, Copy)]
pub struct State {
    pub facilities: u16,
    pub operations: u16,
    pub states: u16,
    pub counted: u16,
    pub nesting: u16,
    pub nodes: u16,
    pub actions: u16,
    pub known: u16,
}

// How far a part of the text was read: the next word, and the state there.
#[derive(Clone, Copy)]
pub struct Reached {
    pub next: Word,
    pub state: State,
}

// Why it was not read: it is refused, or the working array is full in this state.
#[derive(Clone, Copy)]
pub enum Unread {
    Refused(Fault),
    Full(State),
}

pub type Answer = Result<Reached, Unread>;

// How a word bears on nesting.
#[derive(Clone, Copy)]
pub enum Bearing {
    Level,
    Opens,
    Closes,
}
