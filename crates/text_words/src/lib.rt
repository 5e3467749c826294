// From bytes to words (01, "Words" and "Refusal numbers"): the next word from a place on, and the stage that judges a whole text.
#![tactic(auto)]

use language::refusals::Refusal;
use value_operators::Value;

pub mod faults;
pub mod lines;
pub mod next;
pub mod places;
pub mod stage;

// Where a word stands: only this crate takes it apart.
#[derive(Clone, Copy)]
pub struct Position {
    pub place: usize,
}

// What a word is; a sign is a symbol or a reserved word by its kind.
#[derive(Clone, Copy)]
pub enum WordKind {
    End,
    Name,
    Constant,
    Sign(u8),
}

// A word or the end of the text: where it stands, how many bytes it takes, and for a constant its value and whether it was written without a length.
#[derive(Clone, Copy)]
pub struct Word {
    pub kind: WordKind,
    pub at: Position,
    pub size: usize,
    pub bare: bool,
    pub value: Value,
}

// What is at fault, and how.
#[derive(Clone, Copy)]
pub struct Fault {
    pub at: Position,
    pub refusal: Refusal,
}

// What comes of judging.
pub type Judged = Result<(), Fault>;
