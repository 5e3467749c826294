// What a cycle comes to.
use run_next::record::Record;
use run_references::worth::Halted;

// The record after a cycle that completed, and how many of its stores conflicted.
#[derive(Clone, Copy)]
pub struct Stepped {
    pub record: Record,
    pub conflicts: u32,
}

// A cycle that completed, or why it did not.
pub type Ended = Result<Stepped, Halted>;
