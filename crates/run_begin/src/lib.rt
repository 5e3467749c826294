// The start of a cycle: a stimulus of the right form, and the store with inputs set and plain terminals cleared; and the stimuli of a run.
#![tactic(auto)]

pub mod formed;
mod ranges;
pub mod sizes;
pub mod start;
pub mod stimulus;
