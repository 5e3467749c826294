// What the trace program takes: a line of input bits.
#![tactic(auto)]

pub mod lines;
pub mod stimulus;
