// What the trace program prints, line by line.
#![tactic(auto)]

pub mod line;
pub mod out;
pub mod shown;
