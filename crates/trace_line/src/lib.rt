// What the trace program prints for one line of input bits, added to a buffer.
#![tactic(auto)]

pub mod told;
