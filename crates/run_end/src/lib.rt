// The end of a cycle: delayed stores land, the cycle stops or the next state is entered, and the sequencing register takes its value.
#![tactic(auto)]

pub mod finish;
pub mod outcome;
pub mod register;
