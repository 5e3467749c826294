// The trace program without its files: a text is read and opened, or refused; a line of input is a cycle; and an input is cut into its lines.
#![tactic(auto)]

pub mod begun;
pub mod input;
pub mod line;
pub mod printed;
pub mod roomy;
