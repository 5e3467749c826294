// The end of reading: what the working array holds, written as an image.
#![tactic(auto)]

pub mod whole;
