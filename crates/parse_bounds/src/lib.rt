// The dimensions of declarations (the manual, 4.1): ranges in brackets, read as the machine of the grammar reads them.
#![tactic(auto)]

pub mod extents;
pub mod ranges;
