// What stores do to the bytes of a store, at once or delayed, and what a cycle keeps of what it has done.
#![tactic(auto)]

pub mod doing;
pub mod spots;
pub mod stores;
