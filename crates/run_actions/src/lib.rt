// Actions: what the records of a state do to the bytes of a store, and to what a cycle has done.
#![tactic(auto)]

pub mod arms;
mod reach;
pub mod run;
mod sides;
pub mod simple;
mod ways;
