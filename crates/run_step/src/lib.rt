// One cycle on the bytes of a store, with the run record by value.
#![tactic(auto)]

mod acted;
pub mod step;
