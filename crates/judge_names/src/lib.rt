// Names declared before: over all names of facilities, operations and states.
#![tactic(auto)]

pub mod judged;
pub mod numbered;
mod sums;
