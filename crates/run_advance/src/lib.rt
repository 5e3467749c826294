// A cycle on the caller's store, its record advanced where it stands.
#![tactic(auto)]

mod advance;
pub mod carried;
