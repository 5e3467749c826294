// The next state: the stops after the actions, in their order, and the run record after a cycle.
#![tactic(auto)]

pub mod bearer;
pub mod record;
pub mod register;
pub mod stops;
