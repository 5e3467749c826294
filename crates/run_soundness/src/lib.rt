// Whether store and record are sound, by their bytes; the size of the store; and the record read from its bytes and written to them.
#![tactic(auto)]

mod numbers;
pub mod record;
mod register;
pub mod sizes;
pub mod soundness;
mod words;
