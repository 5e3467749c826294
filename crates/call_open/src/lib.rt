// Opening: a store and a record at the first state of an image that passes, or a refusal.
#![tactic(auto)]

mod first;
pub mod open;
