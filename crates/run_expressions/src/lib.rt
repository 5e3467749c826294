// What expressions are worth and which places references name, from the records of a description and the bytes of a store.
#![tactic(auto)]

mod chains;
pub mod eval;
