// The places of words in bytes, beside the records that they belong to.
#![tactic(auto)]

pub mod facilities;
pub mod places;
