// The order of records: expressions as trees one after the other, actions as runs one after the other.
#![tactic(auto)]

pub mod edges;
pub mod runs;
pub mod starts;
pub mod trees;
