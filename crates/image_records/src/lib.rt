// Records in bytes: read, written, and compared with what writing gives.
#![tactic(auto)]

pub mod action_bytes;
pub mod actions;
pub mod bytes;
pub mod constants;
pub mod marks;
pub mod node_bytes;
pub mod nodes;
pub mod numbers;
pub mod record_sizes;
pub mod references;
