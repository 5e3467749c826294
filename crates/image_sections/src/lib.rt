// The image: its declarations, names and header.
#![tactic(auto)]

pub mod facilities;
pub mod facility_bytes;
pub mod header;
pub mod kinds;
pub mod names;
pub mod operations;
pub mod runs;
pub mod sections;
pub mod shapes;
pub mod states;
