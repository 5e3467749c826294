// The geometry of facilities: what their bounds say of words and bits, and of bytes in the store.
#![tactic(auto)]

pub mod bounds;
pub mod places;
pub mod shapes;
pub mod subscripts;
