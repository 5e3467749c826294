// How a part of a word in the store is read and written.
#![tactic(auto)]

mod bits;
mod bytes;
pub mod delayed;
pub mod parts;
pub mod slices;
pub mod spare;
