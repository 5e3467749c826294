// The sections that the working array holds: their gotos resolved when all labels are known, and they and their names counted and put where an image has them.
#![tactic(auto)]

pub mod body;
pub mod counts;
pub mod gotos;
pub mod letters;
pub mod names;

// How many records the array has of each section.
#[derive(Clone, Copy)]
pub struct Holding {
    pub facilities: u16,
    pub operations: u16,
    pub nodes: u16,
    pub actions: u16,
    pub states: u16,
}
