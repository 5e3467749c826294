// Characters (the manual, 2.1): their classes, and what words are told apart by.
#![tactic(auto)]

pub mod classes;
pub mod letters;
pub mod names;
pub mod parts;
pub mod runs;
