// A whole text, read into the working array: its facilities, operations and states with the places of their words.
pub mod lengths;
pub mod states;
pub mod whole;
