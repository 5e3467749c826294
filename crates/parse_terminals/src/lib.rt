// Terminals (the manual, 6), read as the machine of the grammar reads them: plain, of an input, or computed by an expression.
#![tactic(auto)]

use image_sections::facilities::FacilityKind;
use parse_step::Reached;
use text_words::Position;

pub mod declaring;
pub mod functions;
pub mod inputs;
pub mod lists;

// How far a terminal's function was read, and what it makes of the terminal: its kind, the number of its expression and the place of its `=`.
#[derive(Clone, Copy)]
pub struct Defined {
    pub reached: Reached,
    pub kind: FacilityKind,
    pub expression: u16,
    pub equals: Position,
}
