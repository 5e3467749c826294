// Expressions: their lengths and work, or their earliest fault.
#![tactic(auto)]

pub mod filled;
pub mod operands;
pub mod walk;

// What expressions are judged by: the records of facilities and expressions, and the places beside each.
#[derive(Clone, Copy)]
pub struct Records<'a> {
    pub facilities: &'a [u8],
    pub expressions: &'a [u8],
    pub facility_places: &'a [u8],
    pub expression_places: &'a [u8],
}
