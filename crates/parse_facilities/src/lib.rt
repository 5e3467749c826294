// Declarations of facilities (the manual, 4 and 6), read as the machine of the grammar reads them; their records, places and names go to their tables.
#![tactic(auto)]

use parse_step::Reached;

pub mod adding;
pub mod lists;
pub mod naming;
pub mod stored;

// How far declarations were read, and the place of the next facility in the store, its low 16 bits.
#[derive(Clone, Copy)]
pub struct Progress {
    pub reached: Reached,
    pub place: u16,
}
