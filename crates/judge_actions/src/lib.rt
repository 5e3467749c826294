// Lists of actions: their work, or their earliest fault.
#![tactic(auto)]

pub mod conditionals;
pub mod simple;
pub mod stores;
pub mod walk;

use judge_expressions::Records;

// What lists of actions are judged by: what expressions are, what is kept of computed terminals with what is noted of records (`memo`), the actions and their places, and the states and their names (`labels`).
#[derive(Clone, Copy)]
pub struct Sections<'a> {
    pub records: Records<'a>,
    pub memo: &'a [usize],
    pub actions: &'a [u8],
    pub action_places: &'a [u8],
    pub states: &'a [u8],
    pub labels: &'a [u8],
}

// Whose a list is: whether a state's, how many operations may be named in it, and what is kept of operations.
#[derive(Clone, Copy)]
pub struct Owner<'a> {
    pub state: bool,
    pub ops: usize,
    pub kept: &'a [usize],
}
