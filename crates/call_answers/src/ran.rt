// What a run that was not refused came to.
use language::stops::Stop;

#[derive(Clone, Copy)]
pub struct Tally {
    // cycles
    pub completed: u32,
    // the sum of conflicts
    pub conflicts: u64,
    // that ended the run
    pub stop: Option<Stop>,
}
