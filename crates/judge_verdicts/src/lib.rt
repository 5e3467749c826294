// What judging says of an expression or of a list of actions, and how the verdicts on parts make that on the whole.
#![tactic(auto)]

use text_words::Fault;

pub mod faults;
pub mod kept;
pub mod noted;
pub mod tests;
pub mod work;

// An expression without fault: its length, how many arms there are in a list of them, and its work; arms and work up to 65,537, which stands for all more.
#[derive(Clone, Copy)]
pub struct Worth {
    pub length: u16,
    pub arms: usize,
    pub work: usize,
}

// What an expression is worth, or the fault that answers.
pub type Verdict = Result<Worth, Fault>;
