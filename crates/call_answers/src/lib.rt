// What the public calls answer beside a refusal, and the numbers that C gets for each answer.
#![tactic(auto)]

pub mod cycled;
pub mod exported;
pub mod numbers;
pub mod ran;
pub mod read;
