// The cycles of a run that is not refused, each carried out after the other.
#![tactic(auto)]

pub mod carry;
