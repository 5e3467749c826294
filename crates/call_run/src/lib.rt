// Cycles after one check: store and record advanced where they complete, the stores after them in the trace; and one cycle, which is a run of one stimulus without a trace.
#![tactic(auto)]

pub mod cycle;
mod refusal;
pub mod run;
