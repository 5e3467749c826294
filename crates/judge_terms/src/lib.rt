// Constants, references and operators: the rules that go by lengths, bounds and kinds alone, and what each makes of the verdicts on its parts.
#![tactic(auto)]

pub mod bounds;
pub mod constants;
pub mod lengths;
pub mod operators;
pub mod references;
