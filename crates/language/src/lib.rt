// What definitions and code share: the kinds of words, and the refusals, stops and ceilings of document 01.
#![tactic(auto)]

pub mod ceilings;
pub mod kinds;
pub mod refusals;
pub mod stops;
