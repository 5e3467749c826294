// What references name, what constants are and what operators give: the parts that evaluation is made of.
#![tactic(auto)]

pub mod arms;
pub mod bounds;
pub mod constants;
pub mod distances;
pub mod places;
pub mod reading;
pub mod references;
pub mod whole;
pub mod worth;
