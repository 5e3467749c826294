// Operands that hold no expression: constants, the records of references, the ends of a part, the counts after HEAD, TAIL and EXT.
#![tactic(auto)]

pub mod constants;
pub mod cuts;
pub mod nodes;
