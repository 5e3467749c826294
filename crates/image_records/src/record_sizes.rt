// How many bytes the header and a record of each section have.
pub const HEADER: usize = 52;

pub const FACILITY: usize = 13;

pub const OPERATION: usize = 5;

pub const NODE: usize = 8;

pub const ACTION: usize = 7;

pub const STATE: usize = 7;

// Where a facility's record has the length of its name; the other records begin with it.
pub const FACILITY_NAME: usize = 2;
