// The ceilings of document 01, and the size of a run record: all code takes them from here.

// Bytes of a text, columns of a line, letters and digits of a name.
pub const TEXT: usize = 32768;

pub const LINE: usize = 132;

pub const NAME: usize = 132;

// Facilities, operations and states; operators, operands and actions, counted together; what is open at a word.
pub const FACILITIES: u16 = 256;

pub const OPERATIONS: u16 = 128;

pub const STATES: u16 = 256;

pub const COUNTED: u16 = 2048;

pub const NESTING: u16 = 24;

// Bits of a value, a bound, a bare constant, bytes of a store, work of a state.
pub const VALUE: u16 = 256;

pub const BOUND: u32 = 65535;

pub const BARE: u32 = 65535;

pub const STORE: usize = 16384;

pub const WORK: usize = 65536;

// Returns that a record holds, its bytes (four numbers before the returns, of four bytes each), and the last number of a cycle.
pub const RETURNS: usize = 16;

pub const RECORD: usize = 4 * (4 + RETURNS);

pub const CYCLE: u32 = 4294967295;
