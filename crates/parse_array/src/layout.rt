// Where everything stands in the working array: the records of the expressions, the places of their words, and the tables of the other sections, one behind the other.
use image_records::record_sizes;
use judge_records::places;
use language::ceilings;

// How many of each there is room for.
pub const MOST_NODES: u16 = 15888;

pub const MOST_ACTIONS: u16 = 4352;

pub const MOST_FACILITIES: u16 = ceilings::FACILITIES;

pub const MOST_OPERATIONS: u16 = ceilings::OPERATIONS;

pub const MOST_STATES: u16 = ceilings::STATES;

// Bytes of a record, and of the places beside it.
pub const NODE_SIZE: usize = record_sizes::NODE;

pub const NODE_BESIDE: usize = places::NODE;

pub const ACTION_SIZE: usize = record_sizes::ACTION;

pub const ACTION_BESIDE: usize = places::WORD;

pub const FACILITY_SIZE: usize = record_sizes::FACILITY;

pub const FACILITY_BESIDE: usize = places::FACILITY;

pub const OPERATION_SIZE: usize = record_sizes::OPERATION;

pub const OPERATION_BESIDE: usize = places::WORD;

pub const STATE_SIZE: usize = record_sizes::STATE;

pub const STATE_BESIDE: usize = places::STATE;

// Bytes of a name: the place and the size of the word that declares it.
pub const NAME_SIZE: usize = 4;

// Where the places of the expressions begin, and each table.
pub const NODE_PLACES: usize = NODE_SIZE * MOST_NODES as usize;

pub const ACTIONS: usize = NODE_PLACES + NODE_BESIDE * MOST_NODES as usize;

pub const ACTION_PLACES: usize = ACTIONS + ACTION_SIZE * MOST_ACTIONS as usize;

pub const FACILITIES: usize = ACTION_PLACES + ACTION_BESIDE * MOST_ACTIONS as usize;

pub const FACILITY_PLACES: usize = FACILITIES + FACILITY_SIZE * MOST_FACILITIES as usize;

pub const OPERATIONS: usize = FACILITY_PLACES + FACILITY_BESIDE * MOST_FACILITIES as usize;

pub const OPERATION_PLACES: usize = OPERATIONS + OPERATION_SIZE * MOST_OPERATIONS as usize;

pub const STATES: usize = OPERATION_PLACES + OPERATION_BESIDE * MOST_OPERATIONS as usize;

pub const STATE_PLACES: usize = STATES + STATE_SIZE * MOST_STATES as usize;

pub const FACILITY_NAMES: usize = STATE_PLACES + STATE_BESIDE * MOST_STATES as usize;

pub const OPERATION_NAMES: usize = FACILITY_NAMES + NAME_SIZE * MOST_FACILITIES as usize;

pub const LABELS: usize = OPERATION_NAMES + NAME_SIZE * MOST_OPERATIONS as usize;

pub const WORK_SIZE: usize = LABELS + NAME_SIZE * MOST_STATES as usize;
