// The marks with which records begin: of expressions.
pub const CONSTANT: u8 = 1;

pub const MORE: u8 = 2;

pub const WHOLE: u8 = 3;

pub const ONE: u8 = 4;

pub const PART: u8 = 5;

pub const TWO: u8 = 6;

pub const WORD_PART: u8 = 7;

pub const FIRST_ARM: u8 = 8;

pub const NEXT_ARM: u8 = 9;

pub const CHOICE: u8 = 10;

// Operators: the kind of the word stands in the low six bits.
pub const BINARY: u16 = 64;

pub const PREFIX: u16 = 128;

pub const CUT: u16 = 192;

// Of actions; an immediate store has the mark after that of the delayed one.
pub const STORE: u8 = 1;

pub const IMMEDIATE_STORE: u8 = 2;

pub const PAIR: u8 = 3;

pub const IMMEDIATE_PAIR: u8 = 4;

pub const SET: u8 = 5;

pub const PERFORM: u8 = 6;

pub const GOTO: u8 = 7;

pub const CALL: u8 = 8;

pub const RETURN: u8 = 9;

pub const WHEN: u8 = 10;

pub const CHOOSE: u8 = 11;

pub const ARM: u8 = 12;
