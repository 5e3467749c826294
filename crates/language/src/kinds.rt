// The kinds of words (the manual, 2.1), a number for each symbol and each reserved word, as specs/Kinds.antt names them.

// A name and a constant have kinds of their own.
pub const NAME: u8 = 1;

pub const CONSTANT: u8 = 2;

// Single symbols: # $ ( ) * + , - . / : ; < = > @ [ ]
pub const HASH: u8 = 3;

pub const DOLLAR: u8 = 4;

pub const OPEN_PAREN: u8 = 5;

pub const CLOSE_PAREN: u8 = 6;

pub const STAR: u8 = 7;

pub const PLUS: u8 = 8;

pub const COMMA: u8 = 9;

pub const MINUS: u8 = 10;

pub const PERIOD: u8 = 11;

pub const SLASH: u8 = 12;

pub const COLON: u8 = 13;

pub const SEMICOLON: u8 = 14;

pub const LESS: u8 = 15;

pub const EQUAL: u8 = 16;

pub const GREATER: u8 = 17;

pub const AT: u8 = 18;

pub const OPEN_BRACKET: u8 = 19;

pub const CLOSE_BRACKET: u8 = 20;

// Multiple ones: [+] (+) (-) (=) >= <= -> => <-
pub const EXCLUSIVE: u8 = 21;

pub const SUM: u8 = 22;

pub const DIFFERENCE: u8 = 23;

pub const SAME: u8 = 24;

pub const AT_LEAST: u8 = 25;

pub const AT_MOST: u8 = 26;

pub const GOTO: u8 = 27;

pub const CALL: u8 = 28;

pub const DELAYED: u8 = 29;

// Reserved words; no rule has TIME (43), OUTPUT (45) or LEVEL (46).
pub const CASE: u8 = 30;

pub const DO: u8 = 31;

pub const END_CASE: u8 = 32;

pub const IF: u8 = 33;

pub const THEN: u8 = 34;

pub const ELSE: u8 = 35;

pub const END_IF: u8 = 36;

pub const END: u8 = 37;

pub const CON: u8 = 38;

pub const RED: u8 = 39;

pub const EXT: u8 = 40;

pub const HEAD: u8 = 41;

pub const TAIL: u8 = 42;

pub const INPUT: u8 = 44;

pub const RETURN: u8 = 47;

pub const REGISTER: u8 = 48;

pub const MEMORY: u8 = 49;

pub const TERMINAL: u8 = 50;

pub const OPERATION: u8 = 51;

pub const CONTROL: u8 = 52;
