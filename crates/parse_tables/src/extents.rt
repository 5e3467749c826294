// The dimensions that a declaration gives.
use text_words::Position;

// First and last bound of a dimension, at most 65,536 each, and where they stand.
#[derive(Clone, Copy)]
pub struct Ends {
    pub first: u32,
    pub left: Position,
    pub last: u32,
    pub right: Position,
}

// With one dimension only the bits have bounds, with none neither.
#[derive(Clone, Copy)]
pub struct Extent {
    pub dimensions: u8,
    pub words: Ends,
    pub bits: Ends,
}
