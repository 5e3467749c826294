// The item at the start of a text (the manual, 2.1 to 2.4): blanks, a comment, a name, a constant or a symbol.
#![tactic(auto)]

ghost use Rattle.std.specs.Prelude.{◌≡◌};
ghost use Rattle.text_items.specs.Meaning.{made_item, plain_item};

use language::refusals::Refusal;
use value_operators::Value;

pub mod constant;
pub mod digits;
pub mod items;
pub mod reserved;
pub mod symbols;

// What an item is: a gap is blanks or a comment, a sign a symbol or a reserved word by its kind, and what is wrong has its refusal.
#[derive(Clone, Copy)]
pub enum ItemKind {
    Gap,
    Name,
    Constant,
    Sign(u8),
    Wrong(Refusal),
}

// An item, how many bytes it takes, and for a constant its value and whether it was written without a length.
#[derive(Clone, Copy)]
pub struct Item {
    pub kind: ItemKind,
    pub size: usize,
    pub bare: bool,
    pub value: Value,
}

// What stands as the value where there is none.
const BLANK: Value = Value {
    limbs: [0; 4],
    length: 0,
};

// An item without a value.
pub fn plain(kind: ItemKind, size: usize) -> Item
    ensures { result ≡ plain_item kind size }
{
    Item {
        kind,
        size,
        bare: false,
        value: BLANK,
    }
}

// A constant, and where no value was made, what is wrong with it.
pub fn made(m: Option<Value>, bare: bool, size: usize) -> Item
    ensures { result ≡ made_item m bare size }
{
    let (kind, value) = match m {
        Some(value) => (ItemKind::Constant, value),
        None => (ItemKind::Wrong(Refusal::BadConstant), BLANK),
    };
    Item {
        kind,
        size,
        bare,
        value,
    }
}
