// The levels of an expression, the ranks of the operators that go on with one, and the prefix operators that begin one (the manual, 5.1 and 5.2).
#![tactic(auto)]

pub mod heads;
pub mod ranks;

// What an expression is read as, the tightest first; a chain is a complement without its sign.
#[derive(Clone, Copy)]
pub enum Level {
    Term,
    Arithmetic,
    Adjustment,
    Reduction,
    Chain,
    Complement,
    Product,
    Minterm,
    Expression,
}

// The operators behind an operand, the tightest first.
#[derive(Clone, Copy)]
pub enum Rank {
    Sum,
    Relation,
    Cut,
    Con,
    And,
    Exclusive,
    Or,
    Beyond,
}

// What stands before the first operand.
#[derive(Clone, Copy)]
pub enum Lead {
    Plain,
    Negation,
    Reduction,
    Complement,
}
