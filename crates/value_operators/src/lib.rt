// Values of up to 256 bits, handed over by value, and the operators of DDL-P on them.
#![tactic(auto)]

pub mod arithmetic;
pub mod fitting;
pub mod lengths;
pub mod logical;
pub mod numbers;
pub mod operators;
pub mod parts;
pub mod reductions;
pub mod relations;
pub mod substrings;

// A value: its bits in four limbs, the lowest first, and its length.
#[derive(Clone, Copy)]
pub struct Value {
    pub limbs: [u64; 4],
    pub length: u16,
}
