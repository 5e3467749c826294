// The table of the operators by the kinds of their words: which stand at a level together, how long a result is, and what it is.
ghost use Rattle.std.specs.Prelude.{◌≡◌};
ghost use Rattle.language.specs.Operators.{binary_length, binary_of, cut_length_of, cut_of, is_binary, is_cut, is_prefix, is_relation, prefix_length, prefix_of};
ghost use Rattle.value_operators.specs.Meaning.{Means, valued};

use crate::{Value, arithmetic, lengths, logical, reductions, relations, substrings};
use language::kinds;

// ---- The operators of which a level has several.

pub const SUM_SIGNS: [u8; 2] = [kinds::SUM, kinds::DIFFERENCE];

pub const RELATION_SIGNS: [u8; 6] = [
    kinds::SAME,
    kinds::HASH,
    kinds::LESS,
    kinds::GREATER,
    kinds::AT_MOST,
    kinds::AT_LEAST,
];

pub const CUT_WORDS: [u8; 3] = [kinds::HEAD, kinds::TAIL, kinds::EXT];

// The signs that stand before RED.
pub const REDUCTION_SIGNS: [u8; 4] = [kinds::PLUS, kinds::STAR, kinds::EXCLUSIVE, kinds::SUM];

// ---- How long a result is; 0 stands for a broken rule.

// Whether a word is one of the relations: # < > (=) >= <=.
#[tactic(auto, using(std::proofs::lemmas::Bool::Decides::nat_tests))]
fn is_relation(kind: u8) -> bool
    ensures { result ≡ is_relation kind }
{
    match kind {
        kinds::SAME
        | kinds::HASH
        | kinds::LESS
        | kinds::GREATER
        | kinds::AT_MOST
        | kinds::AT_LEAST => true,
        _ => false,
    }
}

// An operator with two operands.
#[tactic(auto, using(std::proofs::lemmas::Bool::Decides::nat_tests), unfolding(language::specs::Operators::binary_length))]
pub fn binary_length(kind: u8, m: u16, n: u16) -> u32
    ensures { result ≡ binary_length kind m n }
{
    match kind {
        kinds::SUM => lengths::sum_length(m, n),
        kinds::DIFFERENCE => lengths::difference_length(m, n),
        kinds::CON => lengths::join_length(m, n),
        kinds::PLUS | kinds::STAR | kinds::EXCLUSIVE => { lengths::logical_length(m, n) }
        _ if is_relation(kind) => lengths::relation_length(),
        _ => 0,
    }
}

// An operator before its operand.
#[tactic(auto, using(std::proofs::lemmas::Bool::Decides::nat_tests), unfolding(language::specs::Operators::prefix_length))]
pub fn prefix_length(kind: u8, m: u16) -> u32
    ensures { result ≡ prefix_length kind m }
{
    match kind {
        kinds::MINUS => lengths::complement_length(m),
        kinds::DIFFERENCE => lengths::negation_length(m),
        kinds::SUM => lengths::count_length(),
        kinds::PLUS | kinds::STAR | kinds::EXCLUSIVE => { lengths::reduction_length() }
        _ => 0,
    }
}

// HEAD, TAIL and EXT with a count.
#[tactic(auto, using(std::proofs::lemmas::Bool::Decides::nat_tests), unfolding(language::specs::Operators::cut_length_of))]
pub fn cut_length(kind: u8, m: u16, c: u16) -> u32
    ensures { result ≡ cut_length_of kind m c }
{
    match kind {
        kinds::HEAD | kinds::TAIL => lengths::cut_length(m, c),
        kinds::EXT => lengths::repeat_length(m, c),
        _ => 0,
    }
}

// ---- Which words are operators: those that have a length where the operands have one bit each.

pub fn is_binary(kind: u8) -> bool
    ensures { result ≡ is_binary kind }
{
    0 < binary_length(kind, 1, 1)
}

pub fn is_prefix(kind: u8) -> bool
    ensures { result ≡ is_prefix kind }
{
    0 < prefix_length(kind, 1)
}

pub fn is_cut(kind: u8) -> bool
    ensures { result ≡ is_cut kind }
{
    0 < cut_length(kind, 1, 1)
}

// ---- What it is.

// An operator between two operands; no value where a kind is none.
#[tactic(auto, using(std::proofs::lemmas::Bool::Decides::nat_tests, crate::proofs::Fits::none_means), unfolding(language::specs::Operators::binary_of))]
pub fn binary(kind: u8, x: Value, y: Value) -> Option<Value>
    ensures { Means result (binary_of kind (valued x) (valued y)) }
{
    match kind {
        kinds::SUM => arithmetic::sum(x, y),
        kinds::DIFFERENCE => arithmetic::difference(x, y),
        kinds::CON => substrings::join(x, y),
        kinds::PLUS => logical::disjunction(x, y),
        kinds::STAR => logical::conjunction(x, y),
        kinds::EXCLUSIVE => logical::exclusive(x, y),
        kinds::SAME => relations::equal(x, y),
        kinds::HASH => relations::unequal(x, y),
        kinds::LESS => relations::less(x, y),
        kinds::GREATER => relations::greater(x, y),
        kinds::AT_MOST => relations::at_most(x, y),
        kinds::AT_LEAST => relations::at_least(x, y),
        _ => None,
    }
}

// An operator before its operand; the signs of RED are by themselves.
#[tactic(auto, using(std::proofs::lemmas::Bool::Decides::nat_tests, crate::proofs::Fits::none_means), unfolding(language::specs::Operators::prefix_of))]
pub fn prefix(kind: u8, x: Value) -> Option<Value>
    ensures { Means result (prefix_of kind (valued x)) }
{
    match kind {
        kinds::MINUS => logical::complement(x),
        kinds::DIFFERENCE => arithmetic::negation(x),
        kinds::PLUS => reductions::or_reduction(x),
        kinds::STAR => reductions::and_reduction(x),
        kinds::EXCLUSIVE => reductions::exclusive_reduction(x),
        kinds::SUM => reductions::sum_reduction(x),
        _ => None,
    }
}

// HEAD, TAIL and EXT with their count.
#[tactic(auto, using(std::proofs::lemmas::Bool::Decides::nat_tests, crate::proofs::Fits::none_means), unfolding(language::specs::Operators::cut_of))]
pub fn cut(kind: u8, x: Value, c: u16) -> Option<Value>
    ensures { Means result (cut_of kind (valued x) c) }
{
    match kind {
        kinds::HEAD => substrings::head(x, c),
        kinds::TAIL => substrings::tail(x, c),
        kinds::EXT => substrings::extended(x, c),
        _ => None,
    }
}
