// Counts: how many records there are, and how many operators, operands and actions they stand for.
ghost use Rattle.std.specs.Prelude.{◌≡◌, ℕ, ◌*◌, ◌/◌, ◌<◌, ◌≤◌, leb, length};
ghost use Rattle.language.specs.Canonical.{action_count, counted_records, counts_right, left_count, node_count, total, value_count};
ghost use Rattle.language.specs.Decode.{action_with, node_of, operator_of, plain_node};
ghost use Rattle.language.specs.Description.{Description};
ghost use Rattle.language.specs.Ceilings.{most_counted};
ghost use Rattle.image_sections.specs.Declarations.{value_meant};
ghost use Rattle.image_order.specs.Holds.{Actions, Facilities, Nodes, Operations, States};
ghost use Rattle.image_form.specs.Values.{values_in};
ghost use Rattle.language.specs.Encode.{action_size, node_size, state_size};

use image_records::{constants, marks, record_sizes};
use image_sections::states;
use language::ceilings;

// The ceilings.
const MOST_FACILITIES: usize = ceilings::FACILITIES as usize;

const MOST_OPERATIONS: usize = ceilings::OPERATIONS as usize;

const MOST_STATES: usize = ceilings::STATES as usize;

const MOST_COUNTED: usize = ceilings::COUNTED as usize;

// An operator, by its mark's high bits.
#[tactic(auto, using(std::proofs::lemmas::Bool::Decides::nat_tests), unfolding(language::specs::Decode::operator_of))]
fn operator_count(mark: u8) -> usize
    ensures { (result ≤ 1) × ((a b : ℕ) → result ≡ node_count (operator_of mark a b)) }
{
    match mark / 64 {
        1..=3 => 1,
        _ => 0,
    }
}

// An operator or operand that is no constant, by its mark.
#[tactic(auto, using(std::proofs::lemmas::Bool::Decides::nat_tests), unfolding(language::specs::Decode::plain_node))]
fn plain_count(mark: u8) -> usize
    ensures { (result ≤ 1) × ((x a b c : ℕ) → result ≡ node_count (plain_node mark x a b c)) }
{
    match mark {
        marks::FIRST_ARM | marks::NEXT_ARM => 0,
        marks::WHOLE | marks::ONE | marks::PART | marks::TWO | marks::WORD_PART | marks::CHOICE =>
            1,
        _ => operator_count(mark),
    }
}

// An operator or operand: record n is not decoded, its mark says enough.
fn node_count(exprs: &[u8], n: usize) -> usize
    requires { n < length exprs.now / node_size }
    ensures { (result ≤ 1) × (result ≡ node_count (node_of exprs.now n)) }
{
    let at = record_sizes::NODE * n;
    match exprs[at] {
        marks::CONSTANT => {
            if constants::digits_marked(exprs, n, exprs[at + 1] / 48) {
                1
            } else {
                0
            }
        }
        marks::MORE => 0,
        mark => plain_count(mark),
    }
}

fn nodes_count(exprs: &[u8]) -> usize
    ensures { (result ≤ length exprs.now / node_size) × ((d : Description) → Nodes d exprs.now → result ≡ total node_count d.expressions) }
{
    let mut sum = 0;
    for n in 0..exprs.len() / record_sizes::NODE {
        sum += node_count(exprs, n);
    }
    sum
}

// An action, by its mark.
#[tactic(auto, using(std::proofs::lemmas::Bool::Decides::nat_tests), unfolding(language::specs::Decode::action_with))]
fn action_count(mark: u8) -> usize
    ensures { (result ≤ 1) × ((a b c : ℕ) → result ≡ action_count (action_with mark a b c)) }
{
    match mark {
        marks::STORE
        | marks::IMMEDIATE_STORE
        | marks::PAIR
        | marks::IMMEDIATE_PAIR
        | marks::SET
        | marks::PERFORM
        | marks::GOTO
        | marks::CALL
        | marks::RETURN
        | marks::WHEN
        | marks::CHOOSE => 1,
        _ => 0,
    }
}

// References on its left, which are no operands.
#[tactic(auto, using(std::proofs::lemmas::Bool::Decides::nat_tests), unfolding(language::specs::Decode::action_with))]
fn left_count(mark: u8) -> usize
    ensures { (result ≤ 2) × ((a b c : ℕ) → result ≡ left_count (action_with mark a b c)) }
{
    match mark {
        marks::PAIR | marks::IMMEDIATE_PAIR => 2,
        marks::STORE | marks::IMMEDIATE_STORE | marks::SET => 1,
        _ => 0,
    }
}

// Actions, and references on their left.
#[derive(Clone, Copy)]
struct Counted {
    all: usize,
    lefts: usize,
}

fn actions_count(acts: &[u8]) -> Counted
    ensures { (result.all ≤ length acts.now / action_size) × (result.lefts ≤ 2 * (length acts.now / action_size)) × ((d : Description) → Actions d acts.now → (result.all ≡ total action_count d.actions) × (result.lefts ≡ total left_count d.actions)) }
{
    let mut all = 0;
    let mut lefts = 0;
    for n in 0..acts.len() / record_sizes::ACTION {
        let mark = acts[record_sizes::ACTION * n];
        all += action_count(mark);
        lefts += left_count(mark);
    }
    Counted { all, lefts }
}

fn value_count(value: Option<u16>) -> usize
    ensures { (result ≤ 1) × (result ≡ values_in (value_meant value)) }
{
    match value {
        Some(_) => 1,
        None => 0,
    }
}

fn values_count(states: &[u8]) -> usize
    ensures { (result ≤ length states.now / state_size) × ((d : Description) → States d states.now → result ≡ total value_count d.states) }
{
    let mut sum = 0;
    for n in 0..states.len() / record_sizes::STATE {
        sum += value_count(states::state_at(states, n).value);
    }
    sum
}

// Operators, operands and actions: all but references on the left and states' values. Of few records nothing need be counted, as none counts for more than one.
fn counted_right(exprs: &[u8], acts: &[u8], states: &[u8]) -> bool
    ensures { (d : Description) → Nodes d exprs.now → Actions d acts.now → States d states.now → result ≡ leb (counted_records d) most_counted }
{
    let records = exprs.len() / record_sizes::NODE + acts.len() / record_sizes::ACTION;
    if records <= MOST_COUNTED {
        return true;
    }
    let c = actions_count(acts);
    let all = nodes_count(exprs) + c.all;
    let others = c.lefts + values_count(states);
    all <= MOST_COUNTED + others
}

pub fn counts_right(
    facilities: &[u8],
    operations: &[u8],
    exprs: &[u8],
    acts: &[u8],
    states: &[u8],
) -> bool
    ensures { (d : Description) → Facilities d facilities.now → Operations d operations.now → Nodes d exprs.now → Actions d acts.now → States d states.now → result ≡ counts_right d }
{
    let f = facilities.len() / record_sizes::FACILITY;
    let o = operations.len() / record_sizes::OPERATION;
    let s = states.len() / record_sizes::STATE;
    if MOST_FACILITIES < f {
        return false;
    }
    if MOST_OPERATIONS < o {
        return false;
    }
    if MOST_STATES < s {
        return false;
    }
    if s == 0 {
        return false;
    }
    if f == 0 {
        return false;
    }
    counted_right(exprs, acts, states)
}
