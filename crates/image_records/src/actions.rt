// A record of the actions, read from its bytes.
ghost use Rattle.std.specs.Prelude.{◌≡◌};
ghost use Rattle.language.specs.Decode.{action_of, action_with};
ghost use Rattle.image_records.specs.Actions.{meant};

use crate::{marks, numbers, record_sizes};

#[derive(Clone, Copy)]
pub enum Action {
    // a store's sign, what is on its left, its right side
    Store(u8, u16, u16),
    StorePair(u8, u16, u16, u16),
    Set(u16),
    Perform(u16),
    Goto(u16),
    Call(u16),
    Return,
    // a condition; how many arms, and how many records that follow, belong to it
    When(u16, u16),
    Choose(u16, u16, u16),
    Arm(u16),
    Broken,
}

// An action, by its mark.
#[tactic(auto, using(std::proofs::lemmas::Bool::Decides::nat_tests), unfolding(language::specs::Decode::action_with))]
fn action_with(mark: u8, a: u16, b: u16, c: u16) -> Action
    ensures { meant result ≡ action_with mark a b c }
{
    match mark {
        marks::STORE => Action::Store(language::kinds::DELAYED, a, b),
        marks::IMMEDIATE_STORE => Action::Store(language::kinds::EQUAL, a, b),
        marks::PAIR => Action::StorePair(language::kinds::DELAYED, a, b, c),
        marks::IMMEDIATE_PAIR => Action::StorePair(language::kinds::EQUAL, a, b, c),
        marks::SET => Action::Set(a),
        marks::PERFORM => Action::Perform(a),
        marks::GOTO => Action::Goto(a),
        marks::CALL => Action::Call(a),
        marks::RETURN => Action::Return,
        marks::WHEN => Action::When(a, b),
        marks::CHOOSE => Action::Choose(a, b, c),
        marks::ARM => Action::Arm(a),
        _ => Action::Broken,
    }
}

// Record n of a section of actions.
pub fn action_at(acts: &[u8], n: usize) -> Action
    ensures { meant result ≡ action_of acts.now n }
{
    if acts.len() / record_sizes::ACTION <= n {
        return Action::Broken;
    }
    let at = record_sizes::ACTION * n;
    let a = numbers::two_there(acts, at + 1);
    let b = numbers::two_there(acts, at + 3);
    let c = numbers::two_there(acts, at + 5);
    action_with(acts[at], a, b, c)
}
