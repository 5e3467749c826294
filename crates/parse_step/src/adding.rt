// A record added behind the others.
ghost use Rattle.std.specs.Prelude.{◌≡◌, ◌-◌};
ghost use Rattle.language.specs.Describe.{constant_nodes, constant_size};
ghost use Rattle.language.specs.Encode.{node_bytes};
ghost use Rattle.image_records.specs.Nodes.{meant};
ghost use Rattle.value_operators.specs.Meaning.{valued};
ghost use Rattle.text_words.specs.Meaning.{positioned};
ghost use Rattle.parse_array.specs.Held.{fields};
ghost use Rattle.parse_step.specs.Gained.{Gained, Written, eased_state, with_action_count, with_node_count};

use crate::{Answer, Reached, State, Unread};
use image_records::nodes::Node;
use parse_array::layout::MOST_NODES;
use parse_array::nodes::Beside;
use parse_array::{Work, constants, nodes};
use text_words::Word;

// The number of the last of n records.
pub fn last(n: u16) -> u16
    ensures { result ≡ n - 1 }
{
    n.saturating_sub(1)
}

// The same state with another number of expression records.
pub fn with_nodes(s: State, nodes: u16) -> State
    ensures { result ≡ with_node_count s nodes }
{
    State { nodes, ..s }
}

// The same state with another number of action records.
pub fn with_actions(s: State, actions: u16) -> State
    ensures { result ≡ with_action_count s actions }
{
    State { actions, ..s }
}

// Adds an expression's record; the word after it has been seen.
pub fn add(work: &mut Work, next: Word, s: State, node: Node, v: u64, beside: Beside) -> Answer
    ensures { Gained next s (node_bytes (meant v node)) (fields beside) work.old work.new result }
{
    match nodes::add_node(work, s.nodes, node, v, beside) {
        Some(nodes) => Ok(Reached {
            next,
            state: with_nodes(s, nodes),
        }),
        None => Err(Unread::Full(s)),
    }
}

// Adds the records of a constant; the word after it has been seen.
pub fn add_constant(work: &mut Work, w: Word, next: Word, s: State) -> Answer
    ensures { Written (constant_nodes (valued w.value) (positioned w.at)) (constant_size (valued w.value)) next s work.old work.new result }
{
    match constants::add_constant(work, s.nodes, w.value, w.at) {
        Some(nodes) => Ok(Reached {
            next,
            state: with_nodes(s, nodes),
        }),
        None => Err(Unread::Full(with_nodes(s, s.nodes.max(MOST_NODES)))),
    }
}

// The state behind a prefix operator's operand.
pub fn eased(s: State) -> State
    ensures { result ≡ eased_state s }
{
    State {
        nesting: last(s.nesting),
        ..s
    }
}
