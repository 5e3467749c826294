// A state's record; its label stands elsewhere.
ghost use Rattle.std.specs.Prelude.{◌≡◌, length};
ghost use Rattle.language.specs.Decode.{value_of};
ghost use Rattle.language.specs.Encode.{state_record, value_field};
ghost use Rattle.language.specs.Tree.{Name};
ghost use Rattle.image_sections.specs.Declarations.{StateRead, state_meant, value_meant};

use crate::runs;
use crate::runs::Run;
use image_records::{numbers, record_sizes};

#[derive(Clone, Copy)]
pub struct StateRecord {
    // the length of its label
    pub name: u8,
    // the number of the constant that is its value, if it has one
    pub value: Option<u16>,
    pub actions: Run,
}

// The field of a state without a value.
const NO_VALUE: u16 = 65535;

// The value that a field stands for.
#[tactic(auto, using(std::proofs::lemmas::Bool::Decides::nat_tests), unfolding(language::specs::Decode::value_of))]
fn value_of(n: u16) -> Option<u16>
    ensures { value_meant result ≡ value_of n }
{
    if n == NO_VALUE { None } else { Some(n) }
}

// Record n of a section of states.
pub fn state_at(states: &[u8], n: usize) -> StateRecord
    ensures { StateRead states.now n result }
{
    if states.len() / record_sizes::STATE <= n {
        return StateRecord {
            name: 0,
            value: None,
            actions: Run { first: 0, count: 0 },
        };
    }
    let at = record_sizes::STATE * n;
    StateRecord {
        name: states[at],
        value: value_of(numbers::two_there(states, at + 1)),
        actions: runs::run_at(states, at + 3),
    }
}

// The field that stands for a value.
fn value_field(value: Option<u16>) -> u16
    ensures { result ≡ value_field (value_meant value) }
{
    value.unwrap_or(NO_VALUE)
}

// The bytes of a record.
#[tactic(auto, unfolding(language::specs::Encode::state_record, language::specs::Encode::little))]
pub fn state_bytes(s: StateRecord) -> [u8; record_sizes::STATE]
    ensures { (name : Name) → length name ≡ s.name → result ≡ state_record (state_meant name s) }
{
    let [v0, v1] = value_field(s.value).to_le_bytes();
    let [f0, f1] = s.actions.first.to_le_bytes();
    let [c0, c1] = s.actions.count.to_le_bytes();
    [s.name, v0, v1, f0, f1, c0, c1]
}
