// All the rules over sections, with or without places: the least of all faults.
#![tactic(auto)]

pub mod bounds;
pub mod facilities;
pub mod memory;
pub mod operations;
pub mod states;
pub mod values;
pub mod wanted;

ghost use Rattle.std.specs.Prelude.{◌≡◌, ◌+◌, ◌/◌, ◌≤◌, drop, length};
ghost use Rattle.language.specs.Decode.{names_length};
ghost use Rattle.language.specs.Encode.{facility_size, operation_size};
ghost use Rattle.judge_all.specs.BySections.{LeastBy};
ghost use Rattle.judge_verdicts.specs.Noted.{noted_from};

use image_records::{bytes, record_sizes};
use image_sections::names as parts;
use judge_actions::Sections;
use judge_expressions::{Records, filled};
use judge_names::judged;
use judge_verdicts::{faults, noted};
use text_words::Judged;

// A description in slices: its sections, and the places beside each. An image has no places.
#[derive(Clone, Copy)]
pub struct Described<'a> {
    pub facilities: &'a [u8],
    pub operations: &'a [u8],
    pub expressions: &'a [u8],
    pub actions: &'a [u8],
    pub states: &'a [u8],
    pub names: &'a [u8],
    pub facility_places: &'a [u8],
    pub operation_places: &'a [u8],
    pub expression_places: &'a [u8],
    pub action_places: &'a [u8],
    pub state_places: &'a [u8],
}

// Two numbers for each facility or operation.
const KEPT: usize = noted::FIRST;

// Expressions of an ordinary image.
const FEW: usize = 256;

// Expressions that stand side by side in any image in order: three for two that count, where two sides are stored to, one for each of 256 states, and a constant's digits.
const MOST: usize = 3334;

// The names of states, after those of facilities and operations.
fn labels_of<'a>(fs: &[u8], os: &[u8], ns: &'a [u8]) -> &'a [u8]
    requires { (length fs.now / facility_size ≤ 65536) × (length os.now / operation_size ≤ 256) }
    ensures { result.now ≡ drop (names_length (length fs.now / facility_size) 2 facility_size fs.now + names_length (length os.now / operation_size) 0 operation_size os.now) ns.now }
{
    let before = parts::names_length(
        fs,
        (fs.len() / record_sizes::FACILITY) as u32,
        parts::FACILITY_NAME,
        parts::FACILITY,
    );
    let between = parts::names_length(
        os,
        (os.len() / record_sizes::OPERATION) as u32,
        0,
        parts::OPERATION,
    );
    bytes::part(ns, before + between, ns.len())
}

// How many records of expressions there are, as far as a record can name them.
fn expressions(es: &[u8]) -> u16 {
    (es.len() / record_sizes::NODE).min(u16::MAX as usize) as u16
}

// Names, facilities, operations and states; each computed terminal, each operation and each expression is judged once, where `memo` has room for it.
fn least_in(described: &Described<'_>, memo: &mut [usize]) -> Judged
    requires { (length described.now.facilities.now / facility_size ≤ 65536) × (length described.now.operations.now / operation_size ≤ 256) × (noted_from ≤ length memo.old) }
    ensures { LeastBy described.now result }
{
    let mut kept: [usize; KEPT] = [0; KEPT];
    let labels = labels_of(described.facilities, described.operations, described.names);
    let one = judged::names(
        described.facilities,
        described.operations,
        described.states,
        described.names,
        described.facility_places,
        described.operation_places,
        described.state_places,
    );
    let records = Records {
        facilities: described.facilities,
        expressions: described.expressions,
        facility_places: described.facility_places,
        expression_places: described.expression_places,
    };
    let two = facilities::facilities(&records, memo);
    let known = described.facilities.len() / record_sizes::FACILITY;
    let count = expressions(described.expressions);
    let end = filled::fill(&records, memo, known, two.next, count);
    let sections = Sections {
        records,
        memo: &memo[0..end],
        actions: described.actions,
        action_places: described.action_places,
        states: described.states,
        labels,
    };
    let three = operations::operations(&sections, described.operations, &mut kept);
    let four = states::states(
        &sections,
        described.operations,
        &kept,
        described.state_places,
    );
    faults::also(one, faults::also(two.faults, faults::also(three, four)))
}

// The least of all faults. What is noted takes less room where there are few expressions, since all of it is cleared first.
pub fn least_fault(described: &Described<'_>) -> Judged
    requires { (length described.now.facilities.now / facility_size ≤ 65536) × (length described.now.operations.now / operation_size ≤ 256) }
    ensures { LeastBy described.now result }
{
    if described.expressions.len() / record_sizes::NODE <= FEW {
        let mut memo: [usize; KEPT + FEW] = [0; KEPT + FEW];
        return least_in(described, &mut memo);
    }
    let mut memo: [usize; KEPT + MOST] = [0; KEPT + MOST];
    least_in(described, &mut memo)
}
