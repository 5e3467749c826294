// How many records of each section there are.
ghost use Rattle.std.specs.Prelude.{◌≡◌, ◌≤◌};
ghost use Rattle.image_sections.specs.Header.{names_from};
ghost use Rattle.parse_held.specs.Sections.{Few, counts_held, within as Within};

use crate::Holding;
use image_records::record_sizes;
use image_sections::header::Counts;
use parse_array::layout;

// As many as there is room for in the array.
#[tactic(auto, unfolding(crate::specs::Sections::within))]
pub fn within(c: Holding) -> Holding
    ensures { (result ≡ Within c) × Few result }
{
    Holding {
        facilities: c.facilities.min(layout::MOST_FACILITIES),
        operations: c.operations.min(layout::MOST_OPERATIONS),
        nodes: c.nodes.min(layout::MOST_NODES),
        actions: c.actions.min(layout::MOST_ACTIONS),
        states: c.states.min(layout::MOST_STATES),
    }
}

// Where the names begin in an image.
pub fn names_from(c: Holding) -> usize
    ensures { (result ≡ names_from (counts_held c 0)) × (result ≤ 3000000) }
{
    let operations = record_sizes::HEADER + record_sizes::FACILITY * c.facilities as usize;
    let expressions = operations + record_sizes::OPERATION * c.operations as usize;
    let actions = expressions + record_sizes::NODE * c.nodes as usize;
    let states = actions + record_sizes::ACTION * c.actions as usize;
    states + record_sizes::STATE * c.states as usize
}

// What a header counts.
pub fn header_counts(c: Holding, names: u32) -> Counts
    ensures { result ≡ counts_held c names }
{
    Counts {
        facilities: c.facilities as u32,
        operations: c.operations as u32,
        expressions: c.nodes as u32,
        actions: c.actions as u32,
        states: c.states as u32,
        names,
    }
}
