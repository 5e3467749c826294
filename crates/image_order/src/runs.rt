// Runs of actions one after the other: those of operations, then those of states.
ghost use Rattle.std.specs.Prelude.{◌≡◌};
ghost use Rattle.language.specs.Description.{Description};
ghost use Rattle.language.specs.Order.{ending, operations_end, runs_right, states_end};
ghost use Rattle.image_sections.specs.Declarations.{run_meant};
ghost use Rattle.image_order.specs.Edges.{edge, run_end};
ghost use Rattle.image_order.specs.Holds.{Actions, Operations, States};

use crate::edges;
use image_records::record_sizes;
use image_sections::runs::Run;
use image_sections::{operations, states};

// One run more, which is to begin where the last one ended.
fn run_end(at: usize, run: Run) -> usize
    ensures { edge result ≡ run_end (edge at) (run_meant run) }
{
    let first = run.first as usize;
    if first + 1 != at {
        return edges::NONE;
    }
    first + 1 + run.count as usize
}

fn operations_end(operations: &[u8]) -> usize
    ensures { (d : Description) → Operations d operations.now → edge result ≡ operations_end d 0 d.operations }
{
    let mut end = edges::FIRST;
    for n in 0..operations.len() / record_sizes::OPERATION {
        end = run_end(end, operations::operation_at(operations, n).body);
    }
    end
}

fn states_end(states: &[u8], at: usize) -> usize
    ensures { (d : Description) → States d states.now → edge result ≡ ending (edge at) (λ n. states_end d n d.states) }
{
    let mut end = at;
    for n in 0..states.len() / record_sizes::STATE {
        end = run_end(end, states::state_at(states, n).actions);
    }
    end
}

// Whether the runs are all actions, in order and without gaps.
pub fn runs_right(operations: &[u8], acts: &[u8], states: &[u8]) -> bool
    ensures { (d : Description) → Operations d operations.now → Actions d acts.now → States d states.now → result ≡ runs_right d }
{
    let middle = operations_end(operations);
    let last = states_end(states, middle);
    edges::ends_at(last, acts.len() / record_sizes::ACTION)
}
