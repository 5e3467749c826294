// Trees one after the other, in the order of their owners: computed terminals, actions and states' values.
ghost use Rattle.std.specs.Prelude.{[], ◌∷◌, ◌≡◌};
ghost use Rattle.std.proofs.Math.Option.{some};
ghost use Rattle.language.specs.Description.{Description, action_at, facility_at};
ghost use Rattle.language.specs.Order.{action_roots, facility_roots, function_root, operation_roots, run_roots, state_roots, trees_right, value_root};
ghost use Rattle.image_sections.specs.Declarations.{value_meant};
ghost use Rattle.image_order.specs.Edges.{after, edge};
ghost use Rattle.image_order.specs.Holds.{Actions, Facilities, Nodes, Operations, States};

use crate::{edges, starts};
use image_records::actions::Action;
use image_records::{actions, record_sizes};
use image_sections::{facilities, kinds, operations, states};

// One tree more, which ends at the record `root`.
fn tree(exprs: &[u8], at: usize, root: u16) -> usize
    ensures { (d : Description) → Nodes d exprs.now → edge result ≡ after d (edge at) (root ∷ []) }
{
    if at == edges::NONE || starts::start(exprs, root) != at {
        return edges::NONE;
    }
    let last = root as usize;
    if exprs.len() / record_sizes::NODE <= last {
        return edges::NONE;
    }
    last + 2
}

// The trees of action i.
fn action_trees(exprs: &[u8], acts: &[u8], at: usize, i: usize) -> usize
    ensures { (d : Description) → Nodes d exprs.now → Actions d acts.now → edge result ≡ after d (edge at) (action_roots d (action_at d i)) }
{
    match actions::action_at(acts, i) {
        Action::Store(_, l, r) => tree(exprs, tree(exprs, at, l), r),
        Action::StorePair(_, l, m, r) => tree(exprs, tree(exprs, tree(exprs, at, l), m), r),
        Action::Set(l) => tree(exprs, at, l),
        Action::When(c, _) => tree(exprs, at, c),
        Action::Choose(c, _, _) => tree(exprs, at, c),
        Action::Perform(_) => at,
        Action::Goto(_) => at,
        Action::Call(_) => at,
        Action::Return => at,
        Action::Arm(_) => at,
        Action::Broken => at,
    }
}

// The trees of a run of actions.
fn run_trees(exprs: &[u8], acts: &[u8], at: usize, first: u16, count: u16) -> usize
    ensures { (d : Description) → Nodes d exprs.now → Actions d acts.now → edge result ≡ after d (edge at) (run_roots d count first) }
{
    let mut end = at;
    for i in 0..count as usize {
        end = action_trees(exprs, acts, end, first as usize + i);
    }
    end
}

// The tree of facility n, if it is computed.
fn facility_tree(exprs: &[u8], facilities: &[u8], at: usize, n: usize) -> usize
    ensures { (d : Description) → Nodes d exprs.now → Facilities d facilities.now → edge result ≡ after d (edge at) (function_root d (facility_at d n) (facility_at d n).kind) }
{
    let f = facilities::facility_at(facilities, n);
    if kinds::is_computed(f.kind) {
        return tree(exprs, at, f.place);
    }
    at
}

fn facility_trees(exprs: &[u8], facilities: &[u8]) -> usize
    ensures { (d : Description) → Nodes d exprs.now → Facilities d facilities.now → edge result ≡ after d (some 0) (facility_roots d d.facilities) }
{
    let mut end = edges::FIRST;
    for n in 0..facilities.len() / record_sizes::FACILITY {
        end = facility_tree(exprs, facilities, end, n);
    }
    end
}

fn operation_trees(exprs: &[u8], acts: &[u8], operations: &[u8], at: usize) -> usize
    ensures { (d : Description) → Nodes d exprs.now → Actions d acts.now → Operations d operations.now → edge result ≡ after d (edge at) (operation_roots d d.operations) }
{
    let mut end = at;
    for n in 0..operations.len() / record_sizes::OPERATION {
        let o = operations::operation_at(operations, n);
        end = run_trees(exprs, acts, end, o.body.first, o.body.count);
    }
    end
}

// The constant that is a state's value, if it has one.
fn value_tree(exprs: &[u8], at: usize, value: Option<u16>) -> usize
    ensures { (d : Description) → Nodes d exprs.now → edge result ≡ after d (edge at) (value_root d (value_meant value)) }
{
    match value {
        Some(n) => tree(exprs, at, n),
        None => at,
    }
}

fn state_trees(exprs: &[u8], acts: &[u8], states: &[u8], at: usize) -> usize
    ensures { (d : Description) → Nodes d exprs.now → Actions d acts.now → States d states.now → edge result ≡ after d (edge at) (state_roots d d.states) }
{
    let mut end = at;
    for n in 0..states.len() / record_sizes::STATE {
        let s = states::state_at(states, n);
        let own = value_tree(exprs, end, s.value);
        end = run_trees(exprs, acts, own, s.actions.first, s.actions.count);
    }
    end
}

// Whether the expressions are the trees of their owners, in order and without gaps.
pub fn trees_right(
    facilities: &[u8],
    operations: &[u8],
    exprs: &[u8],
    acts: &[u8],
    states: &[u8],
) -> bool
    ensures { (d : Description) → Facilities d facilities.now → Operations d operations.now → Nodes d exprs.now → Actions d acts.now → States d states.now → result ≡ trees_right d }
{
    let first = facility_trees(exprs, facilities);
    let second = operation_trees(exprs, acts, operations, first);
    let last = state_trees(exprs, acts, states, second);
    edges::ends_at(last, exprs.len() / record_sizes::NODE)
}
