// Lists of actions and lists of arms: each record is judged once. A list goes on by a loop, so that only what stands inside another takes stack. Every function takes the sections, and whose the list is.
ghost use Rattle.std.specs.Prelude.{◌+◌, ◌≤◌};
ghost use Rattle.judge_actions.specs.Acting.{ListsBy};
ghost use Rattle.judge_actions.specs.Listed.{arms_at, held_by, list_at, one_at};

use crate::conditionals::Branch;
use crate::{Owner, Sections, conditionals, simple};
use image_records::{actions, record_sizes};
use judge_records::places;
use judge_terms::operators;
use judge_verdicts::Verdict;

// k records from i on: a list of actions.
#[cycle(arms_list_one)]
pub fn list(sections: &Sections<'_>, own: &Owner<'_>, k: usize, i: usize) -> Verdict
    requires { i + k ≤ 0xffffffff }
    ensures { ListsBy sections.now own.now (λ d p w. list_at d p own.now.state w k i) result }
{
    let mut all = operators::nothing();
    let mut left = k;
    let mut j = i;
    // No `for`: a step goes past all records that belong to an action.
    while 0 < left {
        left -= 1;
        let b = conditionals::branch_of(actions::action_at(sections.actions, j));
        let n = conditionals::held(b);
        if left < n {
            return conditionals::no_continuation(all);
        }
        let v = one(sections, own, j, b);
        all = operators::together(all, v);
        j = j + 1 + n;
        left -= n;
    }
    all
}

// The action at record i, with the records that belong to it.
#[cycle(arms_list_one)]
fn one(sections: &Sections<'_>, own: &Owner<'_>, i: usize, b: Option<Branch>) -> Verdict
    requires { i + 1 + held_by b ≤ 0xffffffff }
    ensures { ListsBy sections.now own.now (λ d p w. one_at d p own.now.state w i b) result }
{
    let Some(b) = b else {
        return simple::simple(sections, own, i);
    };
    let at = places::of_record(sections.action_places, i);
    let records = &sections.records;
    let known = records.facilities.len() / record_sizes::FACILITY;
    let a = judge_expressions::walk::expression(records, sections.memo, known, b.condition);
    let n = b.size as usize;
    let j = i + 1;
    let inner = arms(sections, own, n, j);
    conditionals::conditional(at, b.choices, a, inner)
}

// k records from i on: a list of arms, each with at least one action.
#[cycle(arms_list_one)]
fn arms(sections: &Sections<'_>, own: &Owner<'_>, k: usize, i: usize) -> Verdict
    requires { i + k ≤ 0xffffffff }
    ensures { ListsBy sections.now own.now (λ d p w. arms_at d p own.now.state w k i) result }
{
    let mut all = operators::nothing();
    let mut left = k;
    let mut j = i;
    // No `for`: a step goes past all actions of an arm.
    while 0 < left {
        left -= 1;
        let n = conditionals::arm_size(actions::action_at(sections.actions, j), left);
        if n == 0 {
            return conditionals::no_continuation(all);
        }
        let q = j + 1;
        let body = list(sections, own, n, q);
        all = conditionals::arm(all, body);
        j = q + n;
        left -= n;
    }
    all
}
