// Expressions noted in the order of their records, each by those before it, so that none is judged from within another: the stack stays flat however deep they are.
ghost use Rattle.std.specs.Prelude.{◌≤◌, length};
ghost use Rattle.judge_verdicts.specs.Noted.{noted_from};
ghost use Rattle.judge_expressions.specs.Judging.{FilledBy};

use crate::{Records, walk};
use image_records::nodes::Node;
use image_records::{constants, nodes};
use judge_verdicts::noted;

// How many records before it an expression's record makes one with: its parts, or the digits of a constant.
fn taken(node: Node) -> usize {
    match node {
        Node::Constant(l) => constants::further_digits(l) as usize,
        Node::One(..) | Node::WordPart(..) | Node::Prefix(..) | Node::Cut(..) => 1,
        Node::FirstArm(_) => 1,
        Node::Two(..) | Node::Binary(..) | Node::NextArm(..) | Node::Choice(..) => 2,
        Node::More(_) | Node::Whole(_) | Node::Part(..) | Node::Broken => 0,
    }
}

// The end of what is noted where record n comes: its parts give way to it, unless there is room for all.
fn end_for(es: &[u8], n: u16, end: usize, roomy: bool) -> usize
    requires { noted_from ≤ end }
    ensures { (noted_from ≤ result) × (result ≤ end) }
{
    if roomy {
        return end;
    }
    let parts = taken(nodes::node_at(es, n as usize));
    end.saturating_sub(parts).max(noted::FIRST)
}

// Whether all records from `from` up to `to` can be noted beside each other, so that each is found at once.
fn has_room(length: usize, from: u16, to: u16) -> bool {
    noted::FIRST <= length && to.saturating_sub(from) as usize <= length - noted::FIRST
}

// Notes the records from `from` up to `to`, and answers the end of what is noted then. What finds no room is judged where it is asked for.
pub fn fill(records: &Records<'_>, memo: &mut [usize], known: usize, from: u16, to: u16) -> usize
    requires { noted_from ≤ length memo.old }
    ensures { FilledBy records.now known memo.old memo.new result }
{
    let roomy = has_room(memo.len(), from, to);
    let mut end = noted::FIRST;
    for n in from..to {
        let note = walk::note(records, &memo[0..end], known, n);
        end = end_for(records.expressions, n, end, roomy);
        if let Some(e) = note
            && end < memo.len()
        {
            memo[end] = e;
            end += 1;
        }
    }
    end
}
