// Expressions, record by record: an owner is judged by the verdicts on its parts, which stand before it. Every function takes the records, what is kept of computed terminals with what is noted of records (`memo`), and how many facilities may be named.
ghost use Rattle.std.proofs.Math.Option.{none};
ghost use Rattle.std.specs.Prelude.{◌≡◌, ℕ, IfSome};
ghost use Rattle.language.specs.Description.{Description, Places, node_at, node_place};
ghost use Rattle.language.specs.Expressions.{expression_at, judge_at, judge_below, left_at, proper_at};
ghost use Rattle.language.specs.Judging as L;
ghost use Rattle.language.specs.ReferenceRules.{reference_judged, subscripts_judged};
ghost use Rattle.language.specs.References.{reference_of};
ghost use Rattle.store_geometry.specs.Subscripts.{subscripts_meant};
ghost use Rattle.judge_verdicts.specs.Meaning.{seen};
ghost use Rattle.judge_expressions.specs.Judging.{JudgesBy, NotesBy, ShownBy};

use crate::{Records, operands};
use image_records::nodes;
use image_records::nodes::Node;
use judge_records::{facilities, places};
use judge_terms::{bounds, operators, references};
use judge_verdicts::{Verdict, faults, noted, tests};
use language::refusals::Refusal;
use store_geometry::subscripts;
use store_geometry::subscripts::Subscripts;

// Part a of record n, which must stand before it: as it is noted, or else judged.
#[cycle(judge_operand_operator_part_referred_subscripts)]
fn part(records: &Records<'_>, memo: &[usize], known: usize, n: u16, a: u16) -> Verdict
    ensures { JudgesBy records.now memo.now known (λ d p t. judge_below d p t known n a) result }
{
    if n <= a {
        return faults::refused(places::nowhere(), Refusal::NoContinuation);
    }
    match noted::find(memo, a) {
        Some(e) => operands::noted_operand(e),
        None => judge(records, memo, known, a),
    }
}

// Operand a of record n.
#[cycle(judge_operand_operator_part_referred_subscripts)]
fn operand(records: &Records<'_>, memo: &[usize], known: usize, n: u16, a: u16) -> Verdict
    ensures { JudgesBy records.now memo.now known (λ d p t. proper_at d p t known (judge_below d p t known n) a) result }
{
    let at = places::of_node(records.expression_places, a as usize, 0);
    tests::proper(at, part(records, memo, known, n, a))
}

// The subscripts of record n.
#[cycle(judge_operand_operator_part_referred_subscripts)]
fn subscripts(records: &Records<'_>, memo: &[usize], known: usize, n: u16, s: Subscripts) -> Verdict
    ensures { JudgesBy records.now memo.now known (λ d p t. subscripts_judged d p t (judge_below d p t known n) (subscripts_meant s)) result }
{
    match s {
        Subscripts::Whole | Subscripts::Part(_) => operators::nothing(),
        Subscripts::One(e) | Subscripts::WordPart(e, _) => operand(records, memo, known, n, e),
        Subscripts::Two(e, g) => {
            let x = operand(records, memo, known, n, e);
            operators::together(x, operand(records, memo, known, n, g))
        }
    }
}

// The reference that record n is, without work of its own.
#[cycle(judge_operand_operator_part_referred_subscripts)]
fn referred(
    records: &Records<'_>,
    memo: &[usize],
    known: usize,
    n: u16,
    f: u8,
    s: Subscripts,
) -> Verdict
    ensures { JudgesBy records.now memo.now known (λ d p t. reference_judged d p t (judge_below d p t known n) 0 known (record { facility = f; subscripts = subscripts_meant s }) (node_place p n)) result }
{
    let at = places::of_node(records.expression_places, n as usize, 0);
    if known <= f as usize {
        return faults::refused(at, Refusal::BadName);
    }
    let x = facilities::facility_at(records.facilities, records.facility_places, f as usize);
    let subs = subscripts(records, memo, known, n, s);
    if subscripts::right_count(x.dimensions, s) {
        let length = bounds::taken_length(x, s);
        let places = records.expression_places;
        let ends = references::bound_faults(records.expressions, places, n, x, s);
        let direction = references::direction_faults(places, n, x, s);
        let computed = references::computed_work(memo, f, x.kind);
        return references::counted_right(at, length, subs, ends, direction, computed);
    }
    references::counted_wrong(at, subs)
}

// Record n, which is no reference.
#[cycle(judge_operand_operator_part_referred_subscripts)]
fn operator(records: &Records<'_>, memo: &[usize], known: usize, n: u16) -> Verdict
    ensures { (d : Description) (p : Places) (t : ℕ → L.Judged) → reference_of (node_at d n) ≡ none → ShownBy records.now memo.now known d p t → result ≡ seen (judge_at d p t known n) }
{
    let at = places::of_node(records.expression_places, n as usize, 0);
    match nodes::node_at(records.expressions, n as usize) {
        Node::Constant(l) => operators::constant(at, l),
        Node::More(_) => faults::refused(at, Refusal::NoContinuation),
        Node::Binary(k, a, b) => {
            let x = operand(records, memo, known, n, a);
            operators::binary(at, k, x, operand(records, memo, known, n, b))
        }
        Node::Prefix(k, a) => operators::prefix(at, k, operand(records, memo, known, n, a)),
        Node::Cut(k, a, c) => operators::cut(at, k, operand(records, memo, known, n, a), c),
        Node::FirstArm(e) => operators::first_arm(operand(records, memo, known, n, e)),
        Node::NextArm(a, e) => {
            let x = tests::arm_list(at, part(records, memo, known, n, a));
            operators::next_arm(x, operand(records, memo, known, n, e))
        }
        Node::Choice(e, a, c) => {
            let x = operand(records, memo, known, n, e);
            let y = tests::arm_list(at, part(records, memo, known, n, a));
            operators::choice(at, c, x, y)
        }
        _ => faults::refused(at, Refusal::BadName),
    }
}

// The expression that record n is.
#[cycle(judge_operand_operator_part_referred_subscripts)]
fn judge(records: &Records<'_>, memo: &[usize], known: usize, n: u16) -> Verdict
    ensures { JudgesBy records.now memo.now known (λ d p t. judge_at d p t known n) result }
{
    match references::reference_at(records.expressions, records.expression_places, n) {
        Some((f, s)) => operands::with_own(referred(records, memo, known, n, f, s)),
        None => operator(records, memo, known, n),
    }
}

// Record n in one number, judged by what is noted of those before it, where it has room there.
pub fn note(records: &Records<'_>, memo: &[usize], known: usize, n: u16) -> Option<usize>
    ensures { IfSome result (NotesBy records.now memo.now known) }
{
    match references::reference_at(records.expressions, records.expression_places, n) {
        Some((f, s)) => noted::note(n, true, referred(records, memo, known, n, f, s)),
        None => noted::note(n, false, operator(records, memo, known, n)),
    }
}

// The expression that record n is, on its own.
pub fn expression(records: &Records<'_>, memo: &[usize], known: usize, n: u16) -> Verdict
    ensures { JudgesBy records.now memo.now known (λ d p t. expression_at d p t known n) result }
{
    let at = places::of_node(records.expression_places, n as usize, 0);
    match noted::find(memo, n) {
        Some(e) => tests::proper(at, operands::noted_operand(e)),
        None => tests::proper(at, judge(records, memo, known, n)),
    }
}

// The left side of a store: a reference, which is no operand.
pub fn left(records: &Records<'_>, memo: &[usize], known: usize, n: u16) -> Verdict
    ensures { JudgesBy records.now memo.now known (λ d p t. left_at d p t known n) result }
{
    if let Some(e) = noted::find(memo, n)
        && noted::is_reference(e)
    {
        return noted::verdict(e);
    }
    match references::reference_at(records.expressions, records.expression_places, n) {
        Some((f, s)) => referred(records, memo, known, n, f, s),
        None => {
            let at = places::of_node(records.expression_places, n as usize, 0);
            faults::refused(at, Refusal::BadName)
        }
    }
}
