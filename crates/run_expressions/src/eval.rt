// What a record of the expressions is worth, from its parts, which stand before it. Only what is needed is worked out.
ghost use Rattle.std.specs.Prelude.{◌≡◌};
ghost use Rattle.language.specs.Acting.{side};
ghost use Rattle.language.specs.Meaning as M;
ghost use Rattle.language.specs.Meaning.{eval_at, eval_below, place_of};
ghost use Rattle.language.specs.Operators.{binary_of, is_binary};
ghost use Rattle.language.specs.References.{reference_of};
ghost use Rattle.image_records.specs.Nodes.{meant};
ghost use Rattle.store_geometry.specs.Subscripts.{subscripts_meant};
ghost use Rattle.store_layout.specs.InBytes.{bytes};
ghost use Rattle.run_references.specs.Places.{Worked, found_meant, referred, refers_to};
ghost use Rattle.run_expressions.specs.Images.{ForImage};
ghost use Rattle.run_expressions.specs.Sides.{PlaceWorked, SideRead, SideThere, side_meant};
ghost use Rattle.run_references.specs.Worth.{answered};

use crate::chains;
use image_records::nodes::Node;
use image_records::{nodes, record_sizes};
use image_sections::facilities::FacilityRecord;
use image_sections::sections::Sections;
use image_sections::{facilities, kinds};
use run_references::distances::Sought;
use run_references::places::{Distance, Place};
use run_references::worth::{Halted, Stuck, Worth};
use run_references::{arms, constants, distances, places, reading, references, whole, worth};
use store_geometry::subscripts;
use store_geometry::subscripts::Subscripts;

// The facility that a reference names and the place in it, or why there is none.
pub type Side = Result<(FacilityRecord, Place), Halted>;

// How far a subscript is from its first bound, where there is one to work out.
#[cycle(arm_binary_choice_distance_eval_operand_other_part)]
fn distance(image: &Sections, store: &[u8], n: usize, s: Sought) -> Distance
    ensures { ForImage image.now store.now (λ d x. Worked (eval_below (bytes d) d x n) s result) }
{
    match s {
        Some((e, b)) => places::subscript(part(image, store, n, e), b),
        None => Ok(0),
    }
}

// The place that a reference names by the distances of its subscripts, which count where its facility is there and their number is right. It stands apart from what works them out, so that no place is on the stack meanwhile.
fn place(section: &[u8], number: u8, s: Subscripts, at: Distance, inside: Distance) -> Side
    ensures { SideRead section.now number result × PlaceWorked section.now number s at inside result }
{
    let f = facilities::facility_at(section, number as usize);
    if section.len() / record_sizes::FACILITY <= number as usize {
        return Err(Halted::Stuck(Stuck::NoFacility));
    }
    if !subscripts::right_count(f.dimensions, s) {
        return Err(Halted::Stuck(Stuck::WrongSubscripts));
    }
    Ok((f, distances::located(number, f, s, at, inside)?))
}

// The place that a reference at record n names, its subscripts worked out.
fn subscripted(image: &Sections, store: &[u8], n: usize, number: u8, s: Subscripts) -> Side
    ensures { SideRead image.now.facilities.now number result × ForImage image.now store.now (λ d x. side_meant result ≡ place_of d (eval_below (bytes d) d x n) (refers_to number s)) }
{
    let first = distances::first(image.facilities, number, s);
    let at = distance(image, store, n, first);
    let second = distances::second(image.facilities, number, s, at);
    let inside = distance(image, store, n, second);
    place(image.facilities, number, s, at, inside)
}

// The place that a reference at record n names; a whole facility, the left side met most, has no subscripts to work out.
pub fn place_of(image: &Sections, store: &[u8], n: usize, number: u8, s: Subscripts) -> Side
    ensures { SideRead image.now.facilities.now number result × ForImage image.now store.now (λ d x. side_meant result ≡ place_of d (eval_below (bytes d) d x n) (refers_to number s)) }
{
    match s {
        Subscripts::Whole => place(image.facilities, number, s, Ok(0), Ok(0)),
        _ => subscripted(image, store, n, number, s),
    }
}

// The value of what a reference names. It works the subscripts out itself: place_of would stand on the stack once for each subscript in another.
#[cycle(arm_binary_choice_distance_eval_operand_other_part)]
fn operand(image: &Sections, store: &[u8], n: usize, number: u8, s: Subscripts) -> Worth
    ensures { ForImage image.now store.now (λ d x. answered result ≡ M.operand (bytes d) d x (eval_below (bytes d) d x n) number (subscripts_meant s)) }
{
    let first = distances::first(image.facilities, number, s);
    let at = distance(image, store, n, first);
    let second = distances::second(image.facilities, number, s, at);
    let inside = distance(image, store, n, second);
    let (f, p) = place(image.facilities, number, s, at, inside)?;
    if kinds::is_computed(f.kind) {
        let w = part(image, store, n, f.place);
        return reading::of_computed(f, p, w);
    }
    Ok(reading::of_stored(store, f, p))
}

// The arm that a conditional takes, if it has one.
#[cycle(arm_binary_choice_distance_eval_operand_other_part)]
fn arm(
    image: &Sections,
    store: &[u8],
    n: usize,
    last: u16,
    count: u16,
    number: Option<u16>,
) -> Worth
    ensures { ForImage image.now store.now (λ d x. answered result ≡ M.chosen (bytes d) d x (eval_below (bytes d) d x n) last count (found_meant number)) }
{
    let k = number.ok_or(Halted::Stuck(Stuck::NoArm))?;
    let back = (count as u32).saturating_sub(k as u32);
    let e = arms::arm_back(image.expressions, last, back).ok_or(Halted::Stuck(Stuck::MissingArm))?;
    part(image, store, n, e)
}

// A conditional: its condition, and the chosen arm.
#[cycle(arm_binary_choice_distance_eval_operand_other_part)]
fn choice(image: &Sections, store: &[u8], n: usize, e: u16, last: u16, count: u16) -> Worth
    ensures { ForImage image.now store.now (λ d x. answered result ≡ M.after (eval_below (bytes d) d x n e) (M.choice_worth (bytes d) d x (eval_below (bytes d) d x n) last count)) }
{
    let v = part(image, store, n, e)?;
    if !arms::decides(count, v) {
        return Err(Halted::Stuck(Stuck::NotOneBit));
    }
    let number = arms::arm_number(count, v);
    arm(image, store, n, last, count, number)
}

// An operator between two operands, the left one first.
#[cycle(arm_binary_choice_distance_eval_operand_other_part)]
fn binary(image: &Sections, store: &[u8], n: usize, kind: u8, a: u16, b: u16) -> Worth
    ensures { ForImage image.now store.now (λ d x. answered result ≡ M.after (eval_below (bytes d) d x n a) (λ v. M.after (eval_below (bytes d) d x n b) (λ w. M.worth_or (M.missed (is_binary kind) M.wrong_length) (binary_of kind v w)))) }
{
    let v = part(image, store, n, a)?;
    let w = part(image, store, n, b);
    worth::binary(kind, v, w)
}

// A reference, of which a whole stored facility is read at once, or a record that is no expression.
#[cycle(arm_binary_choice_distance_eval_operand_other_part)]
fn other(image: &Sections, store: &[u8], n: usize, node: Node) -> Worth
    ensures { ForImage image.now store.now (λ d x. answered result ≡ referred (bytes d) d x (eval_below (bytes d) d x n) (reference_of (meant 0 node))) }
{
    if let Some(v) = whole::whole(image.facilities, store, node) {
        return Ok(v);
    }
    match references::reference_of(node) {
        Some((number, s)) => operand(image, store, n, number, s),
        None => Err(Halted::Stuck(Stuck::WrongRecord)),
    }
}

// The worth of record n: that of the lowest record of the chain that ends there, which alone is worked out by recursion, and up the chain from it. A prefix operator or a cut has its operand's worth in hand, to go on from.
#[cycle(arm_binary_choice_distance_eval_operand_other_part)]
pub fn eval(image: &Sections, store: &[u8], n: usize) -> Worth
    ensures { ForImage image.now store.now (λ d x. answered result ≡ eval_at (bytes d) d x n) }
{
    let m = chains::foot(image.expressions, n);
    let node = nodes::node_at(image.expressions, m);
    let w = match node {
        Node::Constant(_) => Ok(constants::constant_at(image.expressions, m)),
        Node::Binary(k, a, b) => binary(image, store, m, k, a, b),
        Node::Prefix(_, a) | Node::Cut(_, a, _) => part(image, store, m, a),
        Node::Choice(e, last, count) => choice(image, store, m, e, last, count),
        _ => other(image, store, m, node),
    };
    chains::ended(image.expressions, m, n, w)
}

// The worth of a part, which stands before its owner at record n.
#[cycle(arm_binary_choice_distance_eval_operand_other_part)]
fn part(image: &Sections, store: &[u8], n: usize, a: u16) -> Worth
    ensures { ForImage image.now store.now (λ d x. answered result ≡ eval_below (bytes d) d x n a) }
{
    if n <= a as usize {
        return Err(Halted::Stuck(Stuck::NotBefore));
    }
    eval(image, store, a as usize)
}

// The place that the left side at record n names.
pub fn left_side(image: &Sections, store: &[u8], n: usize) -> Side
    ensures { ForImage image.now store.now (λ d x. (side_meant result ≡ side (bytes d) d x n) × SideThere d image.now.facilities.now result) }
{
    match references::reference_of(nodes::node_at(image.expressions, n)) {
        Some((number, s)) => place_of(image, store, n, number, s),
        None => Err(Halted::Stuck(Stuck::WrongRecord)),
    }
}
