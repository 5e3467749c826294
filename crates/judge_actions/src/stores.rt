// Stores and `@`: the two sides, and what may be stored to.
ghost use Rattle.std.specs.Prelude.{◌≡◌, ◌<◌, eqb};
ghost use Rattle.image_sections.specs.Declarations.{kind_meant};
ghost use Rattle.language.specs.ActionRules.{kind_at};
ghost use Rattle.language.specs.Expressions.{expression_at, left_at};
ghost use Rattle.language.specs.Judging as L;
ghost use Rattle.language.specs.Storing.{is_plain, may_store};
ghost use Rattle.language.specs.Words as W;
ghost use Rattle.judge_verdicts.specs.Meaning.{seen};
ghost use Rattle.text_words.specs.Meaning.{positioned};
ghost use Rattle.judge_terms.specs.Shown.{worked};
ghost use Rattle.judge_expressions.specs.Judging.{JudgesBy};
ghost use Rattle.judge_actions.specs.Stored.{KindTold, pair_sides, set_judged, stored_judged};
ghost use Rattle.language.specs.Tests as Tests;

use crate::conditionals;
use image_sections::facilities::FacilityKind;
use image_sections::kinds;
use judge_expressions::{Records, walk};
use judge_terms::{operators, references};
use judge_verdicts::{Verdict, faults, work};
use language::refusals::Refusal;
use text_words::Position;

// The kind of the facility that record n refers to.
fn kind_at(records: &Records<'_>, n: u16) -> FacilityKind
    ensures { KindTold records.now.facilities.now records.now.expressions.now records.now.expression_places.now n result }
{
    match references::reference_at(records.expressions, records.expression_places, n) {
        Some((f, _)) => {
            let x = image_sections::facilities::facility_at(records.facilities, f as usize);
            x.kind
        }
        None => FacilityKind::Computed,
    }
}

// Of a verdict only faults and work.
fn only_work(v: Verdict) -> Verdict
    ensures { (j : L.Judged) → v ≡ seen j → result ≡ seen (worked j) }
{
    work::only(v?.work)
}

// The length of an expression without fault.
fn length_of(v: Verdict) -> u32
    ensures { ((w : L.Worth) → v ≡ seen (L.fine w) → result ≡ w.length) × (result < 65536) }
{
    match v {
        Ok(w) => w.length as u32,
        Err(_) => 0,
    }
}

// A store, by the length of its left side, its left side otherwise, and its right side.
fn stored(at: Position, allowed: bool, length: u32, a: Verdict, b: Verdict) -> Verdict
    ensures { (q : W.Position) (j k : L.Judged) → positioned at ≡ q → ((w : L.Worth) → j ≡ L.fine w → length ≡ w.length) → a ≡ seen (worked j) → b ≡ seen k → result ≡ seen (L.given_both j k (stored_judged allowed q)) }
{
    let (v, w) = faults::both(a, b)?;
    let same = faults::unless(length == w.length as u32, at, Refusal::BadLength);
    faults::also(same, faults::unless(allowed, at, Refusal::BadStore))?;
    conditionals::counted(v.work, w.work)
}

// A store to one reference.
pub fn store(
    records: &Records<'_>,
    memo: &[usize],
    known: usize,
    at: Position,
    sign: u8,
    l: u16,
    r: u16,
) -> Verdict
    ensures { (q : W.Position) → positioned at ≡ q → JudgesBy records.now memo.now known (λ d p t. L.given_both (left_at d p t known l) (expression_at d p t known r) (stored_judged (may_store sign (kind_at d l)) q)) result }
{
    let a = walk::left(records, memo, known, l);
    let b = walk::expression(records, memo, known, r);
    let allowed = kinds::may_store(sign, kind_at(records, l));
    stored(at, allowed, length_of(a), only_work(a), b)
}

// A store to two references, whose lengths count together.
pub fn store_pair(
    records: &Records<'_>,
    memo: &[usize],
    known: usize,
    at: Position,
    sign: u8,
    l: u16,
    m: u16,
    r: u16,
) -> Verdict
    ensures { (q : W.Position) → positioned at ≡ q → JudgesBy records.now memo.now known (λ d p t. L.given_both (pair_sides (left_at d p t known l) (left_at d p t known m)) (expression_at d p t known r) (stored_judged (Tests.both (may_store sign (kind_at d l)) (may_store sign (kind_at d m))) q)) result }
{
    let a = walk::left(records, memo, known, l);
    let b = walk::left(records, memo, known, m);
    let c = walk::expression(records, memo, known, r);
    let allowed = kinds::may_both(sign, kind_at(records, l), kind_at(records, m));
    let length = length_of(a) + length_of(b);
    stored(at, allowed, length, operators::together(a, b), c)
}

// Whether `@` may set a reference of that kind and length.
fn may_set(kind: FacilityKind, length: u16) -> bool
    ensures { result ≡ Tests.both (is_plain (kind_meant kind)) (eqb length 1) }
{
    kinds::is_plain(kind) && length == 1
}

// `@` sets one bit of a plain terminal.
pub fn set(records: &Records<'_>, memo: &[usize], known: usize, at: Position, l: u16) -> Verdict
    ensures { (q : W.Position) → positioned at ≡ q → JudgesBy records.now memo.now known (λ d p t. L.given (left_at d p t known l) (set_judged (is_plain (kind_at d l)) q)) result }
{
    let kind = kind_at(records, l);
    let v = walk::left(records, memo, known, l)?;
    faults::unless(may_set(kind, v.length), at, Refusal::BadStore)?;
    work::only(work::with_one(v.work))
}
