// Values of states: constants as long as the sequencing register, each with a number of its own.
ghost use Rattle.std.specs.Prelude.{◌||◌, ◌≡◌, ◌+◌, ◌*◌, ◌/◌, eqb, get_or};
ghost use Rattle.image_sections.specs.Declarations.{value_meant};
ghost use Rattle.language.specs.Decode.{node_of};
ghost use Rattle.language.specs.Description.{Description, Places, constant_value, node_at};
ghost use Rattle.language.specs.Rules as R;
ghost use Rattle.language.specs.WordStage.{least};
ghost use Rattle.language.specs.Words as W;
ghost use Rattle.text_words.specs.Meaning.{judged, positioned};
ghost use Rattle.judge_all.specs.Stated.{Valued, right_value, values_before, wanted_length};
ghost use Rattle.language.specs.Encode.{node_size};

use image_records::nodes::Node;
use image_records::{nodes, numbers, record_sizes};
use judge_terms::constants;
use judge_verdicts::faults;
use language::refusals::Refusal;
use text_words::{Judged, Position};

// The length of a constant; any other record has no bits.
fn value_length(es: &[u8], a: u16) -> u16
    ensures { result ≡ (constant_value (node_of es.now a)).length }
{
    let Node::Constant(length) = nodes::node_at(es, a as usize) else {
        return 0;
    };
    length
}

// How many records before its own belong to a constant.
fn further(es: &[u8], a: u16) -> u8
    ensures { result ≡ get_or es.now (node_size * a + 1) 0 / 48 }
{
    numbers::byte(es, record_sizes::NODE * a as usize + 1) / 48
}

// Whether a value is 0; what is no constant counts 0.
fn is_zero(es: &[u8], a: u16) -> bool
    ensures { result ≡ eqb (constant_value (node_of es.now a)).number 0 }
{
    if value_length(es, a) == 0 {
        return true;
    }
    constants::number_zero(es, a, further(es, a))
}

// Whether two values are the same number.
fn same_value(es: &[u8], a: u16, b: u16) -> bool
    ensures { result ≡ eqb (constant_value (node_of es.now a)).number (constant_value (node_of es.now b)).number }
{
    if value_length(es, a) == 0 {
        return is_zero(es, b);
    }
    if value_length(es, b) == 0 {
        return is_zero(es, a);
    }
    constants::same_number(es, a, further(es, a), b, further(es, b))
}

// Whether state n bears the number of a constant.
fn bears(es: &[u8], ss: &[u8], n: usize, a: u16) -> bool
    ensures { (d : Description) (p : Places) → Valued es.now ss.now d → R.repeated d p (constant_value (node_at d a)).number (values_before d p (n + 1)) ≡ (result || R.repeated d p (constant_value (node_at d a)).number (values_before d p n)) }
{
    let s = image_sections::states::state_at(ss, n);
    match s.value {
        Some(b) => same_value(es, a, b),
        None => false,
    }
}

// Whether one of the first n states bears the number of a constant.
fn repeats(es: &[u8], ss: &[u8], n: usize, a: u16) -> bool
    ensures { (d : Description) (p : Places) → Valued es.now ss.now d → result ≡ R.repeated d p (constant_value (node_at d a)).number (values_before d p n) }
{
    for m in (0..n).rev() {
        if bears(es, ss, m, a) {
            return true;
        }
    }
    false
}

// Whether a value that is there is right, after n states.
fn right_value(es: &[u8], ss: &[u8], n: usize, wanted: Option<u64>, a: u16) -> bool
    ensures { (d : Description) (p : Places) → Valued es.now ss.now d → result ≡ right_value d p (wanted_length wanted) (values_before d p n) a }
{
    match wanted {
        Some(length) => value_length(es, a) as u64 == length && !repeats(es, ss, n, a),
        None => false,
    }
}

// The value of state n.
pub fn value_faults(
    es: &[u8],
    ss: &[u8],
    n: usize,
    wanted: Option<u64>,
    at: Position,
    value: Option<u16>,
) -> Judged
    ensures { (d : Description) (p : Places) (q : W.Position) → Valued es.now ss.now d → positioned at ≡ q → judged result ≡ least (R.value_faults d p (wanted_length wanted) (values_before d p n) q (value_meant value)) }
{
    let Some(a) = value else {
        return Ok(());
    };
    faults::unless(
        right_value(es, ss, n, wanted, a),
        at,
        Refusal::BadSequencing,
    )
}
