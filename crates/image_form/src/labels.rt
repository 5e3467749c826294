// Names: a letter, then letters and digits, in capitals, and no reserved word; a state may have none.
ghost use Rattle.std.specs.Prelude.{true, cond, ◌≡◌, ◌+◌, ◌^◌, ◌<◌, eqb, length};
ghost use Rattle.language.specs.Canonical.{is_capital, label_right, name_parts, name_right};
ghost use Rattle.language.specs.Characters as L;
ghost use Rattle.language.specs.Characters.{is_digit};
ghost use Rattle.language.specs.Decode.{names_length};
ghost use Rattle.image_sections.specs.Declarations.{value_meant};
ghost use Rattle.image_form.specs.Names.{labels_right, names_right};
ghost use Rattle.language.specs.Encode.{facility_size, operation_size, state_size};

use image_records::{bytes, numbers, record_sizes};
use image_sections::header::Counts;
use image_sections::{names, states};
use language::ceilings;
use text_items::reserved;

#[tactic(auto, using(std::proofs::lemmas::Bool::Decides::nat_tests))]
fn within(lo: u8, b: u8, hi: u8) -> bool
    ensures { result ≡ L.within lo b hi }
{
    lo <= b && b <= hi
}

// A capital or a digit.
#[tactic(auto, using(std::proofs::lemmas::Bool::Decides::nat_tests))]
fn part_right(b: u8) -> bool
    ensures { result ≡ cond (is_capital b) true (is_digit b) }
{
    within(b'A', b, b'Z') || within(b'0', b, b'9')
}

// Whether all are capitals and digits.
fn parts_right(name: &[u8]) -> bool
    ensures { result ≡ name_parts name.now }
{
    name.iter().all(|b| part_right(*b))
}

pub fn name_right(name: &[u8]) -> bool
    ensures { result ≡ name_right name.now }
{
    if name.len() == 0 {
        return false;
    }
    if ceilings::NAME < name.len() {
        return false;
    }
    if !within(b'A', name[0], b'Z') {
        return false;
    }
    if !parts_right(name) {
        return false;
    }
    reserved::kind_of(name).is_none()
}

// One more than where the names of n records of `size` bytes end, whose lengths stand `inside` each; 0 where one is not right.
pub fn names_end(s: &[u8], n: u32, inside: u8, size: u8, names: &[u8]) -> usize
    ensures { result ≡ cond (names_right n inside size s.now names.now) (names_length n inside size s.now + 1) 0 }
{
    let mut from = 0;
    for i in 0..n as usize {
        let length = numbers::byte(s, inside as usize + size as usize * i) as usize;
        if !name_right(bytes::part(names, from, length)) {
            return 0;
        }
        from += length;
    }
    from + 1
}

// A state without a name has no value.
fn label_right(name: &[u8], value: Option<u16>) -> bool
    ensures { result ≡ label_right name.now (value_meant value) }
{
    if name.len() > 0 {
        return name_right(name);
    }
    match value {
        Some(_) => false,
        None => true,
    }
}

// The labels of the states, in these names.
pub fn labels_right(states: &[u8], names: &[u8]) -> bool
    requires { length states.now < 2 ^ 36 }
    ensures { result ≡ labels_right states.now names.now }
{
    let mut from = 0;
    for n in 0..states.len() / record_sizes::STATE {
        let s = states::state_at(states, n);
        let length = s.name as usize;
        if !label_right(bytes::part(names, from, length), s.value) {
            return false;
        }
        from += length;
    }
    true
}

// Whether the lengths in the records come to the length of all names.
pub fn names_fit(
    c: Counts,
    facilities: &[u8],
    operations: &[u8],
    states: &[u8],
    names: &[u8],
) -> bool
    ensures { result ≡ eqb (names_length c.facilities 2 facility_size facilities.now + (names_length c.operations 0 operation_size operations.now + names_length c.states 0 state_size states.now)) (length names.now) }
{
    let f = names::names_length(
        facilities,
        c.facilities,
        names::FACILITY_NAME,
        names::FACILITY,
    );
    let o = names::names_length(operations, c.operations, 0, names::OPERATION);
    let s = names::names_length(states, c.states, 0, names::STATE);
    f + (o + s) == names.len()
}
