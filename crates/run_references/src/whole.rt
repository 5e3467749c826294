// A whole stored facility, the operand met most, which is read without subscripts to work out.
ghost use Rattle.std.specs.Prelude.{IfSome, List, ◌≡◌, ℕ};
ghost use Rattle.language.specs.Meaning as M;
ghost use Rattle.language.specs.References as R;
ghost use Rattle.image_records.specs.Nodes.{meant};
ghost use Rattle.store_layout.specs.InBytes.{bytes};
ghost use Rattle.value_operators.specs.Meaning.{valued};
ghost use Rattle.run_references.specs.Described.{ForEach};
ghost use Rattle.run_references.specs.Places.{referred};

use crate::places::Place;
use crate::{bounds, reading};
use image_records::nodes::Node;
use image_records::record_sizes;
use image_sections::{facilities, kinds};
use value_operators::{Value, lengths};

// The value of a facility, if it is stored and a value can hold it.
fn stored(section: &[u8], store: &[u8], number: u8) -> Option<Value>
    ensures { (E : List ℕ) → ForEach section.now E store.now (λ d x. ((ev : ℕ → M.Answer) → IfSome result (λ v. M.Answer.is (valued v) ≡ M.operand (bytes d) d x ev number R.whole))) }
{
    if section.len() / record_sizes::FACILITY <= number as usize {
        return None;
    }
    let f = facilities::facility_at(section, number as usize);
    let length = bounds::word_length(f);
    if 1 < f.dimensions || kinds::is_computed(f.kind) || lengths::LONGEST < length {
        return None;
    }
    let p = Place {
        facility: number,
        word: 0,
        from: 0,
        count: length as u16,
    };
    Some(reading::of_stored(store, f, p))
}

// The value of a record that names a whole stored facility.
pub fn whole(section: &[u8], store: &[u8], node: Node) -> Option<Value>
    ensures { (E : List ℕ) → ForEach section.now E store.now (λ d x. ((ev : ℕ → M.Answer) (k : ℕ) → IfSome result (λ v. M.Answer.is (valued v) ≡ referred (bytes d) d x ev (R.reference_of (meant k node))))) }
{
    let Node::Whole(number) = node else {
        return None;
    };
    stored(section, store, number)
}
