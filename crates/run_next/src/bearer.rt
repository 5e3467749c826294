// The state whose value the sequencing register has.
ghost use Rattle.std.specs.Prelude.{◌≡◌, List, ℕ, ◌/◌, ◌≤◌, length};
ghost use Rattle.language.specs.Description.{Description, state_at};
ghost use Rattle.language.specs.Step as S;
ghost use Rattle.value_limbs.specs.Limbs.{number};
ghost use Rattle.image_sections.specs.Declarations.{value_meant};
ghost use Rattle.language.specs.Encode.{state_size};
ghost use Rattle.run_references.specs.Places.{found_meant};
ghost use Rattle.run_next.specs.Values.{Valued};

use image_records::record_sizes;
use image_sections::states;
use run_references::constants;
use value_operators::{Value, numbers};

// Whether a state, by its value, bears x.
fn bears(expressions: &[u8], value: Option<u16>, x: Value) -> bool
    ensures { (d : Description) (T : List ℕ) (s : ℕ) → Valued d expressions.now T → (state_at d s).value ≡ value_meant value → result ≡ S.bears d (S.state_number d s) (number x.limbs) }
{
    match value {
        Some(n) => numbers::same(x, constants::constant_at(expressions, n as usize)),
        None => false,
    }
}

// The first state that bears x.
pub fn bearer(expressions: &[u8], section: &[u8], x: Value) -> Option<u16>
    requires { length section.now / state_size ≤ 65536 }
    ensures { (d : Description) → Valued d expressions.now section.now → found_meant result ≡ S.bearer d (length section.now / state_size) 0 (number x.limbs) }
{
    for n in 0..section.len() / record_sizes::STATE {
        if bears(expressions, states::state_at(section, n).value, x) {
            return Some(n as u16);
        }
    }
    None
}
