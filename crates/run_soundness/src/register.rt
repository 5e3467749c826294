// The sequencing register of a store: it has the value of the record's state.
ghost use Rattle.std.specs.Prelude.{List, ◌≡◌, ℕ, ◌/◌, ◌≤◌, length};
ghost use Rattle.std.proofs.Math.Option.{some};
ghost use Rattle.language.specs.Description.{Description, sequencing_of, state_at};
ghost use Rattle.language.specs.Layout.{store_size_of};
ghost use Rattle.language.specs.RecordBytes as L;
ghost use Rattle.language.specs.Step as S;
ghost use Rattle.language.specs.Store.{from_bytes, word_of};
ghost use Rattle.image_sections.specs.Declarations.{value_meant};
ghost use Rattle.language.specs.Encode.{facility_size};
ghost use Rattle.run_soundness.specs.Tested.{Testable};

use image_sections::{facilities, states};
use run_next::register;
use run_references::constants;
use value_operators::numbers;

// Whether facility n, the sequencing register, has the value of a state.
fn has_value(
    facilities: &[u8],
    expressions: &[u8],
    store: &[u8],
    n: u16,
    value: Option<u16>,
) -> bool
    ensures { (d : Description) (T : List ℕ) (s : ℕ) → Testable d facilities.now expressions.now T → sequencing_of d ≡ some n → (state_at d s).value ≡ value_meant value → store_size_of d.facilities ≤ length store.now → result ≡ L.agrees (some n) (S.state_number d s) (word_of (from_bytes d.facilities store.now) n 0) }
{
    match value {
        Some(k) => {
            let f = facilities::facility_at(facilities, n as usize);
            let x = register::first_word(store, f);
            numbers::same(x, constants::constant_at(expressions, k as usize))
        }
        None => false,
    }
}

// Whether the register, where there is one, has the value of a state.
pub fn agrees(
    facilities: &[u8],
    expressions: &[u8],
    states: &[u8],
    store: &[u8],
    state: u32,
) -> bool
    requires { length facilities.now / facility_size ≤ 65536 }
    ensures { (d : Description) → Testable d facilities.now expressions.now states.now → store_size_of d.facilities ≤ length store.now → result ≡ L.agrees (sequencing_of d) (S.state_number d state) (S.register_value d (sequencing_of d) (from_bytes d.facilities store.now)) }
{
    match register::sequencing(facilities) {
        Some(n) => {
            let s = states::state_at(states, state as usize);
            has_value(facilities, expressions, store, n, s.value)
        }
        None => true,
    }
}
