// The numbers of a record: its state and the returns held are states, unused returns zero.
ghost use Rattle.std.specs.Prelude.{◌≡◌, eqb, ltb};
ghost use Rattle.std.specs.List.{list_all};
ghost use Rattle.run_next.specs.Seen.{record_meant};
ghost use Rattle.run_soundness.specs.Tested.{record_sound};

use run_next::record::Record;

// Whether these are numbers of states.
fn all_states(states: usize, held: &[u32]) -> bool
    ensures { result ≡ list_all (λ x. ltb x states) held.now }
{
    held.iter().all(|x| (*x as usize) < states)
}

fn all_zero(unused: &[u32]) -> bool
    ensures { result ≡ list_all (λ x. eqb x 0) unused.now }
{
    unused.iter().all(|x| *x == 0)
}

// The state and the returns held are states, 16 of these at most, and the others are zero.
#[tactic(auto, using(crate::proofs::ReturnLaws::returns_apart), unfolding(crate::specs::Tested::record_sound, language::specs::Ceilings::most_returns))]
pub fn record_sound(states: usize, r: Record) -> bool
    ensures { result ≡ record_sound states (record_meant r) }
{
    let Some((held, unused)) = r.returns.split_at_checked(r.held as usize) else {
        return false;
    };
    (r.state as usize) < states && all_states(states, held) && all_zero(unused)
}
