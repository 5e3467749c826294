// The first stop after the actions: S2, S4, S3, S6, S5.
ghost use Rattle.std.specs.Prelude.{◌≡◌, ◌<◌};
ghost use Rattle.language.specs.Stops.{halted};
ghost use Rattle.run_references.specs.Places.{found_meant};
ghost use Rattle.run_next.specs.Seen.{plain_seen, record_meant, stop_seen};

use crate::record;
use crate::record::Record;
use language::stops::Stop;
use run_stores::doing::Doing;

// How many plain next states are named, as far as it matters.
fn plain_count(g: Doing) -> u32
    ensures { result ≡ plain_seen g }
{
    g.gotos.count as u32 + g.returns as u32 + g.sequenced as u32
}

// The first stop, if any; `borne` is the state whose value the sequencing register has.
#[tactic(auto, unfolding(crate::specs::Seen::stop_seen))]
pub fn stop_after(states: u32, r: Record, g: Doing, borne: Option<u16>) -> Option<Stop>
    requires { r.state < 4294967295 }
    ensures { halted result ≡ stop_seen states (record_meant r) g (found_meant borne) }
{
    let plain = plain_count(g);
    if 2 <= plain || 2 <= g.calls.count {
        return Some(Stop::TwoNextStates);
    }
    if 0 < g.returns && r.held == 0 {
        return Some(Stop::NothingToReturn);
    }
    if g.sequenced && borne.is_none() {
        return Some(Stop::ValueUnborne);
    }
    if plain == 0 && states <= r.state + 1 {
        return Some(Stop::NoNextState);
    }
    if 0 < g.calls.count && record::MOST_RETURNS <= record::returns_left(r.held, g.returns) {
        return Some(Stop::TooManyCalls);
    }
    None
}
