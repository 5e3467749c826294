// The run record by value, and what it is after a cycle.
ghost use Rattle.std.specs.Prelude.{cond, ◌≡◌, ◌-◌, ◌≤◌, ◌<◌, ltb, get_or, set};
ghost use Rattle.run_references.specs.Places.{found_meant};
ghost use Rattle.run_next.specs.Seen.{left_seen, next_seen, record_meant, record_seen};

use language::ceilings;
use run_stores::doing::Doing;

// Returns that a record holds, as it counts them.
pub const MOST_RETURNS: u32 = ceilings::RETURNS as u32;

// State, cycle number, and the return states held, unused ones zero.
#[derive(Clone, Copy)]
pub struct Record {
    pub state: u32,
    pub cycle: u32,
    pub held: u32,
    pub returns: [u32; ceilings::RETURNS],
}

// The return states with x at i, where there is such a place.
fn with_return(mut returns: [u32; ceilings::RETURNS], i: u32, x: u32) -> [u32; ceilings::RETURNS]
    ensures { result ≡ set returns i x }
{
    // By index, since std's get_mut does not say what the slice ends as.
    if i < MOST_RETURNS {
        returns[i as usize] = x;
    }
    returns
}

// The returns held after any RETURN.
pub fn returns_left(held: u32, returns: u8) -> u32
    ensures { result ≡ left_seen held returns }
{
    if returns == 0 {
        held
    } else {
        held.saturating_sub(1)
    }
}

// The plain next state; `borne` is the state whose value the sequencing register has.
#[tactic(auto, unfolding(crate::specs::Seen::next_seen))]
pub fn plain_next(r: Record, g: Doing, borne: Option<u16>) -> u32
    requires { r.state < 4294967295 }
    ensures { result ≡ next_seen (record_meant r) g (found_meant borne) }
{
    if 0 < g.gotos.count {
        return g.gotos.first as u32;
    }
    if 0 < g.returns {
        let last = r.held.saturating_sub(1) as usize;
        return r.returns.get(last).copied().unwrap_or(0);
    }
    if g.sequenced {
        return borne.map_or(0, |n| n as u32);
    }
    r.state + 1
}

// The return states after any RETURN has taken its own off.
fn popped(r: Record, returns: u8) -> [u32; ceilings::RETURNS]
    ensures { result ≡ cond (ltb 0 returns) (set r.returns (r.held - 1) 0) r.returns }
{
    if 0 < returns {
        with_return(r.returns, r.held.saturating_sub(1), 0)
    } else {
        r.returns
    }
}

// The record after a cycle with this plain next state.
#[tactic(auto, unfolding(crate::specs::Seen::record_seen))]
pub fn next_record(r: Record, g: Doing, next: u32) -> Record
    requires { (r.cycle < 4294967295) × (r.held ≤ 16) }
    ensures { record_meant result ≡ record_seen (record_meant r) g next }
{
    let left = returns_left(r.held, g.returns);
    let returns = popped(r, g.returns);
    if 0 < g.calls.count {
        return Record {
            state: g.calls.first as u32,
            cycle: r.cycle + 1,
            held: left + 1,
            returns: with_return(returns, left, next),
        };
    }
    Record {
        state: next,
        cycle: r.cycle + 1,
        held: left,
        returns,
    }
}
