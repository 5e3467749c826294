// Verdicts on records of expressions, noted in one number each behind what is kept, so that an owner finds those of its parts.
ghost use Rattle.std.specs.Prelude.{◌≡◌, ◌+◌, ◌*◌, ◌^◌, ◌≤◌, ◌<◌, IfSome};
ghost use Rattle.judge_verdicts.specs.Noted.{NotedAt, Notes, is_reference, joined, noted_from, record_in, verdict_in};

use crate::{Verdict, Worth, kept};
use text_words::Fault;

// Where the numbers begin: behind two for each facility.
pub const FIRST: usize = 512;

// The place of a fault, or a length, arms and work.
const VALUES: usize = 1 << 43;

// Arms and work have 17 bits each.
const COUNTS: usize = 1 << 17;

// Lengths have the 9 above them.
const LENGTHS: u16 = 512;

// The number of the record.
pub fn record_of(e: usize) -> usize
    ensures { result ≡ record_in e }
{
    e / VALUES / 32
}

// Whether the record is a reference.
pub fn is_reference(e: usize) -> bool
    ensures { result ≡ is_reference e }
{
    e / VALUES / 16 % 2 == 1
}

// The verdict.
pub fn verdict(e: usize) -> Verdict
    ensures { result ≡ verdict_in e }
{
    let mark = e / VALUES % 16;
    let value = e % VALUES;
    if mark == 0 {
        return Ok(Worth {
            length: (value / COUNTS / COUNTS) as u16,
            arms: value / COUNTS % COUNTS,
            work: value % COUNTS,
        });
    }
    Err(Fault {
        at: text_words::places::position(value),
        refusal: kept::numbered(mark),
    })
}

// Length, arms and work in one number, where they have room in it.
fn worth_value(w: Worth) -> Option<usize>
    ensures { IfSome result (λ value. (w.length < 512) × (w.arms < 2 ^ 17) × (w.work < 2 ^ 17) × (value ≡ (w.length * 2 ^ 17 + w.arms) * 2 ^ 17 + w.work)) }
{
    if LENGTHS <= w.length || COUNTS <= w.arms || COUNTS <= w.work {
        return None;
    }
    Some((w.length as usize * COUNTS + w.arms) * COUNTS + w.work)
}

// A record's number and whether it is a reference, a mark and a value in one number, where the value has room there.
fn joined(n: u16, reference: bool, mark: u8, value: usize) -> Option<usize>
    requires { mark < 16 }
    ensures { IfSome result (λ e. (value < 2 ^ 43) × (e ≡ joined n reference mark value)) }
{
    if VALUES <= value {
        return None;
    }
    let own = 32 * n as usize + mark as usize;
    let head = if reference { own + 16 } else { own };
    Some(head * VALUES + value)
}

// The verdict on record n in one number, where it has room there, which none by the rules lacks.
pub fn note(n: u16, reference: bool, v: Verdict) -> Option<usize>
    ensures { IfSome result (λ e. Notes e n reference v) }
{
    match v {
        Ok(w) => joined(n, reference, 0, worth_value(w)?),
        Err(f) => {
            let mark = u8::from(f.refusal);
            joined(n, reference, mark, text_words::places::place(f.at))
        }
    }
}

// How far back to look next: as far again as was gone already, but not past the middle of what is left.
fn back(gone: usize, left: usize) -> usize
    requires { 0 < left }
    ensures { (0 < result) × (result ≤ left) }
{
    let half = (left - 1) / 2 + 1;
    if half <= gone {
        return half;
    }
    if gone == 0 { 1 } else { gone }
}

// What is noted of record n. Numbers of records rise, and an owner's parts stand last.
fn search(memo: &[usize], n: u16) -> Option<usize>
    ensures { IfSome result (NotedAt memo.now n) }
{
    let mut low = FIRST;
    let mut high = memo.len();
    while low < high {
        let middle = high - back(memo.len() - high, high - low);
        let there = record_of(memo[middle]);
        if there == n as usize {
            return Some(memo[middle]);
        }
        if there < n as usize {
            low = middle + 1;
        } else {
            high = middle;
        }
    }
    None
}

// Where record n stands if all records from the first noted on are.
fn guess(memo: &[usize], n: u16) -> usize
    ensures { noted_from ≤ result }
{
    match memo.get(FIRST) {
        Some(e) => FIRST + (n as usize).saturating_sub(record_of(*e)),
        None => FIRST,
    }
}

// The same, looked for where it stands if no record before it is left out.
pub fn find(memo: &[usize], n: u16) -> Option<usize>
    ensures { IfSome result (NotedAt memo.now n) }
{
    match memo.get(guess(memo, n)) {
        Some(e) if record_of(*e) == n as usize => Some(*e),
        _ => search(memo, n),
    }
}
