// A part of a word, loaded as a value and saved from one. What lies outside its word or the slice is the value of no bits, and is not written.
ghost use Rattle.std.specs.Prelude.{◌≡◌, ◌+◌, ◌*◌, ◌^◌, ◌≤◌, ◌<◌, length as size};
ghost use Rattle.language.specs.Layout.{word_bytes};
ghost use Rattle.value_limbs.specs.Limbs.{number};
ghost use Rattle.value_operators.specs.Meaning.{valued};
ghost use Rattle.store_words.specs.Runs.{InRuns};
ghost use Rattle.store_layout.specs.Parts.{inside as Inside, loaded, part_in, saved, with_part};

use crate::bits;
use store_geometry::shapes;
use value_operators::Value;

// Whether a part lies in its word, its word among `bytes` bytes, and a value can hold it.
#[tactic(auto, using(std::proofs::lemmas::Bool::Decides::nat_tests), unfolding(store_layout::specs::Parts::inside, language::specs::Ceilings::longest))]
fn inside(bytes: usize, at: usize, length: u32, from: u32, count: u32) -> bool
    ensures { result ≡ Inside bytes at length from count }
{
    let n = shapes::word_bytes(length as u64);
    n <= bytes
        && at <= bytes - n
        && count <= length
        && from <= length - count
        && count <= value_operators::lengths::LONGEST
}

// A part in four runs of up to 64 bits, the lowest first: where each but the first begins, and how many bits each has.
#[derive(Clone, Copy)]
struct Runs {
    p1: usize,
    p2: usize,
    p3: usize,
    c0: usize,
    c1: usize,
    c2: usize,
    c3: usize,
}

// The runs of `count` bits above the lowest `low` ones, one for each limb.
fn in_runs(low: usize, count: usize) -> Runs
    requires { low + count < 2 ^ 64 }
    ensures { InRuns low count result }
{
    let c0 = count.min(64);
    let c1 = (count - c0).min(64);
    let c2 = (count - c0 - c1).min(64);
    let p1 = low + c0;
    let p2 = p1 + c1;
    Runs {
        p1,
        p2,
        p3: p2 + c2,
        c0,
        c1,
        c2,
        c3: count - c0 - c1 - c2,
    }
}

// `count` bits of a word above its lowest `low` ones, limb by limb.
fn load_limbs(s: &[u8], at: usize, length: u32, low: usize, count: usize) -> [u64; 4]
    requires { (at + word_bytes length ≤ size s.now) × (low + count ≤ 8 * word_bytes length) × (count ≤ 256) }
    ensures { number result ≡ part_in s.now at length low count }
{
    if count <= 64 {
        return value_limbs::small(bits::bits(s, at, length, low, count));
    }
    let r = in_runs(low, count);
    let l0 = bits::bits(s, at, length, low, r.c0);
    let l1 = bits::bits(s, at, length, r.p1, r.c1);
    let l2 = bits::bits(s, at, length, r.p2, r.c2);
    let l3 = bits::bits(s, at, length, r.p3, r.c3);
    [l0, l1, l2, l3]
}

// These bits replaced by the low ones of four limbs, run by run.
fn save_runs(s: &mut [u8], at: usize, length: u32, low: usize, count: usize, v: [u64; 4])
    requires { (at + word_bytes length ≤ size s.old) × (low + count ≤ 8 * word_bytes length) × (count ≤ 256) }
    ensures { s.new ≡ with_part s.old at length low count (number v) }
{
    let r = in_runs(low, count);
    bits::put(s, at, length, low, r.c0, v[0]);
    bits::put(s, at, length, r.p1, r.c1, v[1]);
    bits::put(s, at, length, r.p2, r.c2, v[2]);
    bits::put(s, at, length, r.p3, r.c3, v[3]);
}

// These bits replaced by the low ones of four limbs, of which the first is enough for up to 64 bits.
fn save_limbs(s: &mut [u8], at: usize, length: u32, low: usize, count: usize, v: [u64; 4])
    requires { (at + word_bytes length ≤ size s.old) × (low + count ≤ 8 * word_bytes length) × (count ≤ 256) }
    ensures { s.new ≡ with_part s.old at length low count (number v) }
{
    if count <= 64 {
        bits::put(s, at, length, low, count, v[0]);
    } else {
        save_runs(s, at, length, low, count, v);
    }
}

// `count` bits of a word of `length` bits at `at`, from the bit `from` on; bit 0 is the most significant.
pub fn load(s: &[u8], at: usize, length: u32, from: u32, count: u32) -> Value
    ensures { valued result ≡ loaded s.now at length from count }
{
    if inside(s.len(), at, length, from, count) {
        let low = (length - count - from) as usize;
        Value {
            limbs: load_limbs(s, at, length, low, count as usize),
            length: count as u16,
        }
    } else {
        Value {
            limbs: [0; 4],
            length: 0,
        }
    }
}

// These bits replaced by the low ones of v.
pub fn save(s: &mut [u8], at: usize, length: u32, from: u32, count: u32, v: Value)
    ensures { s.new ≡ saved s.old at length from count (number v.limbs) }
{
    if inside(s.len(), at, length, from, count) {
        let low = (length - count - from) as usize;
        save_limbs(s, at, length, low, count as usize, v.limbs);
    }
}
