// A store to one place or to two, by its sign: `=` and `@` land at once, `<-` waits.
ghost use Rattle.std.specs.Prelude.{◌||◌, cond, false, List, [], ◌∷◌, ◌≡◌, ℕ, ◌+◌, ◌/◌, ◌%◌, ◌^◌};
ghost use Rattle.language.specs.Acting as T;
ghost use Rattle.value_limbs.specs.Limbs.{number};
ghost use Rattle.value_operators.specs.Meaning.{valued};
ghost use Rattle.store_layout.specs.InBytes.{bytes};
ghost use Rattle.run_references.specs.Places.{place_meant};
ghost use Rattle.run_references.specs.Described.{There};
ghost use Rattle.run_stores.specs.Seen.{ForDoing, did, ran_seen, viewed};

use crate::doing::{Did, Doing};
use crate::spots;
use image_sections::facilities::FacilityRecord;
use image_sections::kinds;
use run_references::places::Place;
use run_references::worth::{Halted, Stuck};
use value_limbs::shifts;
use value_operators::Value;

// A store of v to one place.
pub fn store_one(
    sign: u8,
    f: FacilityRecord,
    p: Place,
    v: Value,
    store: &mut [u8],
    pending: &mut [u8],
    mask: &mut [u8],
    g: Doing,
) -> Did
    ensures { (F E : List ℕ) → ForDoing F E (viewed g store.old pending.old mask.old) (λ d c. (There d F p.facility f → did result store.new pending.new mask.new ≡ ran_seen (T.storing (bytes d) d sign p.count (T.storable (bytes d) d sign (place_meant p)) (T.on_sequencing (bytes d) d (place_meant p)) (valued v) (T.write (bytes d) d (place_meant p) (number v.limbs) ∷ []) c))) }
{
    if v.length != p.count {
        return Err(Halted::Stuck(Stuck::SidesDiffer));
    }
    if !kinds::may_store(sign, f.kind) {
        return Err(Halted::Stuck(Stuck::NotStorable));
    }
    let s = spots::spot_of(f, p);
    if sign == language::kinds::DELAYED {
        let hit = spots::marked(mask, s);
        spots::delay(pending, mask, s, v);
        return Ok(g.delaying(hit, kinds::is_sequencing(f.kind)));
    }
    spots::put(store, s, v);
    Ok(g)
}

// The bits of v above its lowest n.
fn high(v: Value, n: u16) -> Value
    ensures { number result.limbs ≡ number v.limbs / 2 ^ n }
{
    let limbs = shifts::right(v.limbs, n as u32);
    Value {
        limbs,
        length: v.length,
    }
}

// The lowest n bits of v.
fn low(v: Value, n: u16) -> Value
    ensures { number result.limbs ≡ number v.limbs % 2 ^ n }
{
    let limbs = shifts::low(v.limbs, n as u32);
    Value { limbs, length: n }
}

// A store of v to two places: the right one takes the low bits and lands later.
pub fn store_pair(
    sign: u8,
    f: FacilityRecord,
    p: Place,
    h: FacilityRecord,
    q: Place,
    v: Value,
    store: &mut [u8],
    pending: &mut [u8],
    mask: &mut [u8],
    g: Doing,
) -> Did
    ensures { (F E : List ℕ) → ForDoing F E (viewed g store.old pending.old mask.old) (λ d c. (There d F p.facility f → There d F q.facility h → did result store.new pending.new mask.new ≡ ran_seen (T.storing (bytes d) d sign (p.count + q.count) (cond (T.storable (bytes d) d sign (place_meant p)) (T.storable (bytes d) d sign (place_meant q)) false) (T.on_sequencing (bytes d) d (place_meant p) || T.on_sequencing (bytes d) d (place_meant q)) (valued v) (T.write (bytes d) d (place_meant p) (number v.limbs / 2 ^ q.count) ∷ T.write (bytes d) d (place_meant q) (number v.limbs % 2 ^ q.count) ∷ []) c))) }
{
    if v.length as u32 != p.count as u32 + q.count as u32 {
        return Err(Halted::Stuck(Stuck::SidesDiffer));
    }
    if !kinds::may_both(sign, f.kind, h.kind) {
        return Err(Halted::Stuck(Stuck::NotStorable));
    }
    let s = spots::spot_of(f, p);
    let t = spots::spot_of(h, q);
    if sign == language::kinds::DELAYED {
        let hit = spots::marked(mask, s) | spots::marked(mask, t);
        spots::delay(pending, mask, s, high(v, q.count));
        spots::delay(pending, mask, t, low(v, q.count));
        let sequenced = kinds::is_sequencing(f.kind) | kinds::is_sequencing(h.kind);
        return Ok(g.delaying(hit, sequenced));
    }
    spots::put(store, s, high(v, q.count));
    spots::put(store, t, low(v, q.count));
    Ok(g)
}

// @ sets one bit of a plain terminal.
pub fn set_bit(f: FacilityRecord, p: Place, store: &mut [u8], g: Doing) -> Did
    ensures { (F E P M : List ℕ) → ForDoing F E (viewed g store.old P M) (λ d c. (There d F p.facility f → did result store.new P M ≡ ran_seen (T.setting (bytes d) d (place_meant p) c))) }
{
    if !kinds::is_plain(f.kind) {
        return Err(Halted::Stuck(Stuck::NotStorable));
    }
    if p.count != 1 {
        return Err(Halted::Stuck(Stuck::SidesDiffer));
    }
    let limbs = value_limbs::small(1);
    spots::put(store, spots::spot_of(f, p), Value { limbs, length: 1 });
    Ok(g)
}
