// Stores by the records of their sides: the left side's place first, then the right side's value.
ghost use Rattle.std.specs.Prelude.{List, ◌≡◌, ℕ};
ghost use Rattle.language.specs.Acting as T;
ghost use Rattle.store_layout.specs.InBytes.{bytes};
ghost use Rattle.run_stores.specs.Seen.{did, ran_seen, viewed};
ghost use Rattle.run_actions.specs.Acts.{ForStores};

use image_sections::sections::Sections;
use run_expressions::eval;
use run_stores::doing::{Did, Doing};
use run_stores::stores;

// A store of record r to the place at record l.
pub fn store_to(
    image: &Sections,
    store: &mut [u8],
    pending: &mut [u8],
    mask: &mut [u8],
    sign: u8,
    l: u16,
    r: u16,
    g: Doing,
) -> Did
    ensures { ForStores image.now (viewed g store.old pending.old mask.old) (λ d c. did result store.new pending.new mask.new ≡ ran_seen (T.store_to (bytes d) d sign l r c)) }
{
    let (f, p) = eval::left_side(image, store, l as usize)?;
    let v = eval::eval(image, store, r as usize)?;
    stores::store_one(sign, f, p, v, store, pending, mask, g)
}

// A store of record r to the places at records l and m.
pub fn store_to_pair(
    image: &Sections,
    store: &mut [u8],
    pending: &mut [u8],
    mask: &mut [u8],
    sign: u8,
    l: u16,
    m: u16,
    r: u16,
    g: Doing,
) -> Did
    ensures { ForStores image.now (viewed g store.old pending.old mask.old) (λ d c. did result store.new pending.new mask.new ≡ ran_seen (T.store_to_pair (bytes d) d sign l m r c)) }
{
    let (f, p) = eval::left_side(image, store, l as usize)?;
    let (h, q) = eval::left_side(image, store, m as usize)?;
    let v = eval::eval(image, store, r as usize)?;
    stores::store_pair(sign, f, p, h, q, v, store, pending, mask, g)
}

// Sets the bit at record l.
pub fn set_at(image: &Sections, store: &mut [u8], l: u16, g: Doing) -> Did
    ensures { (P M : List ℕ) → ForStores image.now (viewed g store.old P M) (λ d c. did result store.new P M ≡ ran_seen (T.on_place (T.side (bytes d) d c.store l) (λ p. T.setting (bytes d) d p c))) }
{
    let (f, p) = eval::left_side(image, store, l as usize)?;
    stores::set_bit(f, p, store, g)
}
