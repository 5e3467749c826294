// Actions that hold no others.
ghost use Rattle.std.specs.Prelude.{◌≡◌, length};
ghost use Rattle.image_records.specs.Actions.{meant};
ghost use Rattle.store_layout.specs.InBytes.{bytes};
ghost use Rattle.run_stores.specs.Seen.{did, ran_seen, viewed};
ghost use Rattle.run_actions.specs.Acts.{ForStores, simple_done};

use crate::sides;
use image_records::actions::Action;
use image_sections::sections::Sections;
use run_references::worth::{Halted, Stuck};
use run_stores::doing::{Did, Doing};

// What such an action does; states are named by numbers below `states`.
pub fn simple(
    image: &Sections,
    store: &mut [u8],
    pending: &mut [u8],
    mask: &mut [u8],
    states: usize,
    a: Action,
    g: Doing,
) -> Did
    ensures { ForStores image.now (viewed g store.old pending.old mask.old) (λ d c. (length d.states ≡ states → did result store.new pending.new mask.new ≡ ran_seen (simple_done (bytes d) d (meant a) c))) }
{
    match a {
        Action::Store(k, l, r) => sides::store_to(image, store, pending, mask, k, l, r, g),
        Action::StorePair(k, l, m, r) => sides::store_to_pair(
            image, store, pending, mask, k, l, m, r, g,
        ),
        Action::Set(l) => sides::set_at(image, store, l, g),
        Action::Goto(s) => {
            if states <= s as usize {
                return Err(Halted::Stuck(Stuck::NoState));
            }
            Ok(g.going_to(s))
        }
        Action::Call(s) => {
            if states <= s as usize {
                return Err(Halted::Stuck(Stuck::NoState));
            }
            Ok(g.calling(s))
        }
        Action::Return => Ok(g.returning()),
        _ => Err(Halted::Stuck(Stuck::WrongRecord)),
    }
}
