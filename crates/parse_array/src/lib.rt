// The working array of reading: the records of the sections as they are made, the places of their words beside them, and the names declared so far.
#![tactic(auto)]

ghost use Rattle.std.specs.Prelude.{◌≡◌, length};
ghost use Rattle.parse_array.specs.Layout.{work_size};

use crate::layout::WORK_SIZE;

pub mod bounds;
pub mod constants;
pub mod layout;
pub mod nodes;
pub mod places;

pub type Work = [u8; WORK_SIZE];

// The array has all its bytes: said, so that it is known behind a write.
pub fn whole(work: &Work) -> usize
    ensures { length work.now ≡ work_size }
{
    let s: &[u8] = work;
    s.len()
}
