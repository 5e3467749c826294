// What bounds the walks over an image, whose depth is that of its expressions and of its lists of actions: few records, and no expression too deep.
ghost use Rattle.std.specs.Prelude.{◌≡◌, ℕ, ◌/◌, ◌≤◌, length};
ghost use Rattle.language.specs.Description.{Description};
ghost use Rattle.about_images.specs.Depth as L;
ghost use Rattle.image_order.specs.Holds.{Actions, Nodes};
ghost use Rattle.image_form.specs.Depths.{noted, depth_parts};
ghost use Rattle.language.specs.Encode.{node_size};

use image_order::starts;
use image_order::starts::Parts;
use image_records::{nodes, record_sizes};

const MOST_EXPRESSIONS: usize = 34816;

const MOST_ACTIONS: usize = 4096;

const DEEPEST: u16 = 4097;

// The depth that is noted for record a.
fn noted_at(depths: &[u16], a: u16) -> u16
    ensures { result ≡ noted depths.now a }
{
    depths.get(a as usize).copied().unwrap_or(0)
}

// One more than the deepest part.
fn depth(depths: &[u16], parts: Parts) -> u16
    requires { (n : ℕ) → noted depths.now n ≤ 4097 }
    ensures { result ≡ depth_parts (noted depths.now) parts }
{
    match parts {
        Parts::No | Parts::Leaf | Parts::Digits(_) => 1,
        Parts::One(a) => noted_at(depths, a) + 1,
        Parts::Two(a, b) => noted_at(depths, a).max(noted_at(depths, b)) + 1,
    }
}

// Whether no expression is too deep. Parts stand before their record, so one pass notes the depth of each; of a part elsewhere nothing is noted.
fn shallow(exprs: &[u8]) -> bool
    requires { length exprs.now / node_size ≤ 34816 }
    ensures { (d : Description) → Nodes d exprs.now → result ≡ L.shallow d }
{
    let mut depths = [0; MOST_EXPRESSIONS];
    for n in 0..exprs.len() / record_sizes::NODE {
        let own = depth(&depths, starts::parts_of(nodes::node_at(exprs, n)));
        if DEEPEST < own {
            return false;
        }
        depths[n] = own;
    }
    true
}

// Whether records are few and no expression is too deep. No record is deeper than so many records, so that of few nothing need be noted.
pub fn bounded(exprs: &[u8], acts: &[u8]) -> bool
    ensures { (d : Description) → Nodes d exprs.now → Actions d acts.now → result ≡ L.bounded d }
{
    if MOST_EXPRESSIONS < exprs.len() / record_sizes::NODE {
        return false;
    }
    if MOST_ACTIONS < acts.len() / record_sizes::ACTION {
        return false;
    }
    if exprs.len() / record_sizes::NODE <= DEEPEST as usize {
        return true;
    }
    shallow(exprs)
}
