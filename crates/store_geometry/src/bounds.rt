// Numbers within the bounds of a dimension, which run in either direction.
ghost use Rattle.std.specs.Prelude.{◌≡◌, ◌^◌, ◌≤◌};
ghost use Rattle.language.specs.Description.{from_first, in_bounds, span_of};
ghost use Rattle.language.specs.References.{same_direction};
ghost use Rattle.store_geometry.specs.Shapes.{bounds_meant};

use std::cmp::Ordering;

// The first and the last number of a dimension; a text can name larger ones than a record has room for.
#[derive(Clone, Copy)]
pub struct Bounds {
    pub first: u32,
    pub last: u32,
}

// How many numbers lie between the bounds.
#[tactic(auto, unfolding(language::specs::Description::span_of))]
pub fn span(b: Bounds) -> u64
    ensures { (result ≡ span_of (bounds_meant b)) × (result ≤ 2 ^ 32) }
{
    b.first.abs_diff(b.last) as u64 + 1
}

// Whether a number lies within the bounds.
#[tactic(auto, unfolding(language::specs::Description::in_bounds))]
pub fn in_bounds(b: Bounds, n: u64) -> bool
    ensures { result ≡ in_bounds (bounds_meant b) n }
{
    let first = b.first as u64;
    let last = b.last as u64;
    if first <= last {
        (first..=last).contains(&n)
    } else {
        (last..=first).contains(&n)
    }
}

// How far a number is from the first bound.
#[tactic(auto, unfolding(language::specs::Description::from_first))]
pub fn from_first(b: Bounds, n: u64) -> u64
    ensures { result ≡ from_first (bounds_meant b) n }
{
    let first = b.first as u64;
    if b.first <= b.last {
        n.saturating_sub(first)
    } else {
        first.saturating_sub(n)
    }
}

// Whether x lies in the direction of b.
#[tactic(auto, unfolding(language::specs::References::same_direction))]
pub fn same_direction(b: Bounds, x: Bounds) -> bool
    ensures { result ≡ same_direction (bounds_meant b) (bounds_meant x) }
{
    match b.first.cmp(&b.last) {
        Ordering::Less => x.first <= x.last,
        Ordering::Equal => true,
        Ordering::Greater => x.last <= x.first,
    }
}
