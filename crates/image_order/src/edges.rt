// Where records begin or end, if they are in order: one more than that record's number, and 0 where they are not in order. A number comes back in a register, an enum by memory.
ghost use Rattle.std.specs.Prelude.{◌≡◌};
ghost use Rattle.language.specs.Description.{Description};
ghost use Rattle.language.specs.Order.{ends_at};
ghost use Rattle.image_order.specs.Edges.{edge};

// The edge of what is not in order, and of record 0.
pub const NONE: usize = 0;

pub const FIRST: usize = 1;

// Whether they end at n.
pub fn ends_at(at: usize, n: usize) -> bool
    ensures { (d : Description) → result ≡ ends_at d n (edge at) }
{
    at != NONE && at - 1 == n
}
