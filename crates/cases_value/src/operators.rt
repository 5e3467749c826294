// The operator that a letter stands for.
use value_operators::{
    Value, arithmetic, logical, numbers, parts, reductions, relations, substrings,
};

// Relations.
fn related(op: u8, x: Value, y: Value) -> Option<Value> {
    match op {
        b'=' => relations::equal(x, y),
        b'#' => relations::unequal(x, y),
        b'<' => relations::less(x, y),
        b'>' => relations::greater(x, y),
        b'{' => relations::at_most(x, y),
        b'}' => relations::at_least(x, y),
        b'e' => relations::related(numbers::same(x, y)),
        b'i' => relations::related(numbers::fits64(x)),
        _ => None,
    }
}

// The other operators of two operands, and the negation.
fn combined(op: u8, x: Value, y: Value) -> Option<Value> {
    match op {
        b'+' => arithmetic::sum(x, y),
        b'-' => arithmetic::difference(x, y),
        b'n' => arithmetic::negation(x),
        b'~' => logical::complement(x),
        b'*' => logical::conjunction(x, y),
        b'^' => logical::exclusive(x, y),
        b'|' => logical::disjunction(x, y),
        b',' => substrings::join(x, y),
        _ => related(op, x, y),
    }
}

// The reductions, and the numbers of the machine.
fn reduced(op: u8, x: Value, y: Value) -> Option<Value> {
    match op {
        b'o' => reductions::or_reduction(x),
        b'a' => reductions::and_reduction(x),
        b'x' => reductions::exclusive_reduction(x),
        b's' => reductions::sum_reduction(x),
        b'f' => numbers::from_number(x.length, numbers::low64(x)),
        b'w' => numbers::from_number(64, numbers::low64(x)),
        _ => combined(op, x, y),
    }
}

// The value of the operator `op` on x, y and the count c.
pub fn applied(op: u8, x: Value, y: Value, c: u16) -> Option<Value> {
    match op {
        b'@' => substrings::extended(x, c),
        b'h' => substrings::head(x, c),
        b't' => substrings::tail(x, c),
        b'p' => parts::part(x, c, y.length),
        b'r' => parts::replaced(x, c, y.length, y),
        _ => reduced(op, x, y),
    }
}
