// The value of a constant: the number of its record and of the records of its further digits.
ghost use Rattle.std.specs.Prelude.{◌≡◌, suc, ◌+◌, ◌-◌, ◌*◌, ◌%◌, ◌^◌, ◌≤◌, length};
ghost use Rattle.language.specs.Decode.{node_of};
ghost use Rattle.language.specs.Description.{constant_value};
ghost use Rattle.value_limbs.specs.Limbs.{number};
ghost use Rattle.value_operators.specs.Meaning.{valued};
ghost use Rattle.image_records.specs.Nodes.{digits, held};
ghost use Rattle.language.specs.Encode.{node_size};

use image_records::nodes::Node;
use image_records::{nodes, numbers, record_sizes};
use value_operators::Value;

// The number of record n and of the k records before it, as far as there are any, modulo 2 to the 256, one record after the other.
fn joined_at(exprs: &[u8], n: usize, k: u8) -> [u64; 4]
    requires { node_size * n + node_size ≤ length exprs.now }
    ensures { number result ≡ digits (suc k) (suc n) exprs.now % 2 ^ 256 }
{
    let mut x = [0u64; 4];
    for i in n.saturating_sub(k as usize)..=n {
        let digit = numbers::six_there(exprs, record_sizes::NODE * i + 2);
        // By a name of its own: the check covers no call's result laid straight over an array.
        let longer = value_limbs::shifts::joined(x, 48, value_limbs::small(digit));
        x = longer;
    }
    x
}

// The same number; that of one record stands there as it is.
fn number_at(exprs: &[u8], n: usize, k: u8) -> [u64; 4]
    requires { node_size * n + node_size ≤ length exprs.now }
    ensures { number result ≡ digits (suc k) (suc n) exprs.now % 2 ^ 256 }
{
    if k == 0 {
        return value_limbs::small(numbers::six_there(exprs, record_sizes::NODE * n + 2));
    }
    joined_at(exprs, n, k)
}

// The value of a constant that ends at record n; a value without bits where none does.
pub fn constant_at(exprs: &[u8], n: usize) -> Value
    ensures { valued result ≡ held (constant_value (node_of exprs.now n)) }
{
    let none = Value {
        limbs: [0u64; 4],
        length: 0,
    };
    if exprs.len() / record_sizes::NODE <= n {
        return none;
    }
    let Node::Constant(length) = nodes::node_at(exprs, n) else {
        return none;
    };
    let more = exprs[record_sizes::NODE * n + 1] / 48;
    Value {
        limbs: number_at(exprs, n, more),
        length,
    }
}
