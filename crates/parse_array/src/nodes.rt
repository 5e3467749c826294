// Expression records, one behind the other, and the places of their words.
ghost use Rattle.std.specs.Prelude.{◌≡◌};
ghost use Rattle.language.specs.Encode.{node_bytes};
ghost use Rattle.image_records.specs.Nodes.{meant};
ghost use Rattle.parse_array.specs.Held.{Added, fields};

use crate::Work;
use crate::layout::{MOST_NODES, NODE_BESIDE, NODE_PLACES, NODE_SIZE};
use image_records::nodes::Node;
use image_records::{bytes, node_bytes};

// The places beside a record: its word's, and those of the ends of a part, each with its mark.
#[derive(Clone, Copy)]
pub struct Beside {
    pub at: u16,
    pub first: u16,
    pub last: u16,
}

impl Beside {
    // As they are written.
    #[tactic(auto, unfolding(language::specs::Encode::little))]
    pub fn bytes(self) -> [u8; NODE_BESIDE]
        ensures { result ≡ fields self }
    {
        let [a0, a1] = self.at.to_le_bytes();
        let [b0, b1] = self.first.to_le_bytes();
        let [c0, c1] = self.last.to_le_bytes();
        [a0, a1, b0, b1, c0, c1]
    }
}

// Adds record n with its places; answers how many there are then, or none where there was no room.
pub fn add_node(work: &mut Work, n: u16, node: Node, v: u64, beside: Beside) -> Option<u16>
    ensures { Added n (node_bytes (meant v node)) (fields beside) work.old work.new result }
{
    let s: &mut [u8] = work;
    if MOST_NODES <= n {
        return None;
    }
    let k = n as usize;
    bytes::put(s, NODE_SIZE * k, &node_bytes::node_bytes(node, v));
    bytes::put(s, NODE_PLACES + NODE_BESIDE * k, &beside.bytes());
    Some(n + 1)
}
