ghost use Rattle.std.specs.Prelude.{◌≡◌, ℕ, ◌+◌, ◌*◌, ◌/◌, ◌<◌, ◌≤◌, [], length, slice_index, refl};
ghost use Rattle.std.proofs.lemmas.List.FromFn.{length-map-range_with_len};
ghost use Rattle.nodes.specs.Bytes.{room_of, offset, word, node_at, nodes_in, KeptBut};
ghost use Rattle.nodes.specs.Nodes.{numbers};
ghost use Rattle.nodes.specs.Stores.{memory_of, block_nodes, block_room};

use crate::lent_store::LentStore;
use crate::memory::Memory;
use crate::node::Node;

// Where node `k` begins among `len` bytes: a block's eighteen nodes take 504 of its 512 bytes, so each whole block before adds 8.
fn place(k: usize, len: usize) -> usize
    requires { k < 18 * (len / 512) }
    ensures begins { result ≡ offset k }
    ensures within { result + 28 ≤ len }
{
    28 * k + 8 * (k / 18)
}

// Writes the fourteen numbers of `node` from `at` on, and no other byte.
fn write_node(bytes: &mut [u8], at: usize, node: &Node)
    requires { at + 28 ≤ length bytes.old }
    ensures written { (i : ℕ) → i < 14 → word bytes.new (at + 2 * i) ≡ slice_index (numbers node.now) i }
    ensures rest { KeptBut at bytes.old bytes.new }
{
    // By index: after `chunks_exact_mut`, which was tried, a proof knows how long the bytes are, and not what they hold.
    for i in 0..14 {
        let [low, high] = node.number(i).to_le_bytes();
        bytes[at + 2 * i] = low;
        bytes[at + 2 * i + 1] = high;
    }
}

/// A store over bytes that the caller lends, eighteen nodes in each whole block of 512.
pub type BlockStore<'a> = LentStore<&'a mut [u8]>;

/// Bytes as memory for nodes: those that lie outside the nodes' own are never written.
impl<'a> Memory for &'a mut [u8] {
    ghost nodes = { λ bytes. nodes_in bytes.now (room_of bytes.now) };

    ghost room = { λ bytes. room_of bytes.now };

    ghost kept_but = { λ k old new. KeptBut (offset k) old.now new.now };

    ghost sized = { λ bytes. length-map-range_with_len (λ k. node_at bytes.now (offset k)) 0 (room_of bytes.now) };

    ghost unchanged = { λ k bytes j h. refl };

    fn room(&self) -> usize {
        18 * (self.len() / 512)
    }

    fn number(&self, k: usize, i: usize) -> u16 {
        let bytes: &[u8] = self;
        let at = place(k, bytes.len()) + 2 * i;
        u16::from_le_bytes([bytes[at], bytes[at + 1]])
    }

    fn put(&mut self, k: usize, node: Node) {
        let at = place(k, self.len());
        write_node(self, at, &node);
    }
}
