ghost use Rattle.std.specs.Prelude.{◌≡◌, ℕ, ◌^◌, ◌<◌, List, length, slice_set};
ghost use Rattle.nodes.specs.declared.node.Node.{Node};
ghost use Rattle.nodes.specs.Nodes.{number_in};

use crate::node::Node;

/// Memory that a caller lends for nodes: a row of places, each of which holds a node from the start.
pub trait Memory {
    // the nodes at all the places, in use or not
    ghost nodes: { Self → List Node };

    // how many places there are
    ghost room: { Self → ℕ };

    // nothing but the node at this place has changed
    ghost kept_but: { ℕ → Self → Self → Type 0 };

    /// How many nodes there is room for.
    fn room(&self) -> usize
        ensures room { result ≡ room self.now }
        ensures fits { result < 2 ^ 63 };

    /// Number `i` of the node at place `k`.
    fn number(&self, k: usize, i: usize) -> u16
        requires place { k < room self.now }
        requires number { i < 14 }
        ensures { result ≡ number_in (nodes self.now) k i };

    /// Writes `node` at place `k`, and nothing else.
    fn put(&mut self, k: usize, node: Node)
        requires { k < room self.old }
        ensures nodes { nodes self.new ≡ slice_set (nodes self.old) k node }
        ensures room { room self.new ≡ room self.old }
        ensures rest { kept_but k self.old self.new };

    // each place has a node
    ghost sized: { (m : Self) → length (nodes m) ≡ room m };

    // a memory to which nothing happened
    ghost unchanged: { (k : ℕ) (m : Self) → kept_but k m m };
}
