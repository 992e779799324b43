ghost use Rattle.std.specs.Prelude.{◌≡◌, ℕ, List, [], length};
ghost use Rattle.nodes.specs.declared.node.Node.{Node};
ghost use Rattle.nodes.specs.Nodes.{number_at, add_said, added};

use crate::node::Node;
use refusal::Refusal;

/// A store as it is read: a list of nodes, by their places from 0.
pub trait ReadStore {
    // the nodes that are held, in the order in which they were added
    ghost nodes: { Self → List Node };

    /// How many nodes the store holds.
    fn count(&self) -> usize
        ensures { result ≡ length (nodes self.now) };

    /// Number `i` of node `k`, or a refusal at `k` where there is none.
    fn number(&self, k: usize, i: usize) -> Result<u16, Refusal>
        ensures { result ≡ number_at (nodes self.now) k i };
}

/// A store as it is filled: it has room for a number of nodes that never changes.
pub trait WriteStore: ReadStore {
    // for how many nodes there is room in all
    ghost room: { Self → ℕ };

    /// How many nodes the store can hold.
    fn capacity(&self) -> usize
        ensures { result ≡ room self.now };

    /// Puts `node` after the others, or refuses and leaves all as it was where the store is full.
    fn add(&mut self, node: Node) -> Result<(), Refusal>
        ensures said { result ≡ add_said (Self.ReadStore.nodes self.old) (room self.old) }
        ensures nodes { Self.ReadStore.nodes self.new ≡ added (Self.ReadStore.nodes self.old) (room self.old) node }
        ensures room { room self.new ≡ room self.old };

    /// Takes all nodes out.
    fn empty(&mut self)
        ensures nodes { Self.ReadStore.nodes self.new ≡ [] }
        ensures room { room self.new ≡ room self.old };
}
