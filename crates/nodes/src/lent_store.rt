ghost use Rattle.std.specs.Prelude.{◌≡◌, [], length, take};
ghost use Rattle.nodes.specs.Nodes.{add_said, added};
ghost use Rattle.nodes.specs.Stores.{memory_of, stored};

use crate::memory::Memory;
use crate::node::Node;
use crate::store::{ReadStore, WriteStore};
use refusal::{Cause, Layer, Refusal};

/// A store over memory that the caller lends: its nodes are the first `used` that the memory has.
// A count beside the memory, and no `Vec`: the memory is the caller's.
#[derive(Drop)]
pub struct LentStore<M> {
    pub(crate) memory: M,
    pub(crate) used: usize,
}

impl<M: Memory> LentStore<M> {
    /// An empty store, with room for as many nodes as `memory` has.
    pub fn new(memory: M) -> LentStore<M>
        ensures nodes { stored M.nodes result ≡ [] }
        ensures lent { memory_of result ≡ memory }
    {
        LentStore { memory, used: 0 }
    }

    /// A store of the first `used` nodes that `memory` has.
    pub fn over(memory: M, used: usize) -> LentStore<M>
        ensures nodes { stored M.nodes result ≡ take used (M.nodes memory) }
        ensures lent { memory_of result ≡ memory }
    {
        LentStore { memory, used }
    }
}

/// How a store is read.
impl<M: Memory> ReadStore for LentStore<M> {
    ghost nodes = { stored M.nodes };

    // Never more than there is room for, whatever `used` says.
    fn count(&self) -> usize {
        self.used.min(self.memory.room())
    }

    fn number(&self, k: usize, i: usize) -> Result<u16, Refusal> {
        if k >= self.count() || i >= 14 {
            return Err(Refusal::new(Cause::OutOfRange, Layer::Store, k));
        }
        Ok(self.memory.number(k, i))
    }
}

/// How a store is filled.
impl<M: Memory> WriteStore for LentStore<M> {
    ghost room = { λ s. M.room (memory_of s) };

    fn capacity(&self) -> usize {
        self.memory.room()
    }

    // As the trait says, and all that is not of a new node stays as it is.
    fn add(&mut self, node: Node) -> Result<(), Refusal>
        ensures said { result ≡ add_said (stored M.nodes self.old) (M.room (memory_of self.old)) }
        ensures nodes { stored M.nodes self.new ≡ added (stored M.nodes self.old) (M.room (memory_of self.old)) node }
        ensures room { M.room (memory_of self.new) ≡ M.room (memory_of self.old) }
        ensures rest { M.kept_but (length (stored M.nodes self.old)) (memory_of self.old) (memory_of self.new) }
        ensures full { length (stored M.nodes self.old) ≡ M.room (memory_of self.old) → memory_of self.new ≡ memory_of self.old }
    {
        let count = self.count();
        if count >= self.memory.room() {
            return Err(Refusal::new(Cause::StoreFull, Layer::Store, count + 1));
        }
        self.memory.put(count, node);
        self.used = count + 1;
        Ok(())
    }

    // As the trait says, and the memory stays as it is.
    fn empty(&mut self)
        ensures nodes { stored M.nodes self.new ≡ [] }
        ensures room { M.room (memory_of self.new) ≡ M.room (memory_of self.old) }
        ensures rest { memory_of self.new ≡ memory_of self.old }
    {
        self.used = 0;
    }
}
