ghost use Rattle.std.specs.Prelude.{◌≡◌, ◌<◌, [], length, refl};
ghost use Rattle.nodes.specs.Stores.{memory_of, slice_nodes, slice_room, SlotsKeptBut};

use crate::lent_store::LentStore;
use crate::memory::Memory;
use crate::node::Node;

/// A store over records that the caller lends, a node in each.
pub type SliceStore<'a> = LentStore<&'a mut [Node]>;

/// Records as memory for nodes.
impl<'a> Memory for &'a mut [Node] {
    ghost nodes = { λ slots. slots.now };

    ghost room = { λ slots. length slots.now };

    ghost kept_but = { λ k old new. SlotsKeptBut k old.now new.now };

    ghost sized = { λ slots. refl };

    ghost unchanged = { λ k slots j h. refl };

    fn room(&self) -> usize {
        self.len()
    }

    fn number(&self, k: usize, i: usize) -> u16 {
        let slots: &[Node] = self;
        slots[k].number(i)
    }

    fn put(&mut self, k: usize, node: Node) {
        self[k] = node;
    }
}
