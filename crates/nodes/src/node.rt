ghost use Rattle.std.specs.Prelude.{◌≡◌, slice_index};
ghost use Rattle.nodes.specs.Nodes.{numbers};

/// A triangle of the hierarchy: its corners, its loop, which of its sides are edges of the sheet, and its children.
// Fourteen numbers, as every store keeps them on every machine: so a count beside eight children, 0 for a child that is not in use and
// for the loop of a node that has none, sides in one number, and 0 for a number past the fourteenth.
#[derive(Clone, Copy, PartialEq, Eq, Default, Debug)]
pub struct Node {
    /// The first corner's vertex.
    pub a: u16,
    /// The second corner's vertex, counterclockwise.
    pub b: u16,
    /// The third corner's vertex, counterclockwise.
    pub c: u16,
    /// The number of the loop that the triangle is part of; 0 for a node that closes a hole.
    pub ring: u16,
    /// 1 if ab is an edge of the sheet, and 2 more if bc is, and 4 more if ca is.
    pub sides: u16,
    /// How many of the children are in use.
    pub count: u16,
    /// The nodes below this one; a child that is not in use is 0.
    pub children: [u16; 8],
}

impl Node {
    /// Number `i` of the node's fourteen, in the order of its fields; past them 0.
    pub fn number(&self, i: usize) -> u16
        ensures { result ≡ slice_index (numbers self.now) i }
    {
        match i {
            0 => self.a,
            1 => self.b,
            2 => self.c,
            3 => self.ring,
            4 => self.sides,
            5 => self.count,
            6..=13 => self.children[i - 6],
            _ => 0,
        }
    }
}
