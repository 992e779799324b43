//! What the caller's tables hold.
ghost use Rattle.std.specs.Prelude.{◌≡◌};
ghost use Rattle.sheet.specs.Numerals.{some_numeral as numeral_where_some};
/// A loop: its numeral, the position of its first edge in the edge list, and how many corners it has.
// Plain numbers, since the table is the caller's: 0 where there is no numeral, and positions in place of a slice of edges.
#[derive(Clone, Copy, PartialEq, Eq, Debug, Default)]
pub struct Loop {
    /// The numeral of the part that the loop bounds, or 0 for none.
    pub numeral: u16,
    /// The position of its first edge.
    pub start: u16,
    /// How many corners it has.
    pub corners: u16,
}

impl Loop {
    /// The loop's numeral, where it has one.
    pub fn some_numeral(&self) -> Option<u16>
        ensures { result ≡ numeral_where_some self.now.numeral }
    {
        (self.numeral != 0).then_some(self.numeral)
    }
}

/// How large a sheet is, and how many of each kind it has.
// These counts stand beside the tables and not in them: the tables are the caller's, and longer.
#[derive(Clone, Copy, PartialEq, Eq, Debug, Default)]
pub struct Size {
    /// How wide the sheet is.
    pub width: u16,
    /// How high it is.
    pub height: u16,
    /// How many inner vertices it has.
    pub inner: u16,
    /// How many loops.
    pub loops: u16,
    /// How many corners its loops have together.
    pub corners: u16,
}

/// What stands in a file before the inner vertices: the sheet's width and height, and how many there are.
#[derive(Clone, Copy)]
pub struct Head {
    /// How wide the sheet is.
    pub width: u16,
    /// How high it is.
    pub height: u16,
    /// How many inner vertices it has.
    pub inner: u16,
}

/// A label: its numeral, and where its wording stands in the file.
// A place and a length, as the definitions have them, and no slice: a slice would have to be tied to the file in each clause.
#[derive(Clone, Copy)]
pub struct Label {
    /// The numeral that is labelled.
    pub numeral: u16,
    /// The place of the wording's first byte.
    pub place: usize,
    /// How many bytes the wording has.
    pub length: u16,
}
