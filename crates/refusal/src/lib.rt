//! Why something that was handed in is not taken: one number, a layer and a place.
#![tactic(auto)]

ghost use Rattle.std.specs.Prelude.{◌≡◌, Some};
ghost use Rattle.refusal.specs.Numbers.{number as number_of, layer as layer_of, refused};
ghost use Rattle.refusal.specs.Printed.{layer_name, sentence, words};

use std::error::Error;
use std::fmt;

/// What is wrong. Each case has one number, which `specs/Numbers.antt` gives.
#[derive(Clone, Copy, PartialEq, Eq, Debug)]
pub enum Cause {
    /// The file ends before the sheet does.
    FileEnds = 1,
    /// A number is not written in its shortest form of at most three groups.
    BadNumber = 2,
    /// The edition is not one that is read.
    BadEdition = 3,
    /// The width or the height is outside its range.
    BadSize = 4,
    /// A count is over its limit, or the corners in all are.
    OverLimit = 5,
    /// An inner vertex does not lie strictly inside the sheet.
    VertexOutside = 6,
    /// A loop's count of corners is outside its range.
    BadCornerCount = 7,
    /// A corner names a vertex that the sheet does not have.
    NoSuchVertex = 8,
    /// A numeral is outside its range, or labelled twice.
    BadNumeral = 9,
    /// A wording's length, or one of its bytes, is outside its range.
    BadWording = 10,
    /// Bytes follow the last label.
    BytesLeft = 11,
    /// A table is shorter than its least size.
    TableTooShort = 12,
    /// The loops cannot tile the sheet: their corners do not add up.
    LoopSum = 13,
    /// Two vertices are the same point.
    SamePoint = 14,
    /// A loop names a vertex twice.
    VertexTwice = 15,
    /// A directed edge is listed twice.
    EdgeTwice = 16,
    /// The reverse of a listed edge is not listed.
    NoReverse = 17,
    /// An inner vertex is a corner of no loop.
    VertexUnused = 18,
    /// Two edges touch where they share no vertex.
    EdgesTouch = 19,
    /// A loop's signed area is not above 0.
    LoopTurned = 20,
    /// A loop cannot be cut, or a round takes out too few vertices.
    Stuck = 21,
    /// The store has no room for the nodes.
    StoreFull = 22,
    /// Inner vertices are left at sealing.
    VerticesLeft = 23,
    /// No inner vertex is left for a round.
    NoneLeft = 24,
    /// The kernel does not take the tip.
    UnfitTip = 25,
    /// The tip lies off the sheet.
    OffSheet = 26,
    /// A number read from a table or a store is outside its range.
    OutOfRange = 27,
    /// The turn does not belong to the sheet's stage.
    NotThisStage = 28,
}

/// Which part of the software refuses.
#[derive(Clone, Copy, PartialEq, Eq, Debug)]
pub enum Layer {
    /// Load and wording.
    File = 1,
    /// The check of a sheet.
    Check = 2,
    /// Cut, round and seal.
    Build = 3,
    /// Place and list.
    Place = 4,
    /// A store of nodes; its refusal travels whole inside the others.
    Store = 5,
}

/// A refusal: what is wrong, who says so, and where.
#[derive(Clone, Copy, PartialEq, Eq, Debug)]
pub struct Refusal {
    /// What is wrong.
    pub cause: Cause,
    /// Who says so.
    pub layer: Layer,
    /// Where: a byte, an entry, a vertex or a count, as the cause has it.
    pub place: usize,
}

/// The number that stands for a cause wherever it is printed or kept.
impl From<Cause> for u8 {
    ghost from_gives = { λ cause n. n ≡ number_of cause };

    fn from(cause: Cause) -> u8 {
        cause as u8
    }
}

impl Cause {
    /// The number that stands for the cause wherever it is printed or kept.
    pub fn number(self) -> u8
        ensures { result ≡ number_of self }
    {
        u8::from(self)
    }
}

/// What to mend, in a plain sentence.
impl fmt::Display for Cause {
    ghost output = { λ cause. Some (sentence cause) };

    fn fmt<W: fmt::Write>(&self, f: &mut fmt::Formatter<W>) -> fmt::Result {
        f.write_str(match self {
            Cause::FileEnds => "the file stops too early; send it whole",
            Cause::BadNumber =>
                "a number is not in its shortest form of one to three groups; write it anew",
            Cause::BadEdition => "this edition of the file is not known; write edition 1",
            Cause::BadSize => "width and height must each be 2 to 8,191",
            Cause::OverLimit => "there are more of these than a sheet may have; split the sheet",
            Cause::VertexOutside => "an inner vertex must lie strictly inside the sheet; move it",
            Cause::BadCornerCount =>
                "a loop has 3 corners at least, and no more than the sheet has vertices",
            Cause::NoSuchVertex =>
                "a corner names a vertex that the sheet does not have; correct its number",
            Cause::BadNumeral =>
                "a numeral is 0 to 255 at a loop, 1 to 255 at a label, and labelled once",
            Cause::BadWording =>
                "a wording has 1 to 63 characters, each a printable ASCII one; shorten or retype it",
            Cause::BytesLeft => "the file goes on after its last label; cut the rest off",
            Cause::TableTooShort => "a table is too short; lend a longer one",
            Cause::LoopSum =>
                "the loops leave a gap or lie over each other; count their corners again",
            Cause::SamePoint => "two vertices are the same point; merge them",
            Cause::VertexTwice => "a loop names a vertex twice; split the loop there",
            Cause::EdgeTwice => "two loops lie on the same side of an edge; turn or remove one",
            Cause::NoReverse => "no loop lies on the other side of an edge; add the missing one",
            Cause::VertexUnused => "an inner vertex is a corner of no loop; remove it",
            Cause::EdgesTouch => "two edges touch or cross; put a vertex where they meet",
            Cause::LoopTurned =>
                "a loop goes round clockwise, or encloses nothing; list its corners counterclockwise",
            Cause::Stuck => "the loop cannot be cut, or the sheet layered, any further; redraw it",
            Cause::StoreFull => "the store is too small; lend one with room for so many nodes",
            Cause::VerticesLeft => "inner vertices are left; run more rounds before sealing",
            Cause::NoneLeft => "no inner vertex is left; seal the sheet",
            Cause::UnfitTip => "the tip's numbers are outside what the kernel takes",
            Cause::OffSheet => "the tip lies off the sheet; move it",
            Cause::OutOfRange => "a table or a store was altered; load the sheet again",
            Cause::NotThisStage =>
                "the sheet is not at the stage for this; take the turns in order",
        })
    }
}

/// The number that stands for a layer wherever it is printed or kept.
impl From<Layer> for u8 {
    ghost from_gives = { λ layer n. n ≡ layer_of layer };

    fn from(layer: Layer) -> u8 {
        layer as u8
    }
}

impl Layer {
    /// The number that stands for the layer wherever it is printed or kept.
    pub fn number(self) -> u8
        ensures { result ≡ layer_of self }
    {
        u8::from(self)
    }
}

/// What a person calls the layer.
impl fmt::Display for Layer {
    ghost output = { λ layer. Some (layer_name layer) };

    fn fmt<W: fmt::Write>(&self, f: &mut fmt::Formatter<W>) -> fmt::Result {
        f.write_str(match self {
            Layer::File => "file",
            Layer::Check => "check",
            Layer::Build => "build",
            Layer::Place => "place",
            Layer::Store => "store",
        })
    }
}

impl Refusal {
    /// A refusal by its three parts.
    pub fn new(cause: Cause, layer: Layer, place: usize) -> Refusal
        ensures { result ≡ refused cause layer place }
    {
        Refusal {
            cause,
            layer,
            place,
        }
    }
}

impl fmt::Display for Refusal {
    ghost output = { λ refusal. Some (words refusal) };

    fn fmt<W: fmt::Write>(&self, f: &mut fmt::Formatter<W>) -> fmt::Result {
        let number = self.cause.number();
        let layer = self.layer.number();
        write!(
            f,
            "refusal {number}, layer {layer} ({}), place {}: {}",
            self.layer, self.place, self.cause
        )
    }
}

impl Error for Refusal {}

#[cfg(test)]
mod tests;
