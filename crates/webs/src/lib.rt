//! Why no turn finds a number outside its range in a sheet that nobody altered. The live nodes of a layer make a web: each side of one of
//! them is a side of one other, or of the border. So the fan of a vertex closes, and the nodes can be counted. Each function only carries a
//! theorem, so that the check asks for its proof.
#![tactic(auto)]

ghost use Rattle.webs.specs.Theorems.{CutIsUnhindered, FansClose, LayersAreCounted, NoFanIsBroken, NoNumberIsWrong, RoundIsUnhindered, SealTellsLeft};

/// The fan of every inner vertex that is left comes round to where it began, after the cut and after every round.
#[tactic(auto, using(crate::proofs::Theorems::fans_close))]
pub fn fans_close_stands()
    ensures { FansClose }
{}

/// A round finds no fan that is broken.
#[tactic(auto, using(crate::proofs::Theorems::no_fan_is_broken))]
pub fn no_fan_is_broken_stands()
    ensures { NoFanIsBroken }
{}

/// The live nodes are two more than twice the vertices left, and all nodes are at most two more than eight times the inner vertices.
#[tactic(auto, using(crate::proofs::Theorems::layers_are_counted))]
pub fn layers_are_counted_stands()
    ensures { LayersAreCounted }
{}

/// No number of the points and of the nodes is outside its range.
#[tactic(auto, using(crate::proofs::Theorems::no_number_is_wrong))]
pub fn no_number_is_wrong_stands()
    ensures { NoNumberIsWrong }
{}

/// A cut of a checked sheet is never refused because of a number outside its range, nor for want of room in a store for the bottom nodes.
#[tactic(auto, using(crate::proofs::Theorems::cut_is_unhindered))]
pub fn cut_is_unhindered_stands()
    ensures { CutIsUnhindered }
{}

/// Nor is a round over one of its layers, nor for want of room in a store for as many nodes as the sheet can have.
#[tactic(auto, using(crate::proofs::Theorems::round_is_unhindered))]
pub fn round_is_unhindered_stands()
    ensures { RoundIsUnhindered }
{}

/// A seal is refused while a vertex is left, and is granted where none is.
#[tactic(auto, using(crate::proofs::Theorems::seal_tells_left))]
pub fn seal_tells_left_stands()
    ensures { SealTellsLeft }
{}
