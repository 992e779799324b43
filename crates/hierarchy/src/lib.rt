//! The nodes that cutting and rounds make, as triangles over a checked sheet. Each function only carries a theorem, so that the check asks
//! for its proof.
#![tactic(auto)]

ghost use Rattle.hierarchy.specs.Examples.{LayerExamples};
ghost use Rattle.hierarchy.specs.Falls.{RoundTakesOut, RoundsAreFew};
ghost use Rattle.hierarchy.specs.Theorems.{BottomIsCut, ChildlessIsBottom, ChildrenAreEarlier, ChildrenCover, CornersAreVertices, LiveCountsAsBorder, LiveCovers, NodesTurnLeft};
ghost use Rattle.hierarchy.specs.Turns.{TurnsMakeLayers};

/// Where all loops of a sheet are cut, the triangles of the bottom are cuts of the loops, and turn left.
pub fn bottom_is_cut_stands()
    ensures { BottomIsCut }
{}

/// The live numbers ascend and are nodes, and the triangle of every node turns left.
#[tactic(auto, using(crate::proofs::Theorems::nodes_turn_left))]
pub fn nodes_turn_left_stands()
    ensures { NodesTurnLeft }
{}

/// The corners of every node are vertices of the sheet.
pub fn corners_are_vertices_stands()
    ensures { CornersAreVertices }
{}

/// The nodes of the bottom come first; they are triangles of the loops' cuts, and they alone have no children.
pub fn childless_is_bottom_stands()
    ensures { ChildlessIsBottom }
{}

/// A node has at most eight children, each of a lower number and made in an earlier round.
#[tactic(auto, using(crate::proofs::Theorems::children_are_earlier))]
pub fn children_are_earlier_stands()
    ensures { ChildrenAreEarlier }
{}

/// What the closed triangle of a node with children holds, that of one of its children holds too.
#[tactic(auto, using(crate::proofs::Theorems::children_cover))]
pub fn children_cover_stands()
    ensures { ChildrenCover }
{}

/// The live nodes together count a point as often as the border of the sheet does, after the cut and after every round.
#[tactic(auto, using(crate::proofs::Theorems::live_counts_as_border))]
pub fn live_counts_as_border_stands()
    ensures { LiveCountsAsBorder }
{}

/// The closed triangle of some live node holds each point of the closed sheet, after the cut and after every round.
#[tactic(auto, using(crate::proofs::Theorems::live_covers))]
pub fn live_covers_stands()
    ensures { LiveCovers }
{}

/// The worked examples of cutting and rounds follow from the definitions.
pub fn layer_examples_stand()
    ensures { LayerExamples }
{}

/// What a granted cut and granted rounds of an unaltered sheet leave in the store and among the live numbers is the hierarchy that is
/// defined of the sheet alone.
pub fn turns_make_layers_stands()
    ensures { TurnsMakeLayers }
{}

/// Rounds that each take out a vertex at least, and no fewer than an eighteenth of those left, are at most thirteen for each binary digit
/// of the count of inner vertices.
#[tactic(auto, using(crate::proofs::Falls::rounds_are_few))]
pub fn rounds_are_few_stands()
    ensures { RoundsAreFew }
{}

/// A round tells how many vertices are left, and takes its own out: what is left after it, with the chosen ones, is no more than what was
/// left before.
#[tactic(auto, using(crate::proofs::TakesOut::round_takes_out))]
pub fn round_takes_out_stands()
    ensures { RoundTakesOut }
{}
