//! Why a triangle tells the cell: crossing numbers, sums over cuts, and the theorem that exactly one cell holds each point of a
//! sheet. Each function only carries a theorem about the definitions, so that the check asks for its proof; a theorem is no type, so they
//! are not one function that is generic in it.
#![tactic(auto)]

ghost use Rattle.tiling.specs.Lemmas.{CutHasSides, CutSum, FanSum, HasMiddle, Nudges, OpenSide, PairedSum, RectangleCounts, TriangleCounts};
ghost use Rattle.tiling.specs.Theorems.{FanCovers, OneCell, TriangleTells};

/// A triangle whose corners turn to the left counts a point once or not at all: once strictly inside, not at all to the right of a side.
#[tactic(auto, using(crate::proofs::Counting::triangle_counts))]
pub fn triangle_counts_stands()
    ensures { TriangleCounts }
{}

/// Of two such triangles on both sides of an edge, exactly one counts a point in the open edge.
#[tactic(auto, using(crate::proofs::Theorems::open_side))]
pub fn open_side_stands()
    ensures { OpenSide }
{}

/// The border of a sheet counts a point once or not at all, and once strictly inside.
pub fn rectangle_counts_stands()
    ensures { RectangleCounts }
{}

/// A polygon has the sum of the triangles of its cut.
#[tactic(auto, using(crate::proofs::Cuts::cut_sum))]
pub fn cut_sum_stands()
    ensures { CutSum }
{}

/// A closed fan has the sum of its ring.
#[tactic(auto, using(crate::proofs::Fans::fan_sum))]
pub fn fan_sum_stands()
    ensures { FanSum }
{}

/// Edges that stand with their reverses, none twice, have the sum 0.
#[tactic(auto, using(crate::proofs::Pairs::paired_sum))]
pub fn paired_sum_stands()
    ensures { PairedSum }
{}

/// An edge of a polygon is a side of exactly one triangle of its cut; the reverse of every other side is a side too.
#[tactic(auto, using(crate::proofs::Cuts::cut_sides))]
pub fn cut_sides_stand()
    ensures { CutHasSides }
{}

/// There is a spot as near to a point as is wanted, on the way to another.
#[tactic(auto, using(crate::proofs::Nudging::nudge))]
pub fn nudge_stands()
    ensures { Nudges }
{}

/// A triangle whose corners turn to the left has a spot strictly inside.
#[tactic(auto, using(crate::proofs::Nudging::has_middle))]
pub fn middle_stands()
    ensures { HasMiddle }
{}

/// What the closed triangles hold that close the hole around a vertex, the closed triangles of its fan hold too.
pub fn fan_covers_stands()
    ensures { FanCovers }
{}

/// Some triangle of a cut sheet holds each of its points, and every one that does tells the cell that holds the point.
pub fn triangle_tells_stands()
    ensures { TriangleTells }
{}

/// Exactly one cell holds each point of a sheet.
#[tactic(auto, using(crate::proofs::Theorems::one_cell))]
pub fn one_cell_stands()
    ensures { OneCell }
{}
