//! Cutting a polygon into triangles: ear after ear, each the one of the lowest position.
#![tactic(auto)]

ghost use Rattle.ears.specs.Cutting.{CutIsCut};
ghost use Rattle.ears.specs.Examples.{EarExamples};
ghost use Rattle.ears.specs.Numbers.{EarsByNumber};

mod cutting;
mod ears;
mod shape;

pub use cutting::cut;

/// Wherever a polygon can be cut at its ears, the triangles are a cut of it, and each turns left.
pub fn cut_is_cut()
    ensures { CutIsCut }
{}

/// Where no vertex is named twice, the other corners of an ear are told by their numbers as by their positions.
#[tactic(auto, using(crate::proofs::Numbers::ears_by_number))]
pub fn ears_by_number_stand()
    ensures { EarsByNumber }
{}

/// The worked examples of cutting follow from the definitions.
pub fn ear_examples_stand()
    ensures { EarExamples }
{}

#[cfg(test)]
mod tests;
