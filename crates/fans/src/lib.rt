//! The live nodes around a vertex: how many they are, and the fan that they make.
#![tactic(auto)]

ghost use Rattle.fans.specs.Around.{AroundTells};
ghost use Rattle.fans.specs.Examples.{FanExamples};
ghost use Rattle.fans.specs.Fans.{FanCloses, TurnedIsNode, WholeFanHasAll, WholeFanHasLive};

mod around;
mod corners;
mod counts;
mod links;

pub use around::{Turned, turn};
pub use corners::corners_at;
pub use counts::degrees;
pub use links::fan;

/// The entries around a vertex are of the live nodes that have it as a corner, each as its node turns.
pub fn around_tells_stands()
    ensures { AroundTells }
{}

/// A node that turns to a vertex is its own triangle, from that vertex on.
#[tactic(auto, using(crate::proofs::Fans::turned_is_node))]
pub fn turned_is_node_stands()
    ensures { TurnedIsNode }
{}

/// The triangles of a fan are those that the vertex makes with the ring of the noted corners.
#[tactic(auto, using(crate::proofs::Fans::fan_closes))]
pub fn fan_closes_stands()
    ensures { FanCloses }
{}

/// A fan that is whole has each of the entries around the vertex once.
#[tactic(auto, using(crate::proofs::Whole::whole_fan_has_all))]
pub fn whole_fan_has_all_stands()
    ensures { WholeFanHasAll }
{}

/// So the nodes of such a fan are exactly the live nodes that have the vertex as a corner.
#[tactic(auto, using(crate::proofs::Whole::whole_fan_has_live))]
pub fn whole_fan_has_live_stands()
    ensures { WholeFanHasLive }
{}

/// The worked examples of fans follow from the definitions.
pub fn fan_examples_stand()
    ensures { FanExamples }
{}

#[cfg(test)]
mod tests;
