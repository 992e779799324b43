//! One sheet at its stage, and the turns that are taken with it over tables and a store that the caller lends.
#![tactic(auto)]

ghost use Rattle.board.specs.Law.{LawOfHistories};
ghost use Rattle.board.specs.Unaltered.{HistoriesAreInRange};

mod stage;
mod turns;
mod typed;

pub use bottom::LEAST_LIVE;
pub use stage::{Board, Stage};
pub use typed::{Checked, Draft, Layered, Refused, Sealed};

/// The law holds of every history that begins with an empty Draft, over tables and a store of any size and content: for whoever makes the turns
/// one by one.
#[tactic(auto, using(crate::proofs::Lawful::law))]
pub fn law_stands()
    ensures { LawOfHistories }
{}

/// No turn of such a history tells a number outside its range, nor is that an entry of a list: for only turns change the tables there.
#[tactic(auto, using(crate::proofs::Ranges::in_range))]
pub fn histories_are_in_range_stands()
    ensures { HistoriesAreInRange }
{}
