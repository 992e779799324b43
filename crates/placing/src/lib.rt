//! The answer to a tip of a sealed sheet, or why there is none.
#![tactic(auto)]

ghost use Rattle.std.specs.Prelude.{◌≡◌, ◌≤◌, length, map, take};
ghost use Rattle.lent.specs.Kept.{over};
ghost use Rattle.placing.specs.Placings.{PlaceTells, list_said, place_said};

use checking::front;
use nodes::ReadStore;
use plane::{Kernel, Point};
use refusal::{Cause, Layer, Refusal};
use sheet::Size;
use walk::{Found, find, is_sheet_size};

/// Names the cell that holds the tip at this position of a list, with the count of sides tested: by a walk over the nodes, from the top
/// ones down. Refuses a tip that is not fit (25, at its position), a size that no sheet has (27, at 0), a tip off the sheet (26, at its
/// position), and what the walk finds wrong (27, at the number's entry or node). Of `points` only inner vertices are read.
#[tactic(auto, unfolding(crate::specs::Placings::place_said))]
pub fn place_tip<K: Kernel, S: ReadStore>(
    size: Size,
    tip: &K,
    position: usize,
    points: &[Point],
    tops: &[u16],
    store: &S,
) -> Result<Found, Refusal>
    ensures { result ≡ place_said size (K.means tip.now) position points.now (S.nodes store.now) tops.now }
{
    if !tip.fit() {
        return Err(Refusal::new(Cause::UnfitTip, Layer::Place, position));
    }
    if !is_sheet_size(size) {
        return Err(Refusal::new(Cause::OutOfRange, Layer::Place, 0));
    }
    if !tip.on_sheet(size.width, size.height) {
        return Err(Refusal::new(Cause::OffSheet, Layer::Place, position));
    }
    match find(tip, size, points, tops, store) {
        Ok(found) => Ok(found),
        Err(place) => Err(Refusal::new(Cause::OutOfRange, Layer::Place, place)),
    }
}

// Answers tips one after another into a table that has an entry for each.
fn answer_tips<K: Kernel, S: ReadStore>(
    size: Size,
    tips: &[K],
    points: &[Point],
    tops: &[u16],
    store: &S,
    answers: &mut [Result<Found, Refusal>],
)
    requires { length tips.now ≤ length answers.old }
    ensures { answers.new ≡ over (list_said size 0 points.now (S.nodes store.now) tops.now (map K.means tips.now)) answers.old }
{
    for i in 0..tips.len() {
        answers[i] = place_tip(size, &tips[i], i, points, tops, store);
    }
}

/// Answers tips one after another into a table, as many as it has entries for; the entries behind stay.
#[tactic(auto, using(crate::proofs::Listing::means_of_front))]
pub fn place_all<K: Kernel, S: ReadStore>(
    size: Size,
    tips: &[K],
    points: &[Point],
    tops: &[u16],
    store: &S,
    answers: &mut [Result<Found, Refusal>],
)
    ensures { answers.new ≡ over (list_said size 0 points.now (S.nodes store.now) tops.now (take (length answers.old) (map K.means tips.now))) answers.old }
{
    let tips = front(tips, answers.len());
    answer_tips(size, tips, points, tops, store, answers);
}

/// Over nodes that cuts and rounds made of a checked sheet, the answer to every tip on the sheet names the one cell that holds it.
pub fn place_tells_stands()
    ensures { PlaceTells }
{}
