//! A round: which vertices are taken out, and the nodes that close their holes.
#![tactic(auto)]

ghost use Rattle.std.specs.Prelude.{◌≡◌, length, take};
ghost use Rattle.rounds.specs.Rounds.{RoundLive, round_count, round_nodes, round_said};

mod choices;
mod closing;
mod held;
mod holes;
mod live;
mod numbers;
mod taking;

use held::Held;
use live::live_numbers;
use nodes::WriteStore;
pub use numbers::wrong_nodes;
use numbers::{MOST_NODES, MOST_VERTICES, wrong_number};
use plane::Point;
use refusal::{Cause, Layer, Refusal};
use sheet::Size;
use taking::round_within;

/// One round, after so many: the inner vertices are looked at in ascending order, and each is taken out that is left, has three to eight
/// live nodes around it which make one fan, whose ring can be cut, and no neighbour that is taken out before it. The nodes that close the
/// holes go into the store, and the first `count` numbers of `live`, which name the live nodes, give way to those after it; the answer is
/// how many these are.
///
/// Refused, with everything as it was: a number outside its range or a broken fan (27), no vertex left (24), fewer taken out than one in
/// eighteen of those left (21, at the round), no room in the store (22, at the room wanted) or in `live` (27).
#[tactic(auto, using(crate::proofs::Right::right), unfolding(crate::specs::Rounds::round_said))]
pub fn round<S: WriteStore>(
    size: Size,
    points: &[Point],
    live: &mut [u16],
    count: usize,
    rounds: u16,
    store: &mut S,
) -> Result<usize, Refusal>
    ensures said { result ≡ round_count (round_said size points.now (S.ReadStore.nodes store.old) (take count live.old) rounds (S.WriteStore.room store.old) (length live.old)) }
    ensures nodes { S.ReadStore.nodes store.new ≡ round_nodes (round_said size points.now (S.ReadStore.nodes store.old) (take count live.old) rounds (S.WriteStore.room store.old) (length live.old)) (S.ReadStore.nodes store.old) }
    ensures live { RoundLive (round_said size points.now (S.ReadStore.nodes store.old) (take count live.old) rounds (S.WriteStore.room store.old) (length live.old)) live.old live.new }
    ensures room { S.WriteStore.room store.new ≡ S.WriteStore.room store.old }
{
    let numbers = live_numbers(live, count);
    if let Some(place) = wrong_number(size, points, store, numbers) {
        return Err(Refusal::new(Cause::OutOfRange, Layer::Build, place));
    }
    let mut table = [Held::default(); MOST_NODES];
    let mut marks = [false; MOST_VERTICES];
    let marks = &mut marks[..usize::from(size.inner) + 4];
    round_within(size, points, live, count, rounds, &mut table, marks, store)
}

#[cfg(test)]
mod tests;
