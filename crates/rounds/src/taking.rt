//! A round over numbers that are right: what it finds, and what it takes out.
ghost use Rattle.std.specs.Prelude.{◌≡◌, ◌+◌, ◌-◌, ◌≤◌, [], IfOk, None as Nothing, Ok as Good, length, take};
ghost use Rattle.plane.specs.Points.{place_of};
ghost use Rattle.fans.specs.Around.{live_said};
ghost use Rattle.rounds.specs.Choices.{nothing_found};
ghost use Rattle.rounds.specs.Near.{Sound, found_of, held_of, look_near, looked, taken_said};
ghost use Rattle.rounds.specs.Rounds.{RoundLive, found_refusal as found_refusal_of, right_said, round_count, round_nodes, wrong_number};

use crate::choices::{Tally, look_all};
use crate::closing::close_all;
use crate::held::{Held, hold};
use crate::live::{count_kept, live_numbers, settle};
use crate::numbers::MOST_VERTICES;
use fans::degrees;
use nodes::{ReadStore, WriteStore};
use plane::Point;
use refusal::{Cause, Layer, Refusal};
use sheet::Size;

// Why a round that found so much goes no further, if it does not: the store has `count` nodes and room for `room`, and the live table room
// for `table` numbers, of which `live` are wanted.
fn found_refusal(
    tally: Tally,
    rounds: u16,
    count: usize,
    room: usize,
    table: usize,
    live: usize,
) -> Option<Refusal>
    requires chosen { tally.chosen ≤ 1024 }
    requires count { count + tally.fresh ≤ 65536 }
    ensures { result ≡ found_refusal_of count rounds room table live (found_of [] tally) }
{
    if tally.left == 0 {
        return Some(Refusal::new(Cause::NoneLeft, Layer::Build, 0));
    }
    if 18 * tally.chosen < tally.left {
        let place = usize::from(rounds) + 1;
        return Some(Refusal::new(Cause::Stuck, Layer::Build, place));
    }
    let wanted = count + tally.fresh;
    if room < wanted {
        return Some(Refusal::new(Cause::StoreFull, Layer::Build, wanted));
    }
    if table < live {
        return Some(Refusal::new(Cause::OutOfRange, Layer::Build, table));
    }
    None
}

// What is found of the vertices, where the live nodes are held; or the first whose fan is broken.
fn choose<S: ReadStore>(
    points: &[Point],
    store: &S,
    live: &[u16],
    held: &[Held],
    marks: &mut [bool],
) -> Result<Tally, usize>
    requires live { live_said (S.nodes store.now) live.now ≡ Good tt }
    requires few { length live.now ≤ 8194 }
    requires held { held.now ≡ held_of (S.nodes store.now) live.now }
    requires least { 4 ≤ length marks.old }
    requires most { length marks.old ≤ 1028 }
    ensures looked { looked marks.new result ≡ look_near (place_of points.now) held.now (length marks.old - 4) 4 (nothing_found (length marks.old)) }
    ensures sound { IfOk result (λ t. Sound (place_of points.now) held.now (length marks.old - 4) (found_of marks.new t)) }
{
    let mut table = [0; MOST_VERTICES];
    let degree = &mut table[..marks.len()];
    // Every live number is one of a node, so this is not refused.
    let Ok(()) = degrees(store, live, degree) else {
        return Err(0);
    };
    marks.fill(false);
    look_all(points, held, &degree[4..], marks)
}

// Takes the marked vertices out, unless there is a refusal.
#[tactic(auto, using(crate::proofs::Taken::refusing))]
fn take_out<S: WriteStore>(
    points: &[Point],
    held: &[Held],
    marks: &[bool],
    tally: Tally,
    rounds: u16,
    live: &mut [u16],
    store: &mut S,
) -> Result<usize, Refusal>
    requires few { length held.now ≤ 8194 }
    requires marks { length marks.now ≤ 1028 }
    requires nodes { length (S.ReadStore.nodes store.old) ≤ 8194 }
    requires sound { Sound (place_of points.now) held.now (length marks.now - 4) (found_of marks.now tally) }
    ensures said { result ≡ round_count (taken_said (place_of points.now) held.now (S.ReadStore.nodes store.old) marks.now tally rounds (S.WriteStore.room store.old) (length live.old)) }
    ensures nodes { S.ReadStore.nodes store.new ≡ round_nodes (taken_said (place_of points.now) held.now (S.ReadStore.nodes store.old) marks.now tally rounds (S.WriteStore.room store.old) (length live.old)) (S.ReadStore.nodes store.old) }
    ensures live { RoundLive (taken_said (place_of points.now) held.now (S.ReadStore.nodes store.old) marks.now tally rounds (S.WriteStore.room store.old) (length live.old)) live.old live.new }
    ensures room { S.WriteStore.room store.new ≡ S.WriteStore.room store.old }
{
    let count = store.count();
    let wanted = count_kept(held, marks) + tally.fresh;
    let refusal = found_refusal(tally, rounds, count, store.capacity(), live.len(), wanted);
    if let Some(refusal) = refusal {
        return Err(refusal);
    }
    close_all(points, held, marks, store);
    Ok(settle(held, marks, count, tally.fresh, live))
}

// A round, where every number is inside its range. `table` and `marks` are scratch: as many nodes can be live as a sheet can have.
pub(crate) fn round_within<S: WriteStore>(
    size: Size,
    points: &[Point],
    live: &mut [u16],
    count: usize,
    rounds: u16,
    table: &mut [Held],
    marks: &mut [bool],
    store: &mut S,
) -> Result<usize, Refusal>
    requires table { length table.old ≡ 8194 }
    requires marks { length marks.old ≡ size.inner + 4 }
    requires right { wrong_number size points.now (S.ReadStore.nodes store.old) (take count live.old) ≡ Nothing }
    ensures said { result ≡ round_count (right_said size points.now (S.ReadStore.nodes store.old) (take count live.old) rounds (S.WriteStore.room store.old) (length live.old)) }
    ensures nodes { S.ReadStore.nodes store.new ≡ round_nodes (right_said size points.now (S.ReadStore.nodes store.old) (take count live.old) rounds (S.WriteStore.room store.old) (length live.old)) (S.ReadStore.nodes store.old) }
    ensures live { RoundLive (right_said size points.now (S.ReadStore.nodes store.old) (take count live.old) rounds (S.WriteStore.room store.old) (length live.old)) live.old live.new }
    ensures room { S.WriteStore.room store.new ≡ S.WriteStore.room store.old }
{
    let numbers = live_numbers(live, count);
    hold(store, numbers, table);
    let held = &table[..numbers.len()];
    match choose(points, store, numbers, held, marks) {
        Ok(tally) => take_out(points, held, marks, tally, rounds, live, store),
        Err(vertex) => Err(Refusal::new(Cause::OutOfRange, Layer::Build, vertex)),
    }
}
