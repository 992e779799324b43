//! The holes of a round, closed one after another.
ghost use Rattle.std.specs.Prelude.{◌≡◌, ℕ, ◌+◌, ◌-◌, ◌≤◌, ◌++◌, IfSome, Some as Just, length, take, true};
ghost use Rattle.std.specs.Option.{option_map};
ghost use Rattle.plane.specs.Points.{place_of};
ghost use Rattle.fans.specs.Fans.{fan_of};
ghost use Rattle.rounds.specs.Choices.{is_marked as is_marked_of};
ghost use Rattle.rounds.specs.Near.{IsFew, closing_near, closings_near, near};

use crate::held::{Held, gather};
use crate::holes::open_hole;
use crate::numbers::MOST_NODES;
use fans::{Turned, fan};
use nodes::WriteStore;
use plane::Point;

// Puts the fan of a vertex into the front of `links`, and answers how many nodes it has; none where it is broken. `found` is scratch.
#[tactic(auto, using(crate::proofs::Closed::fans))]
fn fan_at(held: &[Held], vertex: u16, found: &mut [Turned], links: &mut [Turned]) -> Option<usize>
    requires found { length held.now ≤ length found.old }
    requires links { length held.now ≤ length links.old }
    ensures said { result ≡ option_map length (fan_of (near held.now vertex)) }
    ensures links { IfSome result (λ n. fan_of (near held.now vertex) ≡ Just (take n links.new)) }
{
    let count = gather(held, vertex, found);
    fan(&found[..count], links)
}

// Takes a vertex out, which has few nodes around it: its hole is opened, and closed. `found` and `links` are scratch.
#[tactic(auto, using(crate::proofs::Closed::holes))]
fn close_at<S: WriteStore>(
    points: &[Point],
    held: &[Held],
    vertex: u16,
    found: &mut [Turned],
    links: &mut [Turned],
    store: &mut S,
)
    requires found { length held.now ≤ length found.old }
    requires links { length held.now ≤ length links.old }
    requires few { IsFew (fan_of (near held.now vertex)) }
    requires room { length (S.ReadStore.nodes store.old) + length (closing_near (place_of points.now) held.now vertex) ≤ S.WriteStore.room store.old }
    ensures nodes { S.ReadStore.nodes store.new ≡ S.ReadStore.nodes store.old ++ closing_near (place_of points.now) held.now vertex }
    ensures room { S.WriteStore.room store.new ≡ S.WriteStore.room store.old }
{
    let Some(size) = fan_at(held, vertex, found, links) else {
        return;
    };
    let hole = open_hole(&links[..size]);
    hole.close(points, store);
}

// Takes out the vertices that are marked, in ascending order, behind the four corners of the sheet.
#[tactic(auto, using(crate::proofs::Closed::closing))]
pub(crate) fn close_all<S: WriteStore>(
    points: &[Point],
    held: &[Held],
    marks: &[bool],
    store: &mut S,
)
    requires held { length held.now ≤ 8194 }
    requires few { length marks.now ≤ 1028 }
    requires fans { (v : ℕ) → is_marked_of marks.now v ≡ true → IsFew (fan_of (near held.now v)) }
    requires room { length (S.ReadStore.nodes store.old) + length (closings_near (place_of points.now) held.now marks.now (length marks.now - 4) 4) ≤ S.WriteStore.room store.old }
    ensures nodes { S.ReadStore.nodes store.new ≡ S.ReadStore.nodes store.old ++ closings_near (place_of points.now) held.now marks.now (length marks.now - 4) 4 }
    ensures room { S.WriteStore.room store.new ≡ S.WriteStore.room store.old }
{
    let mut found = [Turned::default(); MOST_NODES];
    let mut links = [Turned::default(); MOST_NODES];
    for vertex in 4..marks.len() {
        if !marks[vertex] {
            continue;
        }
        close_at(points, held, vertex as u16, &mut found, &mut links, store);
    }
}
