//! Which vertices a round takes out.
ghost use Rattle.std.specs.Prelude.{◌≡◌, ℕ, ◌+◌, ◌<◌, ◌≤◌, [], false, IfOk, cond, length, replicate, slice_index};
ghost use Rattle.std.specs.List.{list_any};
ghost use Rattle.plane.specs.Points.{place_of};
ghost use Rattle.rounds.specs.Choices.{chosen_too, is_choice as is_choice_of, is_marked as is_marked_of, look, nothing_found, passed};
ghost use Rattle.rounds.specs.Near.{Sound, found_of, look_near, looked, looked_at, near};

use crate::held::{Held, gather};
use crate::holes::can_be_cut;
use crate::numbers::MOST_NODES;
use fans::{Turned, fan};
use plane::Point;

/// How many vertices are chosen, how many are left, and how many nodes close the holes.
#[derive(Clone, Copy)]
pub(crate) struct Tally {
    pub(crate) chosen: usize,
    pub(crate) left: usize,
    pub(crate) fresh: usize,
}

// Whether a vertex is chosen.
pub(crate) fn is_marked(marks: &[bool], vertex: u16) -> bool
    ensures { result ≡ is_marked_of marks.now vertex }
{
    let vertex = usize::from(vertex);
    vertex < marks.len() && marks[vertex]
}

// Whether some corner that a fan notes is chosen.
fn has_marked(marks: &[bool], links: &[Turned]) -> bool
    ensures { result ≡ list_any (λ t. is_marked_of marks.now t.next) links.now }
{
    links.iter().any(|link| is_marked(marks, link.next))
}

// Whether a vertex with these nodes around it and this fan is chosen. The corners are cut last, since that costs most.
#[tactic(auto, using(crate::proofs::Sounds::any_marked))]
fn is_choice(points: &[Point], marks: &[bool], around: &[Turned], links: &[Turned]) -> bool
    ensures { result ≡ is_choice_of (place_of points.now) marks.now around.now links.now }
{
    if around.len() < 3 || around.len() > 8 || links.len() != around.len() {
        return false;
    }
    !has_marked(marks, links) && can_be_cut(points, links)
}

// Counts a vertex whose fan is closed, and marks it if it is chosen.
fn judge(
    points: &[Point],
    vertex: usize,
    around: &[Turned],
    links: &[Turned],
    marks: &mut [bool],
    tally: Tally,
) -> Tally
    requires vertex { vertex < length marks.old }
    requires bounds { tally.chosen + tally.left + tally.fresh ≤ 65536 }
    ensures { found_of marks.new result ≡ cond (is_choice_of (place_of points.now) marks.old around.now links.now) (chosen_too vertex (length around.now) (found_of marks.old tally)) (passed (found_of marks.old tally)) }
{
    if !is_choice(points, marks, around, links) {
        return Tally {
            left: tally.left + 1,
            ..tally
        };
    }
    marks[vertex] = true;
    Tally {
        chosen: tally.chosen + 1,
        left: tally.left + 1,
        fresh: tally.fresh + around.len().saturating_sub(2),
    }
}

// Looks at one vertex; none where its fan is broken. `found` and `links` are scratch.
fn look_at(
    points: &[Point],
    held: &[Held],
    vertex: u16,
    marks: &mut [bool],
    tally: Tally,
    found: &mut [Turned],
    links: &mut [Turned],
) -> Option<Tally>
    requires found { length held.now ≤ length found.old }
    requires links { length held.now ≤ length links.old }
    requires vertex { vertex < length marks.old }
    requires bounds { tally.chosen + tally.left + tally.fresh ≤ 65536 }
    ensures { looked_at vertex marks.new result ≡ look (place_of points.now) vertex (near held.now vertex) (found_of marks.old tally) }
{
    let count = gather(held, vertex, found);
    if count == 0 {
        return Some(tally);
    }
    let around = &found[..count];
    let length = fan(around, links)?;
    Some(judge(
        points,
        usize::from(vertex),
        around,
        &links[..length],
        marks,
        tally,
    ))
}

// Looks at the inner vertices in ascending order, each with how many nodes are around it; the first whose fan is broken is told.
pub(crate) fn look_all(
    points: &[Point],
    held: &[Held],
    degrees: &[u16],
    marks: &mut [bool],
) -> Result<Tally, usize>
    requires held { length held.now ≤ 8194 }
    requires few { length degrees.now ≤ 1024 }
    requires marks { marks.old ≡ replicate (length degrees.now + 4) false }
    requires degrees { (i : ℕ) → i < length degrees.now → slice_index degrees.now i ≡ 0 → near held.now (4 + i) ≡ [] }
    ensures looked { looked marks.new result ≡ look_near (place_of points.now) held.now (length degrees.now) 4 (nothing_found (length degrees.now + 4)) }
    ensures sound { IfOk result (λ t. Sound (place_of points.now) held.now (length degrees.now) (found_of marks.new t)) }
{
    let mut found = [Turned::default(); MOST_NODES];
    let mut links = [Turned::default(); MOST_NODES];
    let mut tally = Tally {
        chosen: 0,
        left: 0,
        fresh: 0,
    };
    for (i, degree) in degrees.iter().enumerate() {
        if *degree == 0 {
            continue;
        }
        let vertex = 4 + i;
        let next = look_at(
            points,
            held,
            vertex as u16,
            marks,
            tally,
            &mut found,
            &mut links,
        );
        let Some(next) = next else {
            return Err(vertex);
        };
        tally = next;
    }
    Ok(tally)
}
