//! The rule that no two edges touch where they share no vertex.
ghost use Rattle.std.specs.Prelude.{◌≡◌, IfOk, length, take};
ghost use Rattle.clash.specs.Clashes.{first_clash_in};
ghost use Rattle.rules.specs.Rules.{later_of};
ghost use Rattle.rules.specs.Strokes.{room_said, stroke_of, strokes_join, strokes_of, strokes_said, strokes_touch};

use crate::listed::{back, is_behind};
use crate::segments::{boxes_meet, meet, overlap};
use clash::{Clash, first_clash};
use plane::{Edge, Point, place};
use refusal::Cause;

/// An edge of a sheet, with where its ends are.
#[derive(Clone, Copy, PartialEq, Eq, Debug, Default)]
pub struct Stroke {
    /// The edge.
    pub edge: Edge,
    /// Where it starts.
    pub start: Point,
    /// Where it ends.
    pub end: Point,
}

/// Two edges that touch where they share no vertex clash.
impl Clash for Stroke {
    ghost clashes = { strokes_touch };

    // Most pairs are told apart by their boxes alone, without a product.
    fn clashes_with(&self, earlier: &Stroke) -> bool {
        boxes_meet(self.start, self.end, earlier.start, earlier.end) && self.joins(earlier)
    }
}

impl Stroke {
    // The same, without boxes.
    fn joins(&self, earlier: &Stroke) -> bool
        ensures { result ≡ strokes_join self.now earlier.now }
    {
        if self.edge.from == earlier.edge.from {
            overlap(self.start, self.end, earlier.end)
        } else if self.edge.from == earlier.edge.to {
            overlap(self.start, self.end, earlier.start)
        } else if self.edge.to == earlier.edge.from {
            overlap(self.end, self.start, earlier.end)
        } else if self.edge.to == earlier.edge.to {
            overlap(self.end, self.start, earlier.start)
        } else {
            meet(self.start, self.end, earlier.start, earlier.end)
        }
    }
}

// An edge with where its ends are.
fn stroke_at(points: &[Point], edge: Edge) -> Stroke
    ensures { result ≡ stroke_of points.now edge }
{
    Stroke {
        edge,
        start: place(points, edge.from),
        end: place(points, edge.to),
    }
}

// Puts the edges, each as it is first listed, into the front of `strokes`, and answers how many there are; refused where there are more.
fn draw(points: &[Point], edges: &[Edge], strokes: &mut [Stroke]) -> Result<usize, Cause>
    ensures said { result ≡ room_said (length strokes.old) (strokes_of points.now edges.now) }
    ensures drawn { IfOk result (λ n. take n strokes.new ≡ strokes_of points.now edges.now) }
{
    let mut count = 0;
    for (i, edge) in edges.iter().enumerate() {
        if !is_behind(&edges[..i], back(*edge)) {
            if count >= strokes.len() {
                return Err(Cause::TableTooShort);
            }
            strokes[count] = stroke_at(points, *edge);
            count += 1;
        }
    }
    Ok(count)
}

// The first of these that touches an earlier one.
fn first_touching(strokes: &[Stroke]) -> Option<usize>
    ensures { result ≡ later_of (first_clash_in strokes_touch strokes.now) }
{
    first_clash(strokes).map(|clash| clash.later)
}

// Rule 19: no two edges of the sheet touch where they share no vertex. Refused where `strokes` has no room for them.
#[tactic(auto, using(crate::proofs::Listing::strokes_told))]
pub(crate) fn strokes_broken(
    points: &[Point],
    edges: &[Edge],
    strokes: &mut [Stroke],
) -> Result<Option<usize>, Cause>
    ensures { result ≡ strokes_said (length strokes.old) points.now edges.now }
{
    let count = draw(points, edges, strokes)?;
    Ok(first_touching(&strokes[..count]))
}
