//! The rules, tried in order over the caller's tables.
ghost use Rattle.std.specs.Prelude.{◌≡◌, length};
ghost use Rattle.rules.specs.Rules.{told as told_of};
ghost use Rattle.rules.specs.Strokes.{SheetTells, broken_said, early_broken_at, listing_broken_at};

use crate::corners::{loops_broken, vertices_broken};
use crate::counts::sum_broken;
use crate::listed::{edges_broken, points_broken, reverses_broken};
use crate::strokes::{Stroke, strokes_broken};
use crate::turns::turns_broken;
use plane::{Edge, Point};
use refusal::{Cause, Layer, Refusal};
use sheet::Loop;

// A rule that is broken at a place.
fn told(cause: Cause, place: Option<usize>) -> Option<Refusal>
    ensures { result ≡ told_of cause place }
{
    place.map(|place| Refusal::new(cause, Layer::Check, place))
}

// The rules on the edges as they are listed, and on the vertices. By returns: a chain of `or_else` was tried, and the check does not join
// what its closures answer.
fn listing_broken(inner: u16, edges: &[Edge], loops: &[Loop]) -> Option<Refusal>
    ensures { result ≡ listing_broken_at inner edges.now loops.now }
{
    let broken = told(Cause::EdgeTwice, edges_broken(edges));
    if broken.is_some() {
        return broken;
    }
    let broken = told(Cause::NoReverse, reverses_broken(edges));
    if broken.is_some() {
        return broken;
    }
    told(Cause::VertexUnused, vertices_broken(inner, edges, loops))
}

// The rules before those on segments and areas.
fn early_broken(inner: u16, points: &[Point], edges: &[Edge], loops: &[Loop]) -> Option<Refusal>
    ensures { result ≡ early_broken_at inner points.now edges.now loops.now }
{
    let broken = told(Cause::LoopSum, sum_broken(inner, loops));
    if broken.is_some() {
        return broken;
    }
    let broken = told(Cause::SamePoint, points_broken(points));
    if broken.is_some() {
        return broken;
    }
    let broken = told(Cause::VertexTwice, loops_broken(edges, loops));
    if broken.is_some() {
        return broken;
    }
    listing_broken(inner, edges, loops)
}

/// The first rule that the tables break, at its first place. `strokes` is scratch; the call is refused where the rules before 19 are kept
/// and `strokes` has no room for the edges of the sheet; 3,077 strokes are room for every sheet within its limits.
#[tactic(auto, using(crate::proofs::Rooms::sheet_tells))]
pub fn first_broken(
    inner: u16,
    points: &[Point],
    edges: &[Edge],
    loops: &[Loop],
    strokes: &mut [Stroke],
) -> Result<Option<Refusal>, Refusal>
    ensures said { result ≡ broken_said inner points.now edges.now loops.now (length strokes.old) }
    ensures rules { SheetTells inner points.now edges.now loops.now (length strokes.old) result }
{
    let early = early_broken(inner, points, edges, loops);
    if early.is_some() {
        return Ok(early);
    }
    let Ok(touching) = strokes_broken(points, edges, strokes) else {
        return Err(Refusal::new(Cause::TableTooShort, Layer::Check, 0));
    };
    let touching = told(Cause::EdgesTouch, touching);
    if touching.is_some() {
        return Ok(touching);
    }
    Ok(told(Cause::LoopTurned, turns_broken(points, edges, loops)))
}
