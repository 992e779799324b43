//! The rule over the areas of the loops.
ghost use Rattle.std.specs.Prelude.{◌≡◌, ◌≤◌, ◌<◌, ◌^◌, ◌*◌, int_lt, length, pos, unsigned_abs};
ghost use Rattle.plane.specs.Edges.{sum_of};
ghost use Rattle.rules.specs.Held.{loop_edges as loop_edges_of, turns_broken_at};
ghost use Rattle.plane.specs.Points.{place_of};
ghost use Rattle.rules.specs.Rules.{swept as swept_by};

use crate::corners::loop_edges;
use plane::{Edge, Point, place};
use sheet::Loop;

// Twice the area that an edge sweeps from the sheet's corner (0, 0).
fn swept(points: &[Point], edge: Edge) -> i64
    ensures value { result ≡ swept_by (place_of points.now) edge }
    ensures bound { unsigned_abs result < 2 ^ 32 }
{
    let a = place(points, edge.from);
    let b = place(points, edge.to);
    product(a.x, b.y) - product(b.x, a.y)
}

fn product(u: u16, v: u16) -> i64
    ensures value { result ≡ pos (u * v) }
    ensures bound { u * v < 2 ^ 32 }
{
    i64::from(u32::from(u) * u32::from(v))
}

// Twice the signed area inside a loop's edges.
fn signed_area(points: &[Point], edges: &[Edge]) -> i64
    requires { length edges.now ≤ 65535 }
    ensures { result ≡ sum_of (swept_by (place_of points.now)) edges.now }
{
    let mut area = 0;
    for edge in edges {
        area += swept(points, *edge);
    }
    area
}

// Whether a loop's signed area is above 0.
fn is_turned_left(points: &[Point], edges: &[Edge], item: &Loop) -> bool
    ensures { result ≡ int_lt (pos 0) (sum_of (swept_by (place_of points.now)) (loop_edges_of edges.now item.now)) }
{
    0 < signed_area(points, loop_edges(edges, item))
}

// Rule 20: every loop's signed area is above 0.
pub(crate) fn turns_broken(points: &[Point], edges: &[Edge], loops: &[Loop]) -> Option<usize>
    ensures { result ≡ turns_broken_at points.now edges.now loops.now }
{
    loops
        .iter()
        .position(|item| !is_turned_left(points, edges, item))
}
