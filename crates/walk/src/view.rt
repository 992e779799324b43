//! What a walk reads of the nodes, and of the points that are their corners.
ghost use Rattle.std.specs.Prelude.{◌≡◌, ◌+◌, ◌<◌, ◌≤◌, ◌&&◌, cond, length, nat_lt, true, IfSome, MatchOption, None as Nowhere, Ok as Good, Err as Wrong};
ghost use Rattle.std.specs.Result.{result_ok};
ghost use Rattle.plane.specs.Kernels.{is_sheet_point, is_sheet_size};
ghost use Rattle.nodes.specs.Nodes.{number_in};
ghost use Rattle.sheet.specs.Sheets.{corners as corners_of};
ghost use Rattle.checking.specs.Entries.{is_inside as is_inside_of};
ghost use Rattle.walk.specs.Walks.{places_of, tested, vertex_known, vertex_read};

use nodes::ReadStore;
use plane::{Kernel, Point, Test};
use sheet::Size;

// Where the corners of a node are.
#[derive(Clone, Copy)]
pub(crate) struct Places {
    pub(crate) a: Point,
    pub(crate) b: Point,
    pub(crate) c: Point,
}

// The functions on the way down are inlined: they are called for each node, and a test that is returned through memory would cost more than
// the test.

// Number `i` of node `k`, and 0 where there is no such node.
#[tactic(auto, using(crate::proofs::Reading::number_past))]
#[inline(always)]
pub(crate) fn number<S: ReadStore>(store: &S, k: u16, i: usize) -> u16
    requires { i < 14 }
    ensures { result ≡ number_in (S.nodes store.now) k i }
{
    store.number(usize::from(k), i).unwrap_or(0)
}

// Whether a coordinate is above 0 and below an extent: of 0 one is taken away into the largest number there is.
#[inline(always)]
fn is_between(x: u16, extent: u16) -> bool
    requires { 2 ≤ extent }
    ensures { result ≡ (nat_lt 0 x && nat_lt x extent) }
{
    x.wrapping_sub(1) < extent - 1
}

// Whether a point is strictly inside the sheet.
#[inline(always)]
fn is_inside(size: Size, point: Point) -> bool
    requires { (2 ≤ size.width) × (2 ≤ size.height) }
    ensures { result ≡ is_inside_of size point }
{
    is_between(point.x, size.width) && is_between(point.y, size.height)
}

// Where a vertex is, if it is one and a point of the sheet. `points` are those of the sheet, or fewer.
#[inline(always)]
fn vertex_at(size: Size, corners: &[Point; 4], points: &[Point], vertex: u16) -> Option<Point>
    requires size { is_sheet_size size.width size.height ≡ true }
    requires corners { corners.now ≡ corners_of size.width size.height }
    requires points { length points.now ≤ size.inner + 4 }
    ensures said { result ≡ vertex_known size points.now vertex }
    ensures within { IfSome result (λ p. is_sheet_point p ≡ true) }
{
    if vertex < 4 {
        return Some(corners[usize::from(vertex)]);
    }
    let point = *points.get(usize::from(vertex))?;
    if is_inside(size, point) {
        Some(point)
    } else {
        None
    }
}

// Where the corners of node `k` are, if all of them are known.
#[tactic(auto, using(crate::proofs::Places::known_places))]
#[inline(always)]
pub(crate) fn places_at<S: ReadStore>(
    size: Size,
    corners: &[Point; 4],
    points: &[Point],
    store: &S,
    k: u16,
) -> Option<Places>
    requires size { is_sheet_size size.width size.height ≡ true }
    requires corners { corners.now ≡ corners_of size.width size.height }
    requires points { length points.now ≤ size.inner + 4 }
    ensures said { result ≡ result_ok (places_of (vertex_read size points.now) (S.nodes store.now) k) }
    ensures within { IfSome result (λ p. (is_sheet_point p.a ≡ true) × ((is_sheet_point p.b ≡ true) × (is_sheet_point p.c ≡ true))) }
{
    let a = vertex_at(size, corners, points, number(store, k, 0))?;
    let b = vertex_at(size, corners, points, number(store, k, 1))?;
    let c = vertex_at(size, corners, points, number(store, k, 2))?;
    Some(Places { a, b, c })
}

// What is told of a vertex that is not known: itself, or the node that names it where it is none.
fn wrong_at(size: Size, node: u16, vertex: u16) -> usize
    ensures { result ≡ cond (nat_lt vertex (size.inner + 4)) vertex node }
{
    if usize::from(vertex) < usize::from(size.inner) + 4 {
        usize::from(vertex)
    } else {
        usize::from(node)
    }
}

// What is told of node `k`, of which some corner is not known: the first such corner.
#[inline(never)]
pub(crate) fn wrong_corner<S: ReadStore>(
    size: Size,
    corners: &[Point; 4],
    points: &[Point],
    store: &S,
    k: u16,
) -> usize
    requires size { is_sheet_size size.width size.height ≡ true }
    requires corners { corners.now ≡ corners_of size.width size.height }
    requires points { length points.now ≤ size.inner + 4 }
    requires wrong { result_ok (places_of (vertex_read size points.now) (S.nodes store.now) k) ≡ Nowhere }
    ensures { places_of (vertex_read size points.now) (S.nodes store.now) k ≡ Wrong result }
{
    let a = number(store, k, 0);
    if vertex_at(size, corners, points, a).is_none() {
        return wrong_at(size, k, a);
    }
    let b = number(store, k, 1);
    if vertex_at(size, corners, points, b).is_none() {
        return wrong_at(size, k, b);
    }
    wrong_at(size, k, number(store, k, 2))
}

// Tests the sides of node `k` in order, up to the first that has the tip on its right, if all its corners are known.
#[tactic(auto, using(crate::proofs::Places::tested_places))]
#[inline(always)]
pub(crate) fn test_node<K: Kernel, S: ReadStore>(
    tip: &K,
    size: Size,
    corners: &[Point; 4],
    points: &[Point],
    store: &S,
    k: u16,
) -> Option<Test>
    requires size { is_sheet_size size.width size.height ≡ true }
    requires corners { corners.now ≡ corners_of size.width size.height }
    requires points { length points.now ≤ size.inner + 4 }
    ensures few { IfSome result (λ t. t.tests ≤ 3) }
    ensures said { MatchOption result (result_ok (places_of (vertex_read size points.now) (S.nodes store.now) k) ≡ Nowhere) (λ t. tested (vertex_read size points.now) (K.means tip.now) (S.nodes store.now) k ≡ Good t) }
{
    let at = places_at(size, corners, points, store, k)?;
    Some(tip.triangle(at.a, at.b, at.c))
}
