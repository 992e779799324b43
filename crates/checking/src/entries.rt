//! The first entry of the tables that is not as it is where they hold a sheet.
ghost use Rattle.std.specs.Prelude.{◌≡◌, ◌+◌, ◌≤◌, drop, length, not, position, take};
ghost use Rattle.rules.specs.Held.{loop_edges as loop_edges_of};
ghost use Rattle.checking.specs.Entries.{is_entry as is_entry_of, is_inside as is_inside_of, is_link as is_link_of, is_size as is_size_of, is_within as is_within_of, next_start as next_start_of, unlike as unlike_of, wrong_edge as wrong_edge_of, wrong_entry as wrong_entry_of, wrong_link as wrong_link_of, wrong_loop as wrong_loop_of, wrong_point as wrong_point_of, wrong_ring as wrong_ring_of, wrong_vertex as wrong_vertex_of};

use plane::{Edge, Point};
use rules::loop_edges;
use sheet::{Loop, OUTSIDE, Size, corners};

// Whether the size is one that a sheet can have.
fn is_size(size: Size) -> bool
    ensures { result ≡ is_size_of size }
{
    (is_within(2, 8191, size.width) && is_within(2, 8191, size.height))
        && (size.inner <= 1024 && (size.loops <= 2050 && size.corners <= 6150))
}

fn is_within(least: u16, most: u16, x: u16) -> bool
    ensures { result ≡ is_within_of least most x }
{
    least <= x && x <= most
}

/// The first of these, as many as there are.
pub fn front<T>(items: &[T], count: usize) -> &[T]
    ensures { result.now ≡ take count items.now }
{
    &items[..items.len().min(count)]
}

// What stands behind the first of these.
fn behind<T>(items: &[T], count: usize) -> &[T]
    ensures { result.now ≡ drop count items.now }
{
    &items[items.len().min(count)..]
}

// The first entry that is not as wanted, counted on from `at`.
fn unlike<T: PartialEq>(at: u16, wanted: &[T], found: &[T]) -> Option<usize>
    requires { length wanted.now ≤ 4 }
    ensures { result ≡ unlike_of T.eq at wanted.now found.now }
{
    for (i, item) in wanted.iter().enumerate() {
        if found.get(i) != Some(item) {
            return Some(usize::from(at) + i);
        }
    }
    None
}

// Whether a point lies strictly inside the sheet.
fn is_inside(size: Size, point: Point) -> bool
    ensures { result ≡ is_inside_of size point }
{
    (0 < point.x && point.x < size.width) && (0 < point.y && point.y < size.height)
}

// The first of these points that does not.
fn not_inside(size: Size, points: &[Point]) -> Option<usize>
    ensures value { result ≡ position (λ p. not (is_inside_of size p)) points.now }
{
    points.iter().position(|point| !is_inside(size, *point))
}

// The four corners of the sheet come first, and then points strictly inside.
fn wrong_point(size: Size, points: &[Point]) -> Option<usize>
    ensures { result ≡ wrong_point_of size points.now }
{
    let wrong = unlike(0, &corners(size.width, size.height), front(points, 4));
    if wrong.is_some() {
        return wrong;
    }
    let inner = front(behind(points, 4), usize::from(size.inner));
    not_inside(size, inner).map(|i| 4 + i)
}

/// The first entry of the points that is not as it is where the tables hold a sheet of this size, and entry 0 where no sheet has it.
pub fn wrong_vertex(size: Size, points: &[Point]) -> Option<usize>
    ensures { result ≡ wrong_vertex_of size points.now }
{
    if is_size(size) {
        wrong_point(size, points)
    } else {
        Some(0)
    }
}

// Whether a loop's entry is right, where the loops before it have `start` corners together.
fn is_entry(size: Size, start: u16, item: &Loop) -> bool
    requires few { size.inner ≤ 1024 }
    requires within { start ≤ size.corners }
    ensures { result ≡ is_entry_of size start item.now }
{
    (item.numeral <= 255 && item.start == start)
        && ((3 <= item.corners && item.corners <= size.inner + 4)
            && item.corners <= size.corners - start)
}

// The loops stand one behind another, and have all corners that there are.
fn wrong_loop(size: Size, loops: &[Loop]) -> Option<usize>
    requires few { size.inner ≤ 1024 }
    ensures { result ≡ wrong_loop_of size 0 0 loops.now }
{
    let mut start = 0;
    for (at, item) in loops.iter().enumerate() {
        if !is_entry(size, start, item) {
            return Some(at);
        }
        start += item.corners;
    }
    if start == size.corners {
        None
    } else {
        Some(loops.len())
    }
}

// Where the first of these edges starts, or else at `first`.
fn next_start(first: u16, edges: &[Edge]) -> u16
    ensures { result ≡ next_start_of first edges.now }
{
    edges.first().map_or(first, |edge| edge.from)
}

// Whether an edge starts at a vertex, and ends where it should.
fn is_link(vertices: u16, edge: Edge, next: u16) -> bool
    ensures { result ≡ is_link_of vertices edge next }
{
    edge.from < vertices && edge.to == next
}

// The edges of a loop go from vertex to vertex, each to where the next one starts, and the last to where the first does.
fn wrong_link(vertices: u16, at: u16, edges: &[Edge]) -> Option<usize>
    ensures { result ≡ wrong_link_of vertices (next_start_of 0 edges.now) at edges.now }
{
    let first = next_start(0, edges);
    for (i, edge) in edges.iter().enumerate() {
        let next = next_start(first, behind(edges, i + 1));
        if !is_link(vertices, *edge, next) {
            return Some(usize::from(at) + i);
        }
    }
    None
}

// The edges of each loop close up.
fn wrong_ring(vertices: u16, edges: &[Edge], loops: &[Loop]) -> Option<usize>
    ensures { result ≡ wrong_ring_of vertices edges.now loops.now }
{
    for item in loops {
        let wrong = wrong_link(vertices, item.start, loop_edges(edges, item));
        if wrong.is_some() {
            return wrong;
        }
    }
    None
}

// So do those of all loops, and the outside edges follow.
fn wrong_edge(size: Size, edges: &[Edge], loops: &[Loop]) -> Option<usize>
    requires few { size.inner ≤ 1024 }
    ensures { result ≡ wrong_edge_of size edges.now loops.now }
{
    let wrong = wrong_ring(size.inner + 4, edges, loops);
    if wrong.is_some() {
        return wrong;
    }
    let rest = behind(edges, usize::from(size.corners));
    unlike(size.corners, &OUTSIDE, front(rest, 4))
}

/// The first entry of the tables that is not as it is where they hold a sheet of this size: of the points, then of the loops, then of
/// the edges.
#[tactic(auto, unfolding(crate::specs::Entries::wrong_entry))]
pub fn wrong_entry(size: Size, points: &[Point], edges: &[Edge], loops: &[Loop]) -> Option<usize>
    ensures { result ≡ wrong_entry_of size points.now edges.now loops.now }
{
    if !is_size(size) {
        return Some(0);
    }
    let wrong = wrong_point(size, points);
    if wrong.is_some() {
        return wrong;
    }
    let loops = front(loops, usize::from(size.loops));
    let wrong = wrong_loop(size, loops);
    if wrong.is_some() {
        return wrong;
    }
    wrong_edge(size, edges, loops)
}
