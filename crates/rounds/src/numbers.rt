//! Numbers outside their ranges.
ghost use Rattle.std.specs.Prelude.{◌≡◌, length, slice_index_or};
ghost use Rattle.nodes.specs.Nodes.{blank};
ghost use Rattle.rounds.specs.Rounds.{has_vertices as has_vertices_of, is_live as is_live_of, wrong_live as wrong_live_of, wrong_node as wrong_node_of, wrong_nodes as wrong_nodes_of, wrong_number as wrong_number_of};

use checking::wrong_vertex;
use fans::corners_at;
use nodes::ReadStore;
use plane::Point;
use sheet::Size;

/// The most vertices that a sheet can have.
pub(crate) const MOST_VERTICES: usize = 1028;

/// The most nodes that such a sheet can have, and so the most that can be live or around one vertex.
// A sheet as it should be has at most 2,050 of them live; tables that were altered may name more, and are answered all the same.
pub(crate) const MOST_NODES: usize = 8194;

// Whether a live number is at least `least`, and one of `count` nodes.
fn is_live(count: usize, least: usize, k: usize) -> bool
    ensures { result ≡ is_live_of count least k }
{
    least <= k && k < count
}

// The first live number that is no node, or not above the one before it.
fn wrong_live(count: usize, live: &[u16]) -> Option<usize>
    ensures { result ≡ wrong_live_of count 0 0 live.now }
{
    let mut least = 0;
    for (at, k) in live.iter().enumerate() {
        let k = usize::from(*k);
        if !is_live(count, least, k) {
            return Some(at);
        }
        least = k + 1;
    }
    None
}

// Whether the corners of node `k` are vertices.
fn has_vertices<S: ReadStore>(vertices: usize, store: &S, k: u16) -> bool
    ensures { result ≡ has_vertices_of vertices (slice_index_or (S.nodes store.now) k blank) }
{
    let corners = corners_at(store, k);
    usize::from(corners.a) < vertices
        && usize::from(corners.b) < vertices
        && usize::from(corners.c) < vertices
}

// The first live node of which they are not.
fn wrong_node<S: ReadStore>(vertices: usize, store: &S, live: &[u16]) -> Option<usize>
    ensures { result ≡ wrong_node_of vertices (S.nodes store.now) live.now }
{
    for k in live {
        if !has_vertices(vertices, store, *k) {
            return Some(usize::from(*k));
        }
    }
    None
}

/// The first number of the nodes that is outside its range: their count, then the live entries, then the corners of the live nodes.
pub fn wrong_nodes<S: ReadStore>(inner: u16, store: &S, live: &[u16]) -> Option<usize>
    ensures { result ≡ wrong_nodes_of inner (S.nodes store.now) live.now }
{
    let inner = usize::from(inner);
    if store.count() > 8 * inner + 2 {
        return Some(8 * inner + 2);
    }
    let wrong = wrong_live(store.count(), live);
    if wrong.is_some() {
        return wrong;
    }
    wrong_node(inner + 4, store, live)
}

// The first number outside its range: of the points, and then of the nodes.
pub(crate) fn wrong_number<S: ReadStore>(
    size: Size,
    points: &[Point],
    store: &S,
    live: &[u16],
) -> Option<usize>
    ensures { result ≡ wrong_number_of size points.now (S.nodes store.now) live.now }
{
    let wrong = wrong_vertex(size, points);
    if wrong.is_some() {
        return wrong;
    }
    wrong_nodes(size.inner, store, live)
}
