//! The loops of a sheet, cut into a store one after another.
ghost use Rattle.std.specs.Prelude.{◌≡◌, ◌-◌, ◌≤◌, cond, length, map, None as Nothing, Some as Just, Ok as Good, take};
ghost use Rattle.std.specs.List.{All};
ghost use Rattle.std.specs.Option.{option_map};
ghost use Rattle.plane.specs.Points.{place_of};
ghost use Rattle.rules.specs.Held.{loop_edges as loop_edges_of};
ghost use Rattle.ears.specs.Cutting.{triangle_of};
ghost use Rattle.ears.specs.Ears.{cut_of};
ghost use Rattle.bottom.specs.Bottom.{bottom_node as bottom_node_of, is_drawn as is_drawn_of, mark as mark_of, sides_number as sides_number_of};
ghost use Rattle.bottom.specs.Cuts.{Within, adds, poured, stuck_or};
ghost use Rattle.checking.specs.Held.{ring_at};

use ears::cut;
use nodes::{Node, WriteStore};
use plane::{Corners, Edge, Point};
use rules::loop_edges;
use sheet::Loop;

// Whether there is an edge between two vertices, in one direction or the other.
fn is_drawn(edges: &[Edge], u: u16, v: u16) -> bool
    ensures { result ≡ is_drawn_of edges.now u v }
{
    let forth = Edge { from: u, to: v };
    let back = Edge { from: v, to: u };
    for edge in edges {
        if *edge == forth || *edge == back {
            return true;
        }
    }
    false
}

// The same, of an edge that most often is one of the loop's own, which are a few of all.
#[tactic(auto, using(crate::proofs::Rows::own_first))]
fn is_edge(listed: &[Edge], row: &[Edge], u: u16, v: u16) -> bool
    requires { Within row.now listed.now }
    ensures { result ≡ is_drawn_of listed.now u v }
{
    is_drawn(row, u, v) || is_drawn(listed, u, v)
}

fn mark(is: bool, number: u16) -> u16
    ensures { result ≡ mark_of is number }
{
    if is { number } else { 0 }
}

// Which sides of a triangle are edges of the sheet.
fn sides_number(listed: &[Edge], row: &[Edge], triangle: Corners) -> u16
    requires { Within row.now listed.now }
    ensures { result ≡ sides_number_of listed.now (triangle_of triangle) }
{
    let Corners { a, b, c } = triangle;
    mark(is_edge(listed, row, a, b), 1)
        + (mark(is_edge(listed, row, b, c), 2) + mark(is_edge(listed, row, c, a), 4))
}

// A node without children.
fn bottom_node(listed: &[Edge], row: &[Edge], ring: u16, triangle: Corners) -> Node
    requires { Within row.now listed.now }
    ensures { result ≡ bottom_node_of listed.now ring (triangle_of triangle) }
{
    Node {
        a: triangle.a,
        b: triangle.b,
        c: triangle.c,
        ring,
        sides: sides_number(listed, row, triangle),
        count: 0,
        children: [0; 8],
    }
}

// Adds the nodes of a loop's triangles, as long as there is room.
fn add_all<S: WriteStore>(
    listed: &[Edge],
    row: &[Edge],
    ring: u16,
    triangles: &[Corners],
    store: &mut S,
)
    requires { Within row.now listed.now }
    ensures nodes { S.ReadStore.nodes store.new ≡ adds (S.ReadStore.nodes store.old) (S.WriteStore.room store.old) (map (bottom_node_of listed.now ring) (map triangle_of triangles.now)) }
    ensures room { S.WriteStore.room store.new ≡ S.WriteStore.room store.old }
{
    for triangle in triangles {
        let _ = store.add(bottom_node(listed, row, ring, *triangle));
    }
}

// Puts the vertices that edges start at into the front of a list.
fn fill(ring: &mut [u16], row: &[Edge])
    requires { length row.now ≤ length ring.old }
    ensures { take (length row.now) ring.new ≡ map (λ e. e.from) row.now }
{
    for (i, edge) in row.iter().enumerate() {
        ring[i] = edge.from;
    }
}

// Cuts a loop, whose edges are `row`, into the store; false where it is stuck. `ring` and `triangles` are scratch.
fn cut_loop<S: WriteStore>(
    points: &[Point],
    edges: &[Edge],
    row: &[Edge],
    number: u16,
    ring: &mut [u16],
    triangles: &mut [Corners],
    store: &mut S,
) -> bool
    requires ring { length row.now ≤ length ring.old }
    requires triangles { length row.now - 2 ≤ length triangles.old }
    requires within { Within row.now edges.now }
    ensures nodes { option_map (λ ts. adds (S.ReadStore.nodes store.old) (S.WriteStore.room store.old) (map (bottom_node_of edges.now number) ts)) (cut_of (place_of points.now) (map (λ e. e.from) row.now)) ≡ cond result (Just (S.ReadStore.nodes store.new)) Nothing }
    ensures room { S.WriteStore.room store.new ≡ S.WriteStore.room store.old }
{
    fill(ring, row);
    let Ok(count) = cut(points, &mut ring[..row.len()], triangles) else {
        return false;
    };
    add_all(edges, row, number, &triangles[..count], store);
    true
}

/// Cuts all loops into the store, one after another, or answers the first that is stuck. `listed` are the edges of the sheet, and the
/// loops' corners are where their edges start in `edges`.
pub(crate) fn cut_loops<S: WriteStore>(
    points: &[Point],
    listed: &[Edge],
    edges: &[Edge],
    loops: &[Loop],
    store: &mut S,
) -> Option<usize>
    requires short { All (λ l. length (loop_edges_of edges.now l) ≤ 1028) loops.now }
    requires few { length loops.now ≤ 65535 }
    requires within { All (λ l. Within (loop_edges_of edges.now l) listed.now) loops.now }
    ensures nodes { poured (place_of points.now) listed.now (S.WriteStore.room store.old) 0 (map (ring_at edges.now) loops.now) (S.ReadStore.nodes store.old) ≡ stuck_or result (S.ReadStore.nodes store.new) }
    ensures room { S.WriteStore.room store.new ≡ S.WriteStore.room store.old }
{
    let mut ring = [0; 1028];
    let mut triangles = [Corners::default(); 1026];
    for (number, item) in loops.iter().enumerate() {
        let row = loop_edges(edges, item);
        if !cut_loop(
            points,
            listed,
            row,
            number as u16,
            &mut ring,
            &mut triangles,
            store,
        ) {
            return Some(number);
        }
    }
    None
}
