//! The rules over the corners of the loops, whose edges stand in one list.
ghost use Rattle.std.specs.Prelude.{◌≡◌, ◌==◌, ◌≤◌, is_some, length, map};
ghost use Rattle.clash.specs.Clashes.{first_clash_in};
ghost use Rattle.std.specs.List.{list_any};
ghost use Rattle.rules.specs.Held.{loop_edges as loop_edges_of, loops_broken_at, starts_at, vertices_broken_at};

use plane::Edge;
use sheet::Loop;

/// The edges of a loop: so many from its first position on, as far as there are any.
pub fn loop_edges<'a>(edges: &'a [Edge], item: &Loop) -> &'a [Edge]
    ensures value { result.now ≡ loop_edges_of edges.now item.now }
    ensures few { length result.now ≤ 65535 }
{
    let rest = &edges[edges.len().min(usize::from(item.start))..];
    &rest[..rest.len().min(usize::from(item.corners))]
}

// Whether one of these edges starts at a vertex.
fn starts_one(edges: &[Edge], vertex: usize) -> bool
    ensures { result ≡ list_any (starts_at vertex) edges.now }
{
    edges.iter().any(|edge| usize::from(edge.from) == vertex)
}

// Whether two of these edges start at one vertex.
#[tactic(auto, using(crate::proofs::Twice::twice_here, crate::proofs::Twice::twice_later))]
fn names_twice(edges: &[Edge]) -> bool
    ensures { result ≡ is_some (first_clash_in (λ u v. u == v) (map (λ e. e.from) edges.now)) }
{
    for (later, edge) in edges.iter().enumerate() {
        if starts_one(&edges[..later], usize::from(edge.from)) {
            return true;
        }
    }
    false
}

// Rule 15: no loop names a vertex twice.
pub(crate) fn loops_broken(edges: &[Edge], loops: &[Loop]) -> Option<usize>
    ensures { result ≡ loops_broken_at edges.now loops.now }
{
    loops
        .iter()
        .position(|item| names_twice(loop_edges(edges, item)))
}

// Whether a vertex is a corner of one of the loops.
fn is_corner(edges: &[Edge], loops: &[Loop], vertex: usize) -> bool
    ensures { result ≡ list_any (λ l. list_any (starts_at vertex) (loop_edges_of edges.now l)) loops.now }
{
    loops
        .iter()
        .any(|item| starts_one(loop_edges(edges, item), vertex))
}

// Rule 18: every inner vertex is a corner of some loop.
pub(crate) fn vertices_broken(inner: u16, edges: &[Edge], loops: &[Loop]) -> Option<usize>
    ensures { result ≡ vertices_broken_at inner edges.now loops.now }
{
    (4..4 + usize::from(inner)).find(|vertex| !is_corner(edges, loops, *vertex))
}
