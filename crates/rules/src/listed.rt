//! The rules that ask whether something is listed twice, or not at all.
ghost use Rattle.std.specs.Prelude.{◌≡◌, ◌≤◌, length, reverse};
ghost use Rattle.std.specs.List.{list_any};
ghost use Rattle.plane.specs.Edges.{back, same_edge};
ghost use Rattle.rules.specs.Held.{edges_broken_at, points_broken_at, reverses_broken_at};
ghost use Rattle.rules.specs.Rules.{is_listed};

use clash::first_clash;
use plane::{Edge, Point};

// Rule 14: no two vertices are the same point.
pub(crate) fn points_broken(points: &[Point]) -> Option<usize>
    ensures { result ≡ points_broken_at points.now }
{
    first_clash(points).map(|clash| clash.later)
}

// Rule 16: no directed edge is listed twice.
pub(crate) fn edges_broken(edges: &[Edge]) -> Option<usize>
    ensures { result ≡ edges_broken_at edges.now }
{
    first_clash(edges).map(|clash| clash.later)
}

// Rule 17: the reverse of every listed edge is listed.
#[tactic(auto, using(crate::proofs::Searches::alone_here, crate::proofs::Searches::alone_later))]
pub(crate) fn reverses_broken(edges: &[Edge]) -> Option<usize>
    ensures { result ≡ reverses_broken_at edges.now }
{
    for (i, edge) in edges.iter().enumerate() {
        if !is_listed_near(edges, i, back(*edge)) {
            return Some(i);
        }
    }
    None
}

// The edge from the end of this one to its beginning.
pub(crate) fn back(edge: Edge) -> Edge
    ensures { result ≡ back edge }
{
    Edge {
        from: edge.to,
        to: edge.from,
    }
}

// Whether an edge is one of these. It is looked for from position i back, and then from there on: loops that share an edge are most
// often listed near each other.
#[tactic(auto, using(crate::proofs::Searches::listed_behind))]
fn is_listed_near(edges: &[Edge], i: usize, edge: Edge) -> bool
    requires { i ≤ length edges.now }
    ensures { result ≡ is_listed edges.now edge }
{
    is_behind(&edges[..i], edge) || is_ahead(&edges[i..], edge)
}

// Whether an edge is one of these, the last of which is the likeliest.
#[tactic(auto, using(crate::proofs::Searches::listed_backwards))]
pub(crate) fn is_behind(edges: &[Edge], edge: Edge) -> bool
    ensures { result ≡ is_listed edges.now edge }
{
    is_met_going_back(edges, edge)
}

fn is_met_going_back(edges: &[Edge], edge: Edge) -> bool
    ensures { result ≡ list_any (same_edge edge) (reverse edges.now) }
{
    edges.iter().rev().any(|listed| edge == *listed)
}

// Whether an edge is one of these, the first of which is the likeliest.
fn is_ahead(edges: &[Edge], edge: Edge) -> bool
    ensures { result ≡ is_listed edges.now edge }
{
    edges.iter().any(|listed| edge == *listed)
}
