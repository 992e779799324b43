//! The hole that a vertex leaves, and the nodes that close it.
ghost use Rattle.std.specs.Prelude.{◌≡◌, ◌+◌, ◌≤◌, ◌++◌, is_some, length, map};
ghost use Rattle.plane.specs.Points.{place_of};
ghost use Rattle.ears.specs.Cutting.{triangle_of};
ghost use Rattle.ears.specs.Ears.{cut_of};
ghost use Rattle.fans.specs.Around.{nodes_of};
ghost use Rattle.fans.specs.Fans.{ring_of};
ghost use Rattle.rounds.specs.Near.{filling, hole_of, node_over, padded};

use ears::cut;
use fans::Turned;
use nodes::{Node, WriteStore};
use plane::{Corners, Point};

/// A hole: the vertex and its nodes are out, and nothing is in their place. It cannot be let go: the one way on is to close it.
// So no `Drop`, and no `Copy`. Its ring has `size` corners, and as many children.
pub(crate) struct Hole {
    ring: [u16; 8],
    size: u16,
    children: [u16; 8],
}

// The corners that a fan of at most eight nodes notes.
#[tactic(auto, using(crate::proofs::Padded::padding))]
fn noted(links: &[Turned]) -> [u16; 8]
    requires { length links.now ≤ 8 }
    ensures { result ≡ padded (ring_of links.now) }
{
    let mut ring = [0; 8];
    for (i, link) in links.iter().enumerate() {
        ring[i] = link.next;
    }
    ring
}

// The nodes of such a fan.
#[tactic(auto, using(crate::proofs::Padded::padding))]
fn numbers(links: &[Turned]) -> [u16; 8]
    requires { length links.now ≤ 8 }
    ensures { result ≡ padded (nodes_of links.now) }
{
    let mut children = [0; 8];
    for (i, link) in links.iter().enumerate() {
        children[i] = link.node;
    }
    children
}

// Whether the corners that such a fan notes can be cut.
#[tactic(auto)]
pub(crate) fn can_be_cut(points: &[Point], links: &[Turned]) -> bool
    requires { length links.now ≤ 8 }
    ensures { result ≡ is_some (cut_of (place_of points.now) (ring_of links.now)) }
{
    let mut ring = noted(links);
    let mut triangles = [Corners::default(); 6];
    cut(points, &mut ring[..links.len()], &mut triangles).is_ok()
}

// A node that closes a hole of that size, with those children, in part.
fn closing_node(size: u16, children: [u16; 8], triangle: Corners) -> Node
    ensures { result ≡ node_over size children (triangle_of triangle) }
{
    Node {
        a: triangle.a,
        b: triangle.b,
        c: triangle.c,
        ring: 0,
        sides: 0,
        count: size,
        children,
    }
}

// Adds such nodes, for which there is room.
#[tactic(auto, using(crate::proofs::Padded::adding))]
fn add_all<S: WriteStore>(size: u16, children: [u16; 8], triangles: &[Corners], store: &mut S)
    requires { length (S.ReadStore.nodes store.old) + length triangles.now ≤ S.WriteStore.room store.old }
    ensures nodes { S.ReadStore.nodes store.new ≡ S.ReadStore.nodes store.old ++ map (node_over size children) (map triangle_of triangles.now) }
    ensures room { S.WriteStore.room store.new ≡ S.WriteStore.room store.old }
{
    for triangle in triangles {
        let _ = store.add(closing_node(size, children, *triangle));
    }
}

/// Opens the hole that the nodes of a fan leave, at most eight of them.
pub(crate) fn open_hole(links: &[Turned]) -> Hole
    requires { length links.now ≤ 8 }
    ensures { result ≡ hole_of links.now }
{
    Hole {
        ring: noted(links),
        size: links.len() as u16,
        children: numbers(links),
    }
}

impl Hole {
    /// Closes the hole: its corners are cut, and the nodes go into the store, which has room for them.
    #[tactic(auto, using(crate::proofs::Padded::closing))]
    pub(crate) fn close<S: WriteStore>(self, points: &[Point], store: &mut S)
        requires size { self.size ≤ 8 }
        requires room { length (S.ReadStore.nodes store.old) + length (filling (place_of points.now) self) ≤ S.WriteStore.room store.old }
        ensures nodes { S.ReadStore.nodes store.new ≡ S.ReadStore.nodes store.old ++ filling (place_of points.now) self }
        ensures room { S.WriteStore.room store.new ≡ S.WriteStore.room store.old }
    {
        let Hole {
            mut ring,
            size,
            children,
        } = self;
        let mut triangles = [Corners::default(); 6];
        let Ok(count) = cut(points, &mut ring[..usize::from(size)], &mut triangles) else {
            return;
        };
        add_all(size, children, &triangles[..count], store);
    }
}
