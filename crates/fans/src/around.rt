//! A node around a vertex, as it turns there.
ghost use Rattle.std.specs.Prelude.{◌≡◌};
ghost use Rattle.fans.specs.Around.{turned as turned_of};

use plane::Corners;

/// A node turned so that a vertex comes first: `next` and `last` are its other corners, counterclockwise from the vertex.
#[derive(Clone, Copy, PartialEq, Eq, Debug, Default)]
pub struct Turned {
    /// The number of the node.
    pub node: u16,
    /// The corner after the vertex.
    pub next: u16,
    /// The corner before it.
    pub last: u16,
}

/// Node `k` turned to a vertex, if it has that corner: the first of its corners that is the vertex decides.
pub fn turn(vertex: u16, k: u16, corners: Corners) -> Option<Turned>
    ensures { result ≡ turned_of vertex k corners }
{
    let Corners { a, b, c } = corners;
    let (next, last) = if a == vertex {
        (b, c)
    } else if b == vertex {
        (c, a)
    } else if c == vertex {
        (a, b)
    } else {
        return None;
    };
    Some(Turned {
        node: k,
        next,
        last,
    })
}
