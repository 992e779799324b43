//! What a bottom node tells of a tip that it holds.
ghost use Rattle.std.specs.Prelude.{◌≡◌, true};
ghost use Rattle.plane.specs.Kernels.{is_sheet_point, side_said};
ghost use Rattle.walk.specs.Walks.{is_bottom_node, edge_named as edge_named_of, edge_or_face as edge_or_face_of, is_on as is_on_of, node_at, told_by, told_node};

use crate::view::{Places, number};
use fans::corners_at;
use nodes::ReadStore;
use plane::{Corners, Kernel, Point, Side};
use sheet::Answer;

// The edge between two vertices, the lower one first.
fn edge_named(u: u16, v: u16) -> Answer
    ensures { result ≡ edge_named_of u v }
{
    if u < v {
        Answer::OpenEdge(u, v)
    } else {
        Answer::OpenEdge(v, u)
    }
}

// Whether the tip is on the line from one point to another.
fn is_on<K: Kernel>(tip: &K, a: Point, b: Point) -> bool
    requires { (is_sheet_point a ≡ true) × (is_sheet_point b ≡ true) }
    ensures { result ≡ is_on_of (side_said (K.means tip.now) a b) }
{
    tip.side(a, b) == Side::On
}

// An edge of the sheet, or else the face of a loop.
fn edge_or_face(is_edge: bool, u: u16, v: u16, ring: u16) -> Answer
    ensures { result ≡ edge_or_face_of is_edge u v ring }
{
    if is_edge {
        edge_named(u, v)
    } else {
        Answer::Face(ring)
    }
}

// What a triangle of a loop tells, by which of its sides have the tip on them, and which are edges of the sheet.
fn told_corners(corners: Corners, sides: u16, ring: u16, ab: bool, bc: bool, ca: bool) -> Answer
    ensures { result ≡ told_by corners.a corners.b corners.c sides ring ab bc ca }
{
    let Corners { a, b, c } = corners;
    match (ab, bc, ca) {
        (true, _, true) => Answer::Vertex(a),
        (true, true, false) => Answer::Vertex(b),
        (true, false, false) => edge_or_face(sides % 2 == 1, a, b, ring),
        (false, true, true) => Answer::Vertex(c),
        (false, true, false) => edge_or_face((sides / 2) % 2 == 1, b, c, ring),
        (false, false, true) => edge_or_face((sides / 4) % 2 == 1, c, a, ring),
        (false, false, false) => Answer::Face(ring),
    }
}

// What a bottom node with corners at these places tells.
pub(crate) fn told<K: Kernel, S: ReadStore>(tip: &K, store: &S, k: u16, at: Places) -> Answer
    requires { (is_sheet_point at.a ≡ true) × ((is_sheet_point at.b ≡ true) × (is_sheet_point at.c ≡ true)) }
    ensures { result ≡ told_node (K.means tip.now) at (node_at (S.nodes store.now) k) }
{
    let ab = is_on(tip, at.a, at.b);
    let bc = is_on(tip, at.b, at.c);
    let ca = is_on(tip, at.c, at.a);
    told_corners(
        corners_at(store, k),
        number(store, k, 4),
        number(store, k, 3),
        ab,
        bc,
        ca,
    )
}

// Whether a bottom node is of a loop, and of its three sides some are edges.
pub(crate) fn is_bottom<S: ReadStore>(loops: usize, store: &S, k: u16) -> bool
    ensures { result ≡ is_bottom_node loops (node_at (S.nodes store.now) k) }
{
    usize::from(number(store, k, 3)) < loops && number(store, k, 4) < 8
}
