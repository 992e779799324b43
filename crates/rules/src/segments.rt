//! Whether two segments share a point. Each answer is told by boxes first: most pairs are apart, and cost no product.
ghost use Rattle.std.specs.Prelude.{◌≡◌, pos};
ghost use Rattle.plane.specs.Points.{det, grid_point, int_same, side_of, spot_at};
ghost use Rattle.rules.specs.Rules.{cross as cross_of, lies_on as lies_on_of, opposite as opposite_of};
ghost use Rattle.rules.specs.Segments.{boxes_meet as boxes_meet_of, in_box as in_box_of, in_range as in_range_of, meet_at, overlap_at, ranges_meet as ranges_meet_of};

use plane::{Kernel, Point, Side, WholeTip};

// Whether two segments from `u` overlap: the end of one lies on the other.
pub(crate) fn overlap(u: Point, v: Point, w: Point) -> bool
    ensures { result ≡ overlap_at u v w }
{
    lies_on(u, w, v) || lies_on(u, v, w)
}

// Whether the segments from `a` to `b` and from `c` to `d` share a point.
pub(crate) fn meet(a: Point, b: Point, c: Point, d: Point) -> bool
    ensures { result ≡ meet_at a b c d }
{
    (lies_on(a, b, c) || lies_on(a, b, d))
        || ((lies_on(c, d, a) || lies_on(c, d, b)) || cross(a, b, c, d))
}

// Whether two segments have each other's ends strictly on both of their sides.
fn cross(a: Point, b: Point, c: Point, d: Point) -> bool
    ensures { result ≡ cross_of (grid_point a) (grid_point b) (grid_point c) (grid_point d) }
{
    parts(a, b, c, d) && parts(c, d, a, b)
}

// Whether `c` and `d` are strictly on both sides of the line from `a` to `b`.
fn parts(a: Point, b: Point, c: Point, d: Point) -> bool
    ensures { result ≡ opposite_of (det (grid_point a) (grid_point b) (spot_at (grid_point c))) (det (grid_point a) (grid_point b) (spot_at (grid_point d))) }
{
    matches!(
        (side(a, b, c), side(a, b, d)),
        (Side::Left, Side::Right) | (Side::Right, Side::Left)
    )
}

// Whether `q` is on the segment from `a` to `b`, or at an end: within its box, and on its line.
#[tactic(auto, using(crate::proofs::Boxes::lies_on_by_box))]
fn lies_on(a: Point, b: Point, q: Point) -> bool
    ensures { result ≡ lies_on_of (grid_point a) (grid_point b) (grid_point q) }
{
    in_box(a, b, q) && is_in_line(a, b, q)
}

// Whether the three points are in one line.
fn is_in_line(a: Point, b: Point, q: Point) -> bool
    ensures { result ≡ int_same (det (grid_point a) (grid_point b) (spot_at (grid_point q))) (pos 0) }
{
    side(a, b, q) == Side::On
}

// Whether `q` is in the box of `a` and `b`.
fn in_box(a: Point, b: Point, q: Point) -> bool
    ensures { result ≡ in_box_of a b q }
{
    in_range(a.x, b.x, q.x) && in_range(a.y, b.y, q.y)
}

fn in_range(u: u16, v: u16, x: u16) -> bool
    ensures { result ≡ in_range_of u v x }
{
    u.min(v) <= x && x <= u.max(v)
}

// Whether the box of `a` and `b` has a point in common with that of `c` and `d`.
pub(crate) fn boxes_meet(a: Point, b: Point, c: Point, d: Point) -> bool
    ensures { result ≡ boxes_meet_of a b c d }
{
    ranges_meet(a.x, b.x, c.x, d.x) && ranges_meet(a.y, b.y, c.y, d.y)
}

fn ranges_meet(a: u16, b: u16, c: u16, d: u16) -> bool
    ensures { result ≡ ranges_meet_of a b c d }
{
    a.min(b) <= c.max(d) && c.min(d) <= a.max(b)
}

// On which side of the line from `a` to `b` the point `q` is.
fn side(a: Point, b: Point, q: Point) -> Side
    ensures { result ≡ side_of (det (grid_point a) (grid_point b) (spot_at (grid_point q))) }
{
    WholeTip { x: q.x, y: q.y }.side(a, b)
}
