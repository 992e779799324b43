//! A triangle with where its corners are, and whether a vertex lies in it.
ghost use Rattle.std.specs.Prelude.{◌≡◌};
ghost use Rattle.std.specs.List.{list_any};
ghost use Rattle.plane.specs.Points.{det, grid_point, side_of, spot_at};
ghost use Rattle.ears.specs.Shapes.{greatest as greatest_of, holds as holds_of, holds_in_box, in_box as in_box_of, in_range as in_range_of, least as least_of, not_right, shape_of, turns_left};

use plane::{Corners, Kernel, Point, Side, WholeTip, place};

/// A triangle with where its corners are, and the box that they span.
#[derive(Clone, Copy)]
pub(crate) struct Shape {
    pub(crate) corners: Corners,
    pub(crate) a: Point,
    pub(crate) b: Point,
    pub(crate) c: Point,
    pub(crate) low: Point,
    pub(crate) high: Point,
}

impl Shape {
    // The triangle of these corners, among the vertices of a sheet.
    pub(crate) fn of(points: &[Point], corners: Corners) -> Shape
        ensures { result ≡ shape_of points.now corners }
    {
        let a = place(points, corners.a);
        let b = place(points, corners.b);
        let c = place(points, corners.c);
        Shape {
            corners,
            a,
            b,
            c,
            low: Point {
                x: least(a.x, b.x, c.x),
                y: least(a.y, b.y, c.y),
            },
            high: Point {
                x: greatest(a.x, b.x, c.x),
                y: greatest(a.y, b.y, c.y),
            },
        }
    }

    // Whether its corners turn to the left.
    pub(crate) fn is_left(&self) -> bool
        ensures { result ≡ turns_left self.now }
    {
        side(self.a, self.b, self.c) == Side::Left
    }

    // Whether one of these vertices is in it or on its border.
    pub(crate) fn holds_any(&self, points: &[Point], vertices: &[u16]) -> bool
        ensures { result ≡ list_any (holds_in_box points.now self.now) vertices.now }
    {
        vertices
            .iter()
            .any(|vertex| self.holds_vertex(points, *vertex))
    }

    // Whether a vertex is. Most lie outside the box, and cost no product.
    fn holds_vertex(&self, points: &[Point], vertex: u16) -> bool
        ensures { result ≡ holds_in_box points.now self.now vertex }
    {
        let q = place(points, vertex);
        self.is_boxing(q) && self.holds(q)
    }

    // Whether a point is in its box.
    fn is_boxing(&self, q: Point) -> bool
        ensures { result ≡ in_box_of self.now q }
    {
        in_range(self.low.x, self.high.x, q.x) && in_range(self.low.y, self.high.y, q.y)
    }

    // Whether a point is in it or on its border.
    fn holds(&self, q: Point) -> bool
        ensures { result ≡ holds_of self.now q }
    {
        is_not_right(self.a, self.b, q)
            && is_not_right(self.b, self.c, q)
            && is_not_right(self.c, self.a, q)
    }
}

fn least(u: u16, v: u16, w: u16) -> u16
    ensures { result ≡ least_of u v w }
{
    u.min(v).min(w)
}

fn greatest(u: u16, v: u16, w: u16) -> u16
    ensures { result ≡ greatest_of u v w }
{
    u.max(v).max(w)
}

fn in_range(low: u16, high: u16, x: u16) -> bool
    ensures { result ≡ in_range_of low high x }
{
    low <= x && x <= high
}

// Whether `q` is on the line from `a` to `b` or to its left.
fn is_not_right(a: Point, b: Point, q: Point) -> bool
    ensures { result ≡ not_right a b q }
{
    side(a, b, q) != Side::Right
}

// On which side of the line from `a` to `b` the point `q` is.
fn side(a: Point, b: Point, q: Point) -> Side
    ensures { result ≡ side_of (det (grid_point a) (grid_point b) (spot_at (grid_point q))) }
{
    WholeTip { x: q.x, y: q.y }.side(a, b)
}
