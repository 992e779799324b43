ghost use Rattle.plane.specs.Kernels.{Makes, MakesOnly, on_sheet_said, whole_point, side_said, triangle_said};
ghost use Rattle.plane.specs.Printed.{whole_words};
ghost use Rattle.std.specs.Prelude.{◌≡◌, Some};
ghost use Rattle.std.proofs.Common.{rules};

use crate::determinant::{whole_side, whole_triangle};
use crate::kernel::Kernel;
use crate::{Point, Side, Test};
use std::fmt;

/// A tip at a whole point.
#[derive(Clone, Copy, PartialEq, Eq, Debug)]
pub struct WholeTip {
    /// How far to the right.
    pub x: u16,
    /// How far up.
    pub y: u16,
}

impl fmt::Display for WholeTip {
    ghost output = { λ tip. Some (whole_words tip) };

    fn fmt<W: fmt::Write>(&self, f: &mut fmt::Formatter<W>) -> fmt::Result {
        write!(f, "{} {}", self.x, self.y)
    }
}

/// Whole tips, every one of which is fit.
impl Kernel for WholeTip {
    ghost means = { whole_point };

    ghost scaled = { Prim.search rules };

    fn fit(&self) -> bool {
        true
    }

    fn side(&self, a: Point, b: Point) -> Side
        ensures { result ≡ side_said (whole_point self.now) a b }
    {
        let at = Point {
            x: self.x,
            y: self.y,
        };
        whole_side(at, a, b)
    }

    fn triangle(&self, a: Point, b: Point, c: Point) -> Test
        ensures { result ≡ triangle_said (whole_point self.now) a b c }
    {
        let at = Point {
            x: self.x,
            y: self.y,
        };
        whole_triangle(at, a, b, c)
    }

    fn on_sheet(&self, width: u16, height: u16) -> bool
        ensures { result ≡ on_sheet_said (whole_point self.now) width height }
    {
        self.x <= width && self.y <= height
    }

    fn make(a: Point) -> Option<WholeTip>
        ensures made { Makes whole_point a result }
        ensures only { MakesOnly whole_point a result }
    {
        a.is_sheet_point().then_some(WholeTip { x: a.x, y: a.y })
    }
}
