ghost use Rattle.std.specs.Prelude.{◌≡◌, Some};
ghost use Rattle.plane.specs.Kernels.{Makes, MakesOnly, on_sheet_said, rational_point, side_said, triangle_said};
ghost use Rattle.plane.specs.Printed.{rational_words};
ghost use Rattle.std.proofs.Common.{rules};

use crate::determinant::SmallSpot;
use crate::kernel::Kernel;
use crate::{Point, Side, Test};
use std::fmt;

/// A tip at the point (x/z, y/z).
#[derive(Clone, Copy, PartialEq, Eq, Debug)]
pub struct RationalTip {
    /// How far to the right, times `z`.
    pub x: u64,
    /// How far up, times `z`.
    pub y: u64,
    /// What the other two are divided by.
    pub z: u32,
}

impl RationalTip {
    // The point that the tip means, where it is fit.
    fn small(self) -> Option<SmallSpot>
        ensures { result ≡ rational_point self }
    {
        let RationalTip { x, y, z } = self;
        if self.fit() {
            Some(SmallSpot { x, y, z })
        } else {
            None
        }
    }
}

impl fmt::Display for RationalTip {
    ghost output = { λ tip. Some (rational_words tip) };

    fn fmt<W: fmt::Write>(&self, f: &mut fmt::Formatter<W>) -> fmt::Result {
        write!(f, "{} {} {}", self.x, self.y, self.z)
    }
}

/// Rational tips: fit where z is 1 to 1,048,575, and x and y are at most 8,589,934,591.
impl Kernel for RationalTip {
    ghost means = { rational_point };

    ghost scaled = { Prim.search rules };

    fn fit(&self) -> bool {
        0 < self.z && self.z <= 1_048_575 && self.x <= 8_589_934_591 && self.y <= 8_589_934_591
    }

    fn side(&self, a: Point, b: Point) -> Side
        ensures { result ≡ side_said (rational_point self.now) a b }
    {
        self.small().map_or(Side::On, |spot| spot.side_from(a, b))
    }

    fn triangle(&self, a: Point, b: Point, c: Point) -> Test
        ensures { result ≡ triangle_said (rational_point self.now) a b c }
    {
        match self.small() {
            Some(spot) => spot.triangle_of(a, b, c),
            None => Test {
                tests: 3,
                holds: true,
            },
        }
    }

    fn spot(&self) -> Option<SmallSpot> {
        self.small()
    }

    fn on_sheet(&self, width: u16, height: u16) -> bool
        ensures { result ≡ on_sheet_said (rational_point self.now) width height }
    {
        self.small()
            .is_some_and(|spot| spot.is_within(width, height))
    }

    fn make(a: Point) -> Option<RationalTip>
        ensures made { Makes rational_point a result }
        ensures only { MakesOnly rational_point a result }
    {
        a.is_sheet_point().then_some(RationalTip {
            x: u64::from(a.x),
            y: u64::from(a.y),
            z: 1,
        })
    }
}
