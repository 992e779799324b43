ghost use Rattle.std.specs.Prelude.{◌≡◌, IfSome, Some, is_some, Option};
ghost use Rattle.plane.specs.Kernels.{Makes, Scaled, TellsOnSheet, TellsSide, TellsTriangle};
ghost use Rattle.plane.specs.Points.{Spot};

use crate::{Point, Side, SmallSpot, Test};

/// Tips of one kind: each means a point of the plane, or is not fit and means none.
pub trait Kernel: Sized {
    // the point that a tip means
    ghost means: { Self → Option Spot };

    /// Whether the tip means a point.
    fn fit(&self) -> bool
        ensures { result ≡ is_some (means self.now) };

    /// On which side of the line from `a` to `b` the tip is, where both are points that a sheet can have: coordinates of at most 8,191;
    /// `On` where the tip is not fit. Of other points nothing is asked.
    fn side(&self, a: Point, b: Point) -> Side
        ensures { TellsSide (means self.now) a b result };

    /// The sides of a triangle of such points, tested in the order ab, bc, ca up to the first that has the tip on its right. A kernel
    /// need not say how: as it stands here, it asks for the sides one by one.
    fn triangle(&self, a: Point, b: Point, c: Point) -> Test
        ensures { TellsTriangle (means self.now) a b c result }
    {
        if self.side(a, b) == Side::Right {
            return Test {
                tests: 1,
                holds: false,
            };
        }
        if self.side(b, c) == Side::Right {
            return Test {
                tests: 2,
                holds: false,
            };
        }
        Test {
            tests: 3,
            holds: self.side(c, a) != Side::Right,
        }
    }

    /// The point that the tip means, where the kernel hands it out in small numbers. It need not.
    fn spot(&self) -> Option<SmallSpot>
        ensures { IfSome result (λ s. means self.now ≡ Some s) }
    {
        None
    }

    /// Whether the tip is on the sheet from (0, 0) to (`width`, `height`), where each is 2 to 8,191; not where the tip is not fit. Of other
    /// sizes nothing is asked.
    fn on_sheet(&self, width: u16, height: u16) -> bool
        ensures { TellsOnSheet (means self.now) width height result };

    /// A fit tip at a whole point, where both coordinates are at most 8,191. Of other points a tip may be made, or none.
    fn make(a: Point) -> Option<Self>
        ensures { Makes means a result };

    // the point (X/Z, Y/Z) has a Z above 0
    ghost scaled: { (t : Self) → Scaled (means t) };
}
