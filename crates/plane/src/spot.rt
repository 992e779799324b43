ghost use Rattle.std.specs.Prelude.{◌≡◌};
ghost use Rattle.plane.specs.Kernels.{Makes, MakesOnly, on_sheet_said, small_point, side_said, triangle_said};
ghost use Rattle.std.proofs.Common.{rules};

use crate::determinant::SmallSpot;
use crate::kernel::Kernel;
use crate::{Point, Side, Test};

/// Points in small numbers, each of which is fit as it stands.
impl Kernel for SmallSpot {
    ghost means = { small_point };

    ghost scaled = { Prim.search rules };

    fn fit(&self) -> bool {
        let spot = *self;
        0 < spot.z
    }

    fn side(&self, a: Point, b: Point) -> Side
        ensures { result ≡ side_said (small_point self.now) a b }
    {
        let spot = *self;
        spot.side_from(a, b)
    }

    fn triangle(&self, a: Point, b: Point, c: Point) -> Test
        ensures { result ≡ triangle_said (small_point self.now) a b c }
    {
        let spot = *self;
        spot.triangle_of(a, b, c)
    }

    fn on_sheet(&self, width: u16, height: u16) -> bool
        ensures { result ≡ on_sheet_said (small_point self.now) width height }
    {
        let spot = *self;
        spot.is_within(width, height)
    }

    fn make(a: Point) -> Option<SmallSpot>
        ensures made { Makes small_point a result }
        ensures only { MakesOnly small_point a result }
    {
        a.is_sheet_point().then_some(SmallSpot {
            x: u64::from(a.x),
            y: u64::from(a.y),
            z: 1,
        })
    }
}
