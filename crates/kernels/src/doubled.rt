ghost use Rattle.plane.specs.Kernels.{rational_point};
ghost use Rattle.std.proofs.Common.{rules};

use plane::{Kernel, Point, RationalTip, Side};

/// A rational tip that is made with a scale of 2.
#[derive(Clone, Copy, PartialEq, Eq, Debug)]
pub struct DoubledTip {
    /// The tip that it means.
    pub tip: RationalTip,
}

/// Of the point (x, y) it makes (2x, 2y, 2), which is the same place.
impl Kernel for DoubledTip {
    ghost means = { λ t. rational_point t.tip };

    ghost scaled = { Prim.search rules };

    fn fit(&self) -> bool {
        self.tip.fit()
    }

    fn side(&self, a: Point, b: Point) -> Side {
        self.tip.side(a, b)
    }

    fn on_sheet(&self, width: u16, height: u16) -> bool {
        self.tip.on_sheet(width, height)
    }

    fn make(a: Point) -> Option<DoubledTip> {
        let tip = RationalTip {
            x: 2 * u64::from(a.x),
            y: 2 * u64::from(a.y),
            z: 2,
        };
        Some(DoubledTip { tip })
    }
}
