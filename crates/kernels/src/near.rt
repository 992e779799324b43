ghost use Rattle.plane.specs.Kernels.{whole_point};
ghost use Rattle.std.proofs.Common.{rules};

use crate::is_sheet_point;
use plane::{Kernel, Point, Side, WholeTip};

/// A whole tip that is on every line through a point that no sheet has.
#[derive(Clone, Copy, PartialEq, Eq, Debug)]
pub struct NearTip {
    /// The tip that it means.
    pub tip: WholeTip,
}

/// It tells the sides of the points that sheets have, and of others nothing.
impl Kernel for NearTip {
    ghost means = { λ t. whole_point t.tip };

    ghost scaled = { Prim.search rules };

    fn fit(&self) -> bool {
        self.tip.fit()
    }

    fn side(&self, a: Point, b: Point) -> Side {
        if is_sheet_point(a) && is_sheet_point(b) {
            self.tip.side(a, b)
        } else {
            Side::On
        }
    }

    fn on_sheet(&self, width: u16, height: u16) -> bool {
        self.tip.on_sheet(width, height)
    }

    fn make(a: Point) -> Option<NearTip> {
        let tip = WholeTip::make(a)?;
        Some(NearTip { tip })
    }
}
