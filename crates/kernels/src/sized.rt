ghost use Rattle.plane.specs.Kernels.{whole_point};
ghost use Rattle.std.proofs.Common.{rules};

use crate::is_extent;
use plane::{Kernel, Point, Side, WholeTip};

/// A whole tip that is on no sheet of a size that no sheet has.
#[derive(Clone, Copy, PartialEq, Eq, Debug)]
pub struct SizedTip {
    /// The tip that it means.
    pub tip: WholeTip,
}

/// It says no to every width and height outside 2 to 8,191.
impl Kernel for SizedTip {
    ghost means = { λ t. whole_point t.tip };

    ghost scaled = { Prim.search rules };

    fn fit(&self) -> bool {
        self.tip.fit()
    }

    fn side(&self, a: Point, b: Point) -> Side {
        self.tip.side(a, b)
    }

    fn on_sheet(&self, width: u16, height: u16) -> bool {
        is_extent(width) && is_extent(height) && self.tip.on_sheet(width, height)
    }

    fn make(a: Point) -> Option<SizedTip> {
        let tip = WholeTip::make(a)?;
        Some(SizedTip { tip })
    }
}
