ghost use Rattle.plane.specs.Kernels.{whole_point};
ghost use Rattle.std.proofs.Common.{rules};

use plane::{Kernel, Point, Side, WholeTip};

/// A whole tip that is made of any point.
#[derive(Clone, Copy, PartialEq, Eq, Debug)]
pub struct AnywhereTip {
    /// The tip that it means.
    pub tip: WholeTip,
}

/// It makes a tip of points that no sheet has, too.
impl Kernel for AnywhereTip {
    ghost means = { λ t. whole_point t.tip };

    ghost scaled = { Prim.search rules };

    fn fit(&self) -> bool {
        self.tip.fit()
    }

    fn side(&self, a: Point, b: Point) -> Side {
        self.tip.side(a, b)
    }

    fn on_sheet(&self, width: u16, height: u16) -> bool {
        self.tip.on_sheet(width, height)
    }

    fn make(a: Point) -> Option<AnywhereTip> {
        let tip = WholeTip { x: a.x, y: a.y };
        Some(AnywhereTip { tip })
    }
}
