//! Where the points of a sheet are drawn: in pixels, from the left and from the top of the picture.
ghost use Rattle.std.specs.Prelude.{◌≤◌};

use crate::decimal::Hundredths;
use crate::marks::Spot;
use crate::tip::Tip;
use plane::{Point, RationalTip};

/// How long the longer side of a sheet is drawn.
pub(crate) const SIDE: u64 = 1000;

/// What is left around the sheet.
pub(crate) const MARGIN: u64 = 125;

/// The room for the legend under that.
const LEGEND: u64 = 60;

// The legend is no wider than this.
const LEAST_WIDTH: u64 = 1040;

/// A sheet's size.
#[derive(Clone, Copy)]
pub(crate) struct Frame {
    pub(crate) width: u16,
    pub(crate) height: u16,
}

/// A place in the picture, in whole pixels.
#[derive(Clone, Copy, PartialEq, Eq, Debug)]
pub(crate) struct Pixel {
    pub(crate) left: i64,
    pub(crate) top: i64,
}

impl Frame {
    // At least 1, since it is divided by.
    fn longer(self) -> u64
        ensures least { 1 ≤ result }
        ensures most { result ≤ 65535 }
    {
        u64::from(self.width.max(self.height).max(1))
    }

    /// How wide the picture is.
    pub(crate) fn across(self) -> u64 {
        (SIDE * u64::from(self.width) / self.longer() + 2 * MARGIN).max(LEAST_WIDTH)
    }

    /// How high the sheet is drawn, with what is left around it.
    pub(crate) fn down(self) -> u64 {
        SIDE * u64::from(self.height) / self.longer() + 2 * MARGIN
    }

    /// How high the picture is.
    pub(crate) fn with_legend(self) -> u64 {
        self.down().saturating_add(LEGEND)
    }

    // The numerators over z times the longer side, from the left and from the top; a point left of the picture or above it is drawn at its border.
    fn scaled(self, spot: Spot) -> (u64, u64, u64) {
        let unit = self.longer().saturating_mul(spot.z).max(1);
        let margin = MARGIN.saturating_mul(unit);
        let left = SIDE.saturating_mul(spot.x).saturating_add(margin);
        let height = u64::from(self.height).saturating_mul(spot.z);
        let top = SIDE
            .saturating_mul(height)
            .saturating_add(margin)
            .saturating_sub(SIDE.saturating_mul(spot.y));
        (left, top, unit)
    }

    /// Where a spot is drawn, from the left and from the top.
    pub(crate) fn drawn(self, spot: Spot) -> (Hundredths, Hundredths) {
        let (left, top, unit) = self.scaled(spot);
        (Hundredths(left, unit), Hundredths(top, unit))
    }

    /// The pixel of a spot; one that is farther from the sheet than the margin goes is at the border of the picture.
    pub(crate) fn pixel(self, spot: Spot) -> Pixel {
        let (left, top, unit) = self.scaled(spot);
        Pixel {
            left: within(left / unit.max(1), self.across()),
            top: within(top / unit.max(1), self.down()),
        }
    }

    /// The tip at a pixel, where it is no farther left of the sheet or below it.
    pub(crate) fn tip(self, pixel: Pixel) -> Option<Tip> {
        let left = u64::try_from(pixel.left).ok()?.checked_sub(MARGIN)?;
        let top = u64::try_from(pixel.top).ok()?.checked_sub(MARGIN)?;
        let height = SIDE.saturating_mul(u64::from(self.height));
        Some(Tip::Rational(RationalTip {
            x: left.saturating_mul(self.longer()),
            y: height.checked_sub(top.saturating_mul(self.longer()))?,
            z: 1000,
        }))
    }

    /// Where a vertex is drawn.
    pub(crate) fn corner(self, at: Point) -> (Hundredths, Hundredths) {
        self.drawn(Spot {
            x: u64::from(at.x),
            y: u64::from(at.y),
            z: 1,
        })
    }
}

// A whole number of pixels, at least 12 from both borders.
fn within(pixels: u64, most: u64) -> i64 {
    let pixels = i64::try_from(pixels).unwrap_or(i64::MAX);
    let most = i64::try_from(most).unwrap_or(i64::MAX);
    pixels.min(most.saturating_sub(12)).max(12)
}

#[cfg(test)]
mod tests {
    use super::*;
    use std::test::Fail;

    #[test]
    fn points_are_drawn(rt: HostRuntime) -> Result<(), Fail> {
        let frame = Frame {
            width: 12,
            height: 10,
        };
        assert_eq!(rt;
            (frame.across(), frame.down(), frame.with_legend()),
            (1250, 1083, 1143)
        );
        for (x, y, z, drawn, left, top) in [
            (0, 0, 1, "125.00 958.33", 125, 958),
            (12, 10, 1, "1125.00 125.00", 1125, 125),
            (20, 14, 3, "680.56 569.44", 680, 569),
            (60_000, 0, 1, "5000125.00 958.33", 1238, 958),
            (0, 60_000, 1, "125.00 0.00", 125, 12),
        ] {
            let spot = Spot { x, y, z };
            let (across, down) = frame.drawn(spot);
            let told = format!(in rt.alloc(); "{across} {down}")?;
            assert_eq!(rt; told.as_str(), drawn);
            assert_eq!(rt; frame.pixel(spot), Pixel { left, top });
        }
        let tip = RationalTip {
            x: 6000,
            y: 4000,
            z: 1000,
        };
        assert_eq!(rt;
            frame.tip(Pixel {
                left: 625,
                top: 625
            }),
            Some(Tip::Rational(tip))
        );
        assert_eq!(rt;
            frame.tip(Pixel {
                left: 124,
                top: 625
            }),
            None
        );
        Ok(())
    }
}
