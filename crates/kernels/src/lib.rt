//! Kernels that tell what a kernel must, and each of them elsewhere what it likes: each one keeps the trait as it stands, so the trait asks for
//! nothing but the meaning.
#![tactic(auto)]

ghost use Rattle.std.specs.Prelude.{◌≡◌};
ghost use Rattle.plane.specs.Kernels.{is_extent as is_extent_of, is_sheet_point as is_sheet_point_of};

mod anywhere;
mod doubled;
mod near;
mod sized;

pub use anywhere::AnywhereTip;
pub use doubled::DoubledTip;
pub use near::NearTip;
use plane::Point;
pub use sized::SizedTip;

// Whether a sheet can have the point.
fn is_sheet_point(point: Point) -> bool
    ensures { result ≡ is_sheet_point_of point }
{
    point.x <= 8191 && point.y <= 8191
}

// Whether a sheet can be so wide or so high.
fn is_extent(extent: u16) -> bool
    ensures { result ≡ is_extent_of extent }
{
    2 <= extent && extent <= 8191
}

#[cfg(test)]
mod tests;
