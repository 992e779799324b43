//! The plane of a sheet: points, edges, on which side of a line a tip is, and the kernels that tell it.
#![tactic(auto)]

ghost use Rattle.std.specs.Prelude.{◌≡◌};
ghost use Rattle.plane.specs.Identities.{Identities};
ghost use Rattle.plane.specs.Kernels.{is_sheet_point};
ghost use Rattle.plane.specs.Edges.{same_edge};
ghost use Rattle.plane.specs.Points.{same_point, side_number, vertex_of};

mod determinant;
mod kernel;
mod rational;
mod spot;
mod whole;

use clash::Clash;
pub use determinant::SmallSpot;
pub use kernel::Kernel;
pub use rational::RationalTip;
pub use whole::WholeTip;

/// A point of a sheet, with whole coordinates.
#[derive(Clone, Copy, PartialEq, Eq, Debug, Default)]
pub struct Point {
    /// How far to the right.
    pub x: u16,
    /// How far up.
    pub y: u16,
}

impl Point {
    // Whether a sheet can have the point.
    pub(crate) fn is_sheet_point(self) -> bool
        ensures { result ≡ is_sheet_point self }
    {
        self.x <= 8191 && self.y <= 8191
    }
}

/// Where a vertex is: at (0, 0) where there is no such vertex.
pub fn place(points: &[Point], vertex: u16) -> Point
    ensures { result ≡ vertex_of points.now vertex }
{
    points
        .get(usize::from(vertex))
        .copied()
        .unwrap_or(Point { x: 0, y: 0 })
}

/// Two vertices at one point clash.
impl Clash for Point {
    ghost clashes = { same_point };

    fn clashes_with(&self, earlier: &Point) -> bool {
        self == earlier
    }
}

/// A directed edge, by its vertices.
#[derive(Clone, Copy, PartialEq, Eq, Debug, Default)]
pub struct Edge {
    /// The vertex where it starts.
    pub from: u16,
    /// The vertex where it ends.
    pub to: u16,
}

/// Two directed edges with the same ends clash.
impl Clash for Edge {
    ghost clashes = { same_edge };

    fn clashes_with(&self, earlier: &Edge) -> bool {
        self == earlier
    }
}

/// A triangle, by the vertices of its corners, counterclockwise.
#[derive(Clone, Copy, PartialEq, Eq, Debug, Default)]
pub struct Corners {
    /// The first corner's vertex.
    pub a: u16,
    /// The second corner's vertex.
    pub b: u16,
    /// The third corner's vertex.
    pub c: u16,
}

/// On which side of a line a tip is, as one looks along the line.
#[derive(Clone, Copy, PartialEq, Eq, Debug)]
pub enum Side {
    /// To the right of it.
    Right,
    /// On it.
    On,
    /// To the left of it.
    Left,
}

/// How many sides of a triangle are tested, in order up to the first that has the tip on its right, and whether none has.
#[derive(Clone, Copy, PartialEq, Eq, Debug)]
pub struct Test {
    /// How many are tested.
    pub tests: u32,
    /// Whether none has the tip on its right.
    pub holds: bool,
}

impl Side {
    /// The sign of the determinant that tells this side.
    pub fn number(self) -> i8
        ensures { result ≡ side_number self }
    {
        i8::from(self)
    }
}

impl From<Side> for i8 {
    ghost from_gives = { λ s r. r ≡ side_number s };

    fn from(side: Side) -> i8 {
        match side {
            Side::Right => -1,
            Side::On => 0,
            Side::Left => 1,
        }
    }
}

/// The identities of the determinant: turned round, summed, balanced, linear, and joined to heights and widths.
#[tactic(auto, using(crate::proofs::Determinants::identities))]
pub fn identities_stand()
    ensures { Identities }
{}

#[cfg(test)]
mod tests {
    use super::*;
    use std::test::Fail;

    #[test]
    fn prints_tips(rt: HostRuntime) -> Result<(), Fail> {
        let whole = WholeTip { x: 3, y: 65_535 };
        assert_eq!(rt; format!(in rt.alloc(); "{whole}")?.as_str(), "3 65535");
        let rational = RationalTip { x: 7, y: 0, z: 2 };
        assert_eq!(rt; format!(in rt.alloc(); "{rational}")?.as_str(), "7 0 2");
        Ok(())
    }
}
