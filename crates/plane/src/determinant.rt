//! The determinant of two points and a tip, in 64 bits. Each step has a bound of its own, so that none can overflow.
ghost use Rattle.std.specs.Prelude.{◌≡◌, ◌+◌, ◌*◌, ◌^◌, ◌<◌, pos, ◌-ℤ◌, neg_ℤ, Some, int_lt, ◌*ℤ◌, ◌<ℤ◌, unsigned_abs};
ghost use Rattle.plane.specs.Points.{Spot, area, det, grid_point, is_on_sheet, side_of, spot_at};
ghost use Rattle.plane.specs.Kernels.{is_right, test_of, triangle_said};

use crate::{Point, Side, Test};
use std::cmp::Ordering;
use std::marker::Model;

/// The point (x/z, y/z), in numbers so small that 64 bits hold the determinant.
#[derive(Clone, Copy)]
pub struct SmallSpot {
    pub(crate) x: u64,
    pub(crate) y: u64,
    pub(crate) z: u32,
}

impl Model for SmallSpot {
    ghost Value = { Spot };

    ghost view = { λ s. record { X = pos s.x; Y = pos s.y; Z = pos s.z } };

    ghost invariant = { λ s. (s.x < 2 ^ 33) × ((s.y < 2 ^ 33) × ((0 < s.z) × (s.z < 2 ^ 20))) };

    ghost inverse = { λ p. record {
      x = unsigned_abs p.X;
      y = unsigned_abs p.Y;
      z = unsigned_abs p.Z;
    } };
}

impl SmallSpot {
    // On which side of the line from `a` to `b` the point is.
    pub(crate) fn side_from(self, a: Point, b: Point) -> Side
        ensures value { result ≡ side_of (det (grid_point a) (grid_point b) self) }
        ensures scaled { pos 0 <ℤ self.Z }
    {
        sign_of(self.determinant(a, b))
    }

    // The sides of a triangle, tested in order. All three are told without a branch, the second by what the others leave of the area.
    #[tactic(auto, using(crate::proofs::Determinants::triangle_sided))]
    pub(crate) fn triangle_of(self, a: Point, b: Point, c: Point) -> Test
        ensures value { result ≡ triangle_said (Some self) a b c }
        ensures scaled { pos 0 <ℤ self.Z }
    {
        let ab = self.determinant(a, b);
        let ca = turned(self.determinant(a, c));
        test_by(
            ab,
            rest(scaled_area(self.z, twice_area(a, b, c)), ab, ca),
            ca,
        )
    }

    // Whether the point is on the sheet from (0, 0) to (`width`, `height`).
    pub(crate) fn is_within(self, width: u16, height: u16) -> bool
        ensures value { result ≡ is_on_sheet (pos width) (pos height) self }
        ensures scaled { pos 0 <ℤ self.Z }
    {
        self.x <= scaled(width, self.z) && self.y <= scaled(height, self.z)
    }

    // The determinant of `a`, `b` and the point.
    #[tactic(auto, unfolding(crate::specs::Points::det))]
    fn determinant(self, a: Point, b: Point) -> i64
        ensures value { result ≡ det (grid_point a) (grid_point b) self }
        ensures scaled { pos 0 <ℤ self.Z }
        ensures bound { unsigned_abs result < 2 ^ 53 }
    {
        let across = product(step(a.x, b.x), offset(self.y, a.y, self.z));
        let up = product(step(a.y, b.y), offset(self.x, a.x, self.z));
        difference(across, up)
    }
}

// a * z
fn scaled(a: u16, z: u32) -> u64
    requires { z < 2 ^ 20 }
    ensures value { result ≡ a * z }
    ensures bound { result < 2 ^ 36 }
{
    u64::from(a) * u64::from(z)
}

// v - a * z
fn offset(v: u64, a: u16, z: u32) -> i64
    requires { (v < 2 ^ 33) × (z < 2 ^ 20) }
    ensures value { result ≡ pos v -ℤ pos a *ℤ pos z }
    ensures bound { unsigned_abs result < 2 ^ 36 }
{
    v as i64 - scaled(a, z) as i64
}

// to - from
fn step(from: u16, to: u16) -> i64
    ensures value { result ≡ pos to -ℤ pos from }
    ensures bound { unsigned_abs result < 2 ^ 16 }
{
    i64::from(to) - i64::from(from)
}

#[tactic(auto, using(crate::proofs::Bounds::products))]
fn product(u: i64, v: i64) -> i64
    requires { (unsigned_abs u < 2 ^ 16) × (unsigned_abs v < 2 ^ 36) }
    ensures value { result ≡ u *ℤ v }
    ensures bound { unsigned_abs result < 2 ^ 52 }
{
    u * v
}

fn difference(u: i64, v: i64) -> i64
    requires { (unsigned_abs u < 2 ^ 52) × (unsigned_abs v < 2 ^ 52) }
    ensures value { result ≡ u -ℤ v }
    ensures bound { unsigned_abs result < 2 ^ 53 }
{
    u - v
}

// Twice the signed area of a triangle.
#[tactic(auto, using(crate::proofs::Determinants::whole_sided))]
fn twice_area(a: Point, b: Point, c: Point) -> i64
    ensures value { result ≡ (pos b.x -ℤ pos a.x) *ℤ (pos c.y -ℤ pos a.y) -ℤ (pos b.y -ℤ pos a.y) *ℤ (pos c.x -ℤ pos a.x) }
    ensures bound { unsigned_abs result < 2 ^ 33 }
{
    small_difference(
        small_product(step(a.x, b.x), step(a.y, c.y)),
        small_product(step(a.y, b.y), step(a.x, c.x)),
    )
}

#[tactic(auto, using(crate::proofs::Bounds::small_products))]
fn small_product(u: i64, v: i64) -> i64
    requires { (unsigned_abs u < 2 ^ 16) × (unsigned_abs v < 2 ^ 16) }
    ensures value { result ≡ u *ℤ v }
    ensures bound { unsigned_abs result < 2 ^ 32 }
{
    u * v
}

fn small_difference(u: i64, v: i64) -> i64
    requires { (unsigned_abs u < 2 ^ 32) × (unsigned_abs v < 2 ^ 32) }
    ensures value { result ≡ u -ℤ v }
    ensures bound { unsigned_abs result < 2 ^ 33 }
{
    u - v
}

#[tactic(auto, using(crate::proofs::Bounds::scaled_products))]
fn scaled_area(z: u32, area: i64) -> i64
    requires { (z < 2 ^ 20) × (unsigned_abs area < 2 ^ 33) }
    ensures value { result ≡ pos z *ℤ area }
    ensures bound { unsigned_abs result < 2 ^ 53 }
{
    i64::from(z) * area
}

// -d
fn turned(d: i64) -> i64
    requires { unsigned_abs d < 2 ^ 53 }
    ensures value { result ≡ neg_ℤ d }
    ensures bound { unsigned_abs result < 2 ^ 53 }
{
    -d
}

// all - ab - ca
fn rest(all: i64, ab: i64, ca: i64) -> i64
    requires { (unsigned_abs all < 2 ^ 53) × ((unsigned_abs ab < 2 ^ 53) × (unsigned_abs ca < 2 ^ 53)) }
    ensures { result ≡ all -ℤ ab -ℤ ca }
{
    large_rest(large_difference(all, ab), ca)
}

fn large_difference(u: i64, v: i64) -> i64
    requires { (unsigned_abs u < 2 ^ 53) × (unsigned_abs v < 2 ^ 53) }
    ensures value { result ≡ u -ℤ v }
    ensures bound { unsigned_abs result < 2 ^ 54 }
{
    u - v
}

fn large_rest(u: i64, v: i64) -> i64
    requires { (unsigned_abs u < 2 ^ 54) × (unsigned_abs v < 2 ^ 53) }
    ensures { result ≡ u -ℤ v }
{
    u - v
}

// What three determinants tell of a triangle's sides.
fn test_by(ab: i64, bc: i64, ca: i64) -> Test
    ensures { result ≡ test_of (int_lt ab (pos 0)) (int_lt bc (pos 0)) (int_lt ca (pos 0)) }
{
    let first = ab < 0;
    let second = first | (bc < 0);
    Test {
        tests: 3 - u32::from(first) - u32::from(second),
        holds: !(second | (ca < 0)),
    }
}

// On which side of the line from `a` to `b` a whole point is.
#[tactic(auto, using(crate::proofs::Determinants::whole_sided))]
pub(crate) fn whole_side(at: Point, a: Point, b: Point) -> Side
    ensures { result ≡ side_of (area (grid_point a) (grid_point b) (grid_point at)) }
{
    sign_of(whole_determinant(at, a, b))
}

// The determinant of `a`, `b` and a whole point, from how far each is from it: so the sides of a triangle share their differences.
fn whole_determinant(at: Point, a: Point, b: Point) -> i64
    ensures { result ≡ (pos a.x -ℤ pos at.x) *ℤ (pos b.y -ℤ pos at.y) -ℤ (pos a.y -ℤ pos at.y) *ℤ (pos b.x -ℤ pos at.x) }
{
    let across = product(step(at.x, a.x), step(at.y, b.y));
    let up = product(step(at.y, a.y), step(at.x, b.x));
    difference(across, up)
}

fn sign_of(d: i64) -> Side
    ensures { result ≡ side_of d }
{
    match d.cmp(&0) {
        Ordering::Less => Side::Right,
        Ordering::Equal => Side::On,
        Ordering::Greater => Side::Left,
    }
}

// The sides of a triangle about a whole point, tested in order, and all three told without a branch.
#[tactic(auto, using(crate::proofs::Determinants::whole_triangle_sided))]
pub(crate) fn whole_triangle(at: Point, a: Point, b: Point, c: Point) -> Test
    ensures { result ≡ triangle_said (Some (spot_at (grid_point at))) a b c }
{
    test_by(
        whole_determinant(at, a, b),
        whole_determinant(at, b, c),
        whole_determinant(at, c, a),
    )
}
