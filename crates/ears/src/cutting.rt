//! Cutting a polygon: ear after ear, and then the last three corners.
ghost use Rattle.std.specs.Prelude.{◌≡◌, ◌-◌, ◌<◌, ◌≤◌, IfOk, IfSome, Some, drop, length, map, remove, take};
ghost use Rattle.plane.specs.Points.{place_of};
ghost use Rattle.ears.specs.Cutting.{EarCutOff, LastCut, cut_said, front_of, triangle_of};
ghost use Rattle.ears.specs.Ears.{cut_of};

use crate::ears::{corners_at, first_ear};
use crate::shape::Shape;
use plane::{Corners, Point};
use refusal::Cause;

/// Cuts a polygon into triangles, which go into the front of `triangles` in the order in which they are made, and answers how many
/// there are. Refused where there is no room for them, and then all stays as it was, or where the polygon is stuck. `ring` has its corners,
/// and is used up; what stands behind the triangles stays.
pub fn cut(points: &[Point], ring: &mut [u16], triangles: &mut [Corners]) -> Result<usize, Cause>
    ensures said { result ≡ cut_said (length triangles.old) ring.old (cut_of (place_of points.now) ring.old) }
    ensures cut { IfOk result (λ n. cut_of (place_of points.now) ring.old ≡ Some (map triangle_of (take n triangles.new))) }
    ensures rest { drop (length ring.old - 2) triangles.new ≡ drop (length ring.old - 2) triangles.old }
    ensures short { length triangles.old < length ring.old - 2 → (triangles.new ≡ triangles.old) × (ring.new ≡ ring.old) }
{
    if triangles.len() < ring.len().saturating_sub(2) {
        return Err(Cause::TableTooShort);
    }
    cut_all(points, ring, triangles).ok_or(Cause::Stuck)
}

// Puts the triangles into the front of `triangles`, which has room for them, and answers how many there are; none where the polygon is
// stuck.
#[tactic(auto, using(crate::proofs::Steps::cutting))]
fn cut_all(points: &[Point], ring: &mut [u16], triangles: &mut [Corners]) -> Option<usize>
    requires { length ring.old - 2 ≤ length triangles.old }
    ensures cut { cut_of (place_of points.now) ring.old ≡ front_of triangles.new result }
    ensures within { IfSome result (λ n. n ≤ length triangles.new) }
    ensures rest { drop (length ring.old - 2) triangles.new ≡ drop (length ring.old - 2) triangles.old }
{
    let count = ring.len();
    if count < 3 {
        return None;
    }
    for made in 0..count - 3 {
        triangles[made] = cut_ear(points, &mut ring[..count - made])?;
    }
    triangles[count - 3] = cut_last(points, &ring[..3])?;
    Some(count - 2)
}

// Cuts the first ear off: its corner goes, and its triangle is the answer.
#[tactic(auto, using(crate::proofs::Steps::off))]
fn cut_ear(points: &[Point], ring: &mut [u16]) -> Option<Corners>
    requires { 3 ≤ length ring.old }
    ensures { EarCutOff (place_of points.now) ring.old ring.new result }
{
    let i = first_ear(points, ring)?;
    let corners = corners_at(ring, i);
    take_out(ring, i);
    Some(corners)
}

// Takes the corner at a position out: those behind it come forward by one.
#[tactic(auto, using(crate::proofs::Steps::shifted))]
fn take_out(ring: &mut [u16], i: usize)
    requires { i < length ring.old }
    ensures { take (length ring.old - 1) ring.new ≡ remove ring.old i }
{
    ring.copy_within(i + 1.., i);
}

// The last three corners as a triangle, where it turns left.
fn cut_last(points: &[Point], ring: &[u16]) -> Option<Corners>
    requires { length ring.now ≡ 3 }
    ensures { LastCut (place_of points.now) ring.now result }
{
    let shape = Shape::of(points, corners_at(ring, 1));
    shape.is_left().then_some(shape.corners)
}
