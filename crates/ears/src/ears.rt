//! Which corners of a polygon are ears.
ghost use Rattle.std.specs.Prelude.{◌≡◌, ◌<◌, ◌≤◌, IfSome, length};
ghost use Rattle.std.specs.List.{list_any, range_with_len};
ghost use Rattle.plane.specs.Points.{place_of};
ghost use Rattle.ears.specs.Cutting.{triangle_of};
ghost use Rattle.ears.specs.Ears.{after as after_of, before as before_of, first_ear as first_ear_of, is_ear as is_ear_of, triangle_at};
ghost use Rattle.ears.specs.Shapes.{blocks_in_box};

use crate::shape::Shape;
use plane::{Corners, Point};

// The lowest position that is an ear.
#[tactic(auto, using(crate::proofs::Searches::found))]
pub(crate) fn first_ear(points: &[Point], ring: &[u16]) -> Option<usize>
    requires { 3 ≤ length ring.now }
    ensures value { result ≡ first_ear_of (place_of points.now) ring.now }
    ensures within { IfSome result (λ i. i < length ring.now) }
{
    for i in 0..ring.len() {
        if is_ear(points, ring, i) {
            return Some(i);
        }
    }
    None
}

// Whether the triangle at a position turns left, and no other corner of the list lies in it or on its border.
#[tactic(auto, using(crate::proofs::Boxes::told_by_box))]
fn is_ear(points: &[Point], ring: &[u16], i: usize) -> bool
    requires several { 3 ≤ length ring.now }
    requires inside { i < length ring.now }
    ensures { result ≡ is_ear_of (place_of points.now) ring.now i }
{
    let shape = Shape::of(points, corners_at(ring, i));
    shape.is_left() && !is_blocked(points, ring, i, &shape)
}

// Whether a corner at another position than `i` and the two beside it lies in a triangle: of those from two behind `i` round to two before it.
#[tactic(auto, using(crate::proofs::Others::told_by_parts))]
fn is_blocked(points: &[Point], ring: &[u16], i: usize, shape: &Shape) -> bool
    requires several { 3 ≤ length ring.now }
    requires inside { i < length ring.now }
    ensures { result ≡ list_any (blocks_in_box points.now shape.now ring.now i) (range_with_len 0 (length ring.now)) }
{
    let last = ring.len() - 1;
    if i == 0 {
        return shape.holds_any(points, &ring[2..last]);
    }
    if i == last {
        return shape.holds_any(points, &ring[1..last - 1]);
    }
    shape.holds_any(points, &ring[..i - 1]) || shape.holds_any(points, &ring[i + 2..])
}

// The corner at a position with its two neighbours.
pub(crate) fn corners_at(ring: &[u16], i: usize) -> Corners
    requires { i < length ring.now }
    ensures { triangle_of result ≡ triangle_at ring.now i }
{
    Corners {
        a: ring[before(ring.len(), i)],
        b: ring[i],
        c: ring[after(ring.len(), i)],
    }
}

// The position before `i`, of `n` in a ring.
fn before(n: usize, i: usize) -> usize
    requires { i < n }
    ensures value { result ≡ before_of n i }
    ensures within { result < n }
{
    if i == 0 { n - 1 } else { i - 1 }
}

// The position after `i`, of `n` in a ring.
fn after(n: usize, i: usize) -> usize
    requires { i < n }
    ensures value { result ≡ after_of n i }
    ensures within { result < n }
{
    if i + 1 == n { 0 } else { i + 1 }
}
