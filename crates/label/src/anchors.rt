//! Where a face's label would stand best: at a point of the face.
use crate::frame::{Frame, Pixel};
use crate::layout::Area;
use crate::marks::Spot;
use crate::sealed::Sealed;
use crate::tip::Tip;
use nodes::ReadStore;
use plane::{Point, RationalTip, place};
use refusal::Refusal;
use rules::loop_edges;
use sheet::Answer;
use walk::Found;

const UNASKED: Result<Found, Refusal> = Ok(Found {
    answer: Answer::Vertex(0),
    tests: 0,
});

/// Whether all corners of an area are in the face of a loop, as the sheet answers.
pub(crate) fn are_in_face<S: ReadStore>(
    sealed: &mut Sealed<S>,
    frame: Frame,
    ring: u16,
    corners: [Pixel; 4],
) -> bool {
    for corner in corners {
        match frame.tip(corner) {
            Some(tip) if is_in_face(sealed, ring, tip) => {}
            _ => return false,
        }
    }
    true
}

fn is_in_face<S: ReadStore>(sealed: &mut Sealed<S>, ring: u16, tip: Tip) -> bool {
    let mut answers = [UNASKED];
    if sealed.list(&[tip], &mut answers).is_err() {
        return false;
    }
    match answers.first().copied() {
        Some(Ok(found)) => found.answer == Answer::Face(ring),
        _ => false,
    }
}

/// The mean of a loop's corners where its face holds that point, and else the middle of the largest triangle of its cut.
pub(crate) fn anchor<S: ReadStore>(sealed: &mut Sealed<S>, ring: u16) -> Spot {
    let mean = mean(sealed, ring);
    if is_in_face(sealed, ring, Tip::Rational(mean)) {
        return Spot::from(Tip::Rational(mean));
    }
    let mut best = (0, [Point::default(); 3]);
    for k in 0..sealed.store.count() {
        if let Some(corners) = triangle(sealed, ring, k) {
            let area = area(corners);
            if area > best.0 {
                best = (area, corners);
            }
        }
    }
    let [a, b, c] = best.1;
    Spot {
        x: sum(a.x, b.x, c.x),
        y: sum(a.y, b.y, c.y),
        z: 3,
    }
}

fn sum(a: u16, b: u16, c: u16) -> u64 {
    u64::from(a)
        .saturating_add(u64::from(b))
        .saturating_add(u64::from(c))
}

/// The least area around a pixel in a face that holds the whole face.
pub(crate) fn bounds<S: ReadStore>(sealed: &Sealed<S>, frame: Frame, ring: u16, at: Pixel) -> Area {
    let mut bounds = Area {
        left: at.left,
        top: at.top,
        right: at.left,
        bottom: at.top,
    };
    if let Some(entry) = sealed.desk.loops.get(usize::from(ring)) {
        for edge in loop_edges(sealed.desk.edges.as_slice(), entry) {
            let Point { x, y } = place(sealed.desk.points.as_slice(), edge.from);
            bounds = bounds.with(frame.pixel(Spot {
                x: u64::from(x),
                y: u64::from(y),
                z: 1,
            }));
        }
    }
    bounds
}

fn mean<S: ReadStore>(sealed: &Sealed<S>, ring: u16) -> RationalTip {
    let mut sum = RationalTip { x: 0, y: 0, z: 0 };
    if let Some(entry) = sealed.desk.loops.get(usize::from(ring)) {
        for edge in loop_edges(sealed.desk.edges.as_slice(), entry) {
            let Point { x, y } = place(sealed.desk.points.as_slice(), edge.from);
            sum.x = sum.x.saturating_add(u64::from(x));
            sum.y = sum.y.saturating_add(u64::from(y));
            sum.z = sum.z.saturating_add(1);
        }
    }
    sum
}

// The corners of a node, where it is a triangle of this loop's cut.
fn triangle<S: ReadStore>(sealed: &Sealed<S>, ring: u16, k: usize) -> Option<[Point; 3]> {
    let points = sealed.desk.points.as_slice();
    let number = |i: usize| sealed.store.number(k, i).ok();
    if number(3)? != ring || number(5)? != 0 {
        return None;
    }
    Some([
        place(points, number(0)?),
        place(points, number(1)?),
        place(points, number(2)?),
    ])
}

// Twice the area of a triangle that turns left.
fn area(corners: [Point; 3]) -> i64 {
    let [a, b, c] = corners;
    let (x, y) = (i64::from(a.x), i64::from(a.y));
    let one = (i64::from(b.x) - x).saturating_mul(i64::from(c.y) - y);
    let other = (i64::from(c.x) - x).saturating_mul(i64::from(b.y) - y);
    one.saturating_sub(other)
}
