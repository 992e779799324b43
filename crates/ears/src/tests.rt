use crate::cut;
use plane::{Corners, Point};
use refusal::Cause;
use std::process::Abort;
use std::test::Fail;

fn at(x: u16, y: u16) -> Point {
    Point { x, y }
}

fn of(a: u16, b: u16, c: u16) -> Corners {
    Corners { a, b, c }
}

// Cuts a polygon of five corners or fewer, and sees that these triangles come out.
fn cuts(rt: &impl Abort, points: &[Point], ring: &mut [u16], wanted: &[Corners]) {
    let mut triangles = [Corners::default(); 4];
    assert_eq!(rt; cut(points, ring, &mut triangles), Ok(wanted.len()));
    assert!(rt; wanted.len() <= 4);
    for (i, corners) in wanted.iter().enumerate() {
        assert!(rt; i < 4);
        assert_eq!(rt; triangles[i], *corners);
    }
}

#[test]
fn cuts_convex_polygons(rt: HostRuntime) -> Result<(), Fail> {
    let square = [at(0, 0), at(2, 0), at(2, 2), at(0, 2)];
    cuts(&rt, &square, &mut [0, 1, 2, 3], &[of(3, 0, 1), of(1, 2, 3)]);
    cuts(&rt, &square, &mut [1, 2, 3, 0], &[of(0, 1, 2), of(2, 3, 0)]);
    cuts(&rt, &square, &mut [0, 1, 2], &[of(0, 1, 2)]);
    Ok(())
}

#[test]
fn leaves_what_is_no_ear(rt: HostRuntime) -> Result<(), Fail> {
    // Vertex 1 is in line with 0 and 2.
    let straight = [at(0, 0), at(1, 0), at(2, 0), at(2, 2), at(0, 2)];
    let wanted = [of(1, 2, 3), of(0, 1, 3), of(3, 4, 0)];
    cuts(&rt, &straight, &mut [1, 2, 3, 4, 0], &wanted);
    // Vertex 2 lies on the line from 1 to 4.
    let notched = [at(0, 0), at(4, 0), at(2, 2), at(4, 4), at(0, 4)];
    let wanted = [of(0, 1, 2), of(4, 0, 2), of(2, 3, 4)];
    cuts(&rt, &notched, &mut [0, 1, 2, 3, 4], &wanted);
    // Vertex 3 lies below the line from 4 to 1.
    let dented = [at(0, 0), at(6, 0), at(6, 6), at(3, 2), at(0, 6)];
    let wanted = [of(1, 2, 3), of(0, 1, 3), of(0, 3, 4)];
    cuts(&rt, &dented, &mut [0, 1, 2, 3, 4], &wanted);
    Ok(())
}

#[test]
fn refuses(rt: HostRuntime) -> Result<(), Fail> {
    let square = [at(0, 0), at(2, 0), at(2, 2), at(0, 2)];
    let mut triangles = [Corners::default(); 2];
    let stuck = Err(Cause::Stuck);
    assert_eq!(rt; cut(&square, &mut [3, 2, 1, 0], &mut triangles), stuck);
    assert_eq!(rt; cut(&square, &mut [0, 1], &mut triangles), stuck);
    // Vertex 1 is named twice: beside the triangle of 0, 1 and 2 it stands once more.
    let slit = [at(3, 2), at(0, 0), at(6, 0), at(3, 6), at(7, 5)];
    let mut scratch = [Corners::default(); 4];
    assert_eq!(rt; cut(&slit, &mut [1, 2, 4, 3, 1, 0], &mut scratch), stuck);
    assert_eq!(rt; scratch[0], of(2, 4, 3));
    let short = Err(Cause::TableTooShort);
    assert_eq!(rt; cut(&square, &mut [0, 1, 2, 3], &mut triangles[..1]), short);
    Ok(())
}
