use board::{Board, LEAST_LIVE};
use plane::{Edge, Point};
use refusal::{Cause, Layer, Refusal};
use rules::{Stroke, first_broken};
use sheet::{LEAST_EDGES, LEAST_LOOPS, LEAST_POINTS, Loop};
use std::test::Fail;

// What the rules tell of the sheet of a file, over a scratch table.
fn tried(file: &[u8], strokes: &mut [Stroke]) -> Result<Result<Option<Refusal>, Refusal>, Fail> {
    let mut points = [Point::default(); LEAST_POINTS];
    let mut edges = [Edge::default(); LEAST_EDGES];
    let mut loops = [Loop::default(); LEAST_LOOPS];
    let mut live = [0; LEAST_LIVE];
    let mut board = Board::new();
    board.load(file, &mut points, &mut edges, &mut loops, &mut live)?;
    let size = board.size();
    let points = points.get(..usize::from(size.inner) + 4).unwrap_or(&[]);
    let edges = edges.get(..usize::from(size.corners) + 4).unwrap_or(&[]);
    let loops = loops.get(..usize::from(size.loops)).unwrap_or(&[]);
    Ok(first_broken(size.inner, points, edges, loops, strokes))
}

// The number and the place of the first rule that the sheet of a file breaks.
fn broken(file: &[u8]) -> Result<Option<(u8, usize)>, Fail> {
    let said = tried(file, &mut [Stroke::default(); 40])??;
    Ok(said.map(|refusal| (refusal.cause.number(), refusal.place)))
}

// Two inner vertices on a sheet of 4 by 4, with four loops about the edge between them.
fn about(x: u8, y: u8, u: u8, v: u8) -> [u8; 32] {
    [
        1, 4, 4, 2, x, y, u, v, 4, 0, 4, 0, 1, 5, 4, 0, 3, 1, 2, 5, 0, 4, 2, 3, 4, 5, 0, 3, 3, 0,
        4, 0,
    ]
}

#[test]
fn sheets_keep_the_rules(rt: HostRuntime) -> Result<(), Fail> {
    let spring = [
        1, 12, 10, 4, 3, 3, 9, 3, 9, 7, 3, 7, 5, 14, 4, 4, 5, 6, 7, 0, 4, 0, 1, 5, 4, 0, 4, 1, 2,
        6, 5, 0, 4, 2, 3, 7, 6, 0, 4, 3, 0, 4, 7, 0,
    ];
    assert_eq!(rt; broken(&spring)?, None);
    assert_eq!(rt; broken(&about(1, 2, 3, 2))?, None);
    // one loop, and none inside
    assert_eq!(rt; broken(&[1, 2, 2, 0, 1, 0, 4, 0, 1, 2, 3, 0])?, None);
    // a vertex on the line between two others that are joined through it
    let straight = [1, 4, 4, 1, 2, 2, 2, 0, 4, 0, 1, 2, 4, 0, 4, 0, 4, 2, 3, 0];
    assert_eq!(rt; broken(&straight)?, None);
    Ok(())
}

#[test]
fn the_edges_of_a_sheet_want_room(rt: HostRuntime) -> Result<(), Fail> {
    // one loop, and none inside: four edges
    let square = [1, 2, 2, 0, 1, 0, 4, 0, 1, 2, 3, 0];
    assert_eq!(rt; tried(&square, &mut [Stroke::default(); 4])?, Ok(None));
    let refused = Refusal {
        cause: Cause::TableTooShort,
        layer: Layer::Check,
        place: 0,
    };
    assert_eq!(rt; tried(&square, &mut [Stroke::default(); 3])?, Err(refused));
    Ok(())
}

// Each sheet breaks one rule first, at a place that was worked out by hand.
#[test]
fn each_rule_is_broken_first(rt: HostRuntime) -> Result<(), Fail> {
    // a loop is missing
    let sum = [
        1, 4, 4, 2, 1, 2, 3, 2, 3, 0, 4, 0, 1, 5, 4, 0, 3, 1, 2, 5, 0, 4, 2, 3, 4, 5, 0,
    ];
    assert_eq!(rt; broken(&sum)?, Some((13, 0)));
    assert_eq!(rt; broken(&about(1, 2, 1, 2))?, Some((14, 5)));
    // loop 2 names vertex 2 twice
    let twice = [
        1, 4, 4, 2, 1, 2, 3, 2, 4, 0, 4, 0, 1, 5, 4, 0, 3, 1, 2, 5, 0, 4, 2, 3, 2, 5, 0, 3, 3, 0,
        4, 0,
    ];
    assert_eq!(rt; broken(&twice)?, Some((15, 2)));
    // the spring sheet with its first loop the other way round
    let turned = [
        1, 12, 10, 4, 3, 3, 9, 3, 9, 7, 3, 7, 5, 14, 4, 7, 6, 5, 4, 0, 4, 0, 1, 5, 4, 0, 4, 1, 2,
        6, 5, 0, 4, 2, 3, 7, 6, 0, 4, 3, 0, 4, 7, 0,
    ];
    assert_eq!(rt; broken(&turned)?, Some((16, 6)));
    // nothing goes from vertex 5 to vertex 1
    let alone = [
        1, 4, 4, 2, 1, 2, 3, 2, 4, 0, 4, 0, 1, 5, 4, 0, 3, 1, 2, 4, 0, 4, 2, 3, 4, 5, 0, 3, 3, 0,
        4, 0,
    ];
    assert_eq!(rt; broken(&alone)?, Some((17, 1)));
    // no loop comes to vertex 5
    let unused = [
        1, 4, 4, 2, 1, 2, 3, 2, 4, 0, 3, 3, 0, 4, 0, 3, 1, 2, 4, 0, 4, 0, 1, 4, 2, 0, 4, 0, 2, 3,
        4, 0,
    ];
    assert_eq!(rt; broken(&unused)?, Some((18, 5)));
    // the edge between 4 and 0 crosses the one between 1 and 5
    assert_eq!(rt; broken(&about(3, 2, 1, 2))?, Some((19, 3)));
    // loop 1 goes round clockwise
    let clockwise = [
        1, 4, 4, 2, 1, 3, 3, 1, 3, 0, 4, 0, 1, 2, 4, 0, 4, 0, 4, 2, 5, 0, 4, 0, 5, 2, 3, 0,
    ];
    assert_eq!(rt; broken(&clockwise)?, Some((20, 1)));
    Ok(())
}
