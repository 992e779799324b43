use board::Board;
use nodes::{Node, ReadStore, SliceStore, WriteStore};
use plane::{Edge, Point};
use reader::Reader;
use refusal::{Cause, Layer, Refusal};
use sheet::{Answer, Loop, wording};
use std::process::Abort;
use std::test::Fail;

// a spring in the middle of a sheet of 12 by 10
const SPRING: [u8; 52] = [
    1, 12, 10, 4, 3, 3, 9, 3, 9, 7, 3, 7, 5, 14, 4, 4, 5, 6, 7, 0, 4, 0, 1, 5, 4, 0, 4, 1, 2, 6, 5,
    0, 4, 2, 3, 7, 6, 0, 4, 3, 0, 4, 7, 1, 14, 6, 115, 112, 114, 105, 110, 103,
];

const POINTS: [(u16, u16); 8] = [
    (0, 0),
    (12, 0),
    (12, 10),
    (0, 10),
    (3, 3),
    (9, 3),
    (9, 7),
    (3, 7),
];

const EDGES: [(u16, u16); 24] = [
    (4, 5),
    (5, 6),
    (6, 7),
    (7, 4),
    (0, 1),
    (1, 5),
    (5, 4),
    (4, 0),
    (1, 2),
    (2, 6),
    (6, 5),
    (5, 1),
    (2, 3),
    (3, 7),
    (7, 6),
    (6, 2),
    (3, 0),
    (0, 4),
    (4, 7),
    (7, 3),
    (1, 0),
    (2, 1),
    (3, 2),
    (0, 3),
];

const LOOPS: [(u16, u16, u16); 5] = [(14, 0, 4), (0, 4, 4), (0, 8, 4), (0, 12, 4), (0, 16, 4)];

fn expect(rt: &impl Abort, refusal: Refusal, number: u8, place: usize) {
    assert_eq!(rt; refusal.cause.number(), number);
    assert_eq!(rt; refusal.layer.number(), 1);
    assert_eq!(rt; refusal.place, place);
}

#[test]
fn last_group_zero_is_refused(rt: HostRuntime) -> Result<(), Fail> {
    let mut reader = Reader::new(&[128, 0]);
    let Err(refusal) = reader.number() else {
        return Err(Fail::new("taken"));
    };
    expect(&rt, refusal, 2, 0);
    Ok(())
}

#[test]
fn a_refusal_says_what_to_mend(rt: HostRuntime) -> Result<(), Fail> {
    let refusal = Refusal::new(Cause::BytesLeft, Layer::File, 52);
    let text = format!(in rt.alloc(); "{refusal}")?;
    assert!(rt;
        text.as_str()
            == "refusal 11, layer 1 (file), place 52: the file goes on after its last label; cut the rest off"
    );
    Ok(())
}

#[test]
fn tables_hold_the_spring_sheet(rt: HostRuntime) -> Result<(), Fail> {
    let mut points = [Point::default(); 1028];
    let mut edges = [Edge::default(); 6154];
    let mut loops = [Loop::default(); 2050];
    let mut live = [0; 2050];
    let mut board = Board::new();
    let Ok(()) = board.load(&SPRING, &mut points, &mut edges, &mut loops, &mut live) else {
        return Err(Fail::new("refused"));
    };
    assert_eq!(rt; board.size().inner, 4);
    assert_eq!(rt; board.size().corners, 20);
    for (got, want) in points.iter().zip(POINTS.iter()) {
        assert_eq!(rt; (got.x, got.y), *want);
    }
    for (got, want) in edges.iter().zip(EDGES.iter()) {
        assert_eq!(rt; (got.from, got.to), *want);
    }
    for (got, want) in loops.iter().zip(LOOPS.iter()) {
        assert_eq!(rt; (got.numeral, got.start, got.corners), *want);
    }
    Ok(())
}

#[test]
fn short_tables_come_before_a_bad_file(rt: HostRuntime) -> Result<(), Fail> {
    let mut points = [Point::default(); 1027];
    let mut edges = [Edge::default(); 6154];
    let mut loops = [Loop::default(); 2050];
    let mut live = [0; 2050];
    let mut board = Board::new();
    let Err(refusal) = board.load(&[9], &mut points, &mut edges, &mut loops, &mut live) else {
        return Err(Fail::new("taken"));
    };
    expect(&rt, refusal, 12, 0);
    Ok(())
}

#[test]
fn wipe_empties_the_store(rt: HostRuntime) {
    let mut slots = [Node::default(); 2];
    let mut store = SliceStore::new(&mut slots);
    let _ = store.add(Node::default());
    assert_eq!(rt; store.count(), 1);
    let mut board = Board::new();
    board.wipe(&mut store);
    assert_eq!(rt; store.count(), 0);
    assert_eq!(rt; board.size().width, 0);
}

#[test]
fn wording_is_a_part_of_the_file(rt: HostRuntime) -> Result<(), Fail> {
    let Ok(Some(part)) = wording(&SPRING, Answer::Face(0)) else {
        return Err(Fail::new("no wording"));
    };
    assert_eq!(rt; part.place, 46);
    assert!(rt; part.bytes == b"spring".as_slice());
    Ok(())
}
