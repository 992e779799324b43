use crate::round;
use nodes::{BlockStore, Node, ReadStore, SliceStore, WriteStore};
use plane::Point;
use refusal::{Cause, Layer, Refusal};
use sheet::Size;
use std::process::Abort;
use std::test::Fail;

const SIZE: Size = Size {
    width: 12,
    height: 10,
    inner: 4,
    loops: 5,
    corners: 20,
};

// The corners of a sheet, and a square inside it: vertices 4 to 7.
fn points() -> [Point; 8] {
    [
        Point { x: 0, y: 0 },
        Point { x: 12, y: 0 },
        Point { x: 12, y: 10 },
        Point { x: 0, y: 10 },
        Point { x: 3, y: 3 },
        Point { x: 9, y: 3 },
        Point { x: 9, y: 7 },
        Point { x: 3, y: 7 },
    ]
}

// The corners of its bottom nodes: two of the square, and two between each side of it and one of the sheet.
const BOTTOM: [[u16; 3]; 10] = [
    [7, 4, 5],
    [5, 6, 7],
    [4, 0, 1],
    [1, 5, 4],
    [5, 1, 2],
    [2, 6, 5],
    [6, 2, 3],
    [3, 7, 6],
    [7, 3, 0],
    [0, 4, 7],
];

// The numbers of the nodes that close the holes of 4 and 6, of 5, and of 7: the corners, no loop and no side, and four children.
const CLOSING: [[u16; 14]; 8] = [
    [1, 5, 7, 0, 0, 4, 0, 9, 2, 3, 0, 0, 0, 0],
    [7, 0, 1, 0, 0, 4, 0, 9, 2, 3, 0, 0, 0, 0],
    [3, 7, 5, 0, 0, 4, 1, 5, 6, 7, 0, 0, 0, 0],
    [5, 2, 3, 0, 0, 4, 1, 5, 6, 7, 0, 0, 0, 0],
    [7, 1, 2, 0, 0, 4, 4, 13, 12, 10, 0, 0, 0, 0],
    [2, 3, 7, 0, 0, 4, 4, 13, 12, 10, 0, 0, 0, 0],
    [2, 3, 0, 0, 0, 4, 8, 11, 14, 15, 0, 0, 0, 0],
    [0, 1, 2, 0, 0, 4, 8, 11, 14, 15, 0, 0, 0, 0],
];

fn node(corners: [u16; 3]) -> Node {
    Node {
        a: corners[0],
        b: corners[1],
        c: corners[2],
        ring: 3,
        sides: 5,
        ..Node::default()
    }
}

fn fill<S: WriteStore>(store: &mut S) -> Result<(), Fail> {
    for corners in BOTTOM {
        store.add(node(corners))?;
    }
    Ok(())
}

// The live table of the bottom, with numbers behind them that are not in use.
fn bottom_live() -> [u16; 12] {
    [0, 1, 2, 3, 4, 5, 6, 7, 8, 9, 77, 77]
}

// The nodes behind the bottom are those that close the holes.
fn holds_closing<S: ReadStore>(rt: &impl Abort, store: &S) -> Result<(), Fail> {
    for (i, numbers) in CLOSING.iter().enumerate() {
        for (j, number) in numbers.iter().enumerate() {
            assert_eq!(rt; store.number(10 + i, j)?, *number);
        }
    }
    Ok(())
}

// Three rounds take the four vertices out: 4 and 6, which are no neighbours, then 5, then 7.
fn goes_round<S: WriteStore>(rt: &impl Abort, store: &mut S) -> Result<(), Fail> {
    fill(store)?;
    let points = points();
    let mut live = bottom_live();
    let count = round(SIZE, &points, &mut live, 10, 0, store)?;
    assert_eq!(rt; &live[..count], [4, 8, 10, 11, 12, 13].as_slice());
    let count = round(SIZE, &points, &mut live, count, 1, store)?;
    assert_eq!(rt; &live[..count], [8, 11, 14, 15].as_slice());
    let count = round(SIZE, &points, &mut live, count, 2, store)?;
    assert_eq!(rt; &live[..count], [16, 17].as_slice());
    assert_eq!(rt; store.count(), 18);
    holds_closing(rt, store)?;
    let none_left = Refusal::new(Cause::NoneLeft, Layer::Build, 0);
    assert_eq!(rt;
        round(SIZE, &points, &mut live, count, 3, store),
        Err(none_left)
    );
    assert_eq!(rt; store.count(), 18);
    Ok(())
}

#[test]
fn three_rounds_in_a_slice_store(rt: HostRuntime) -> Result<(), Fail> {
    goes_round(&rt, &mut SliceStore::new(&mut [Node::default(); 18]))
}

#[test]
fn three_rounds_in_a_block_store(rt: HostRuntime) -> Result<(), Fail> {
    goes_round(&rt, &mut BlockStore::new(&mut [0; 512]))
}

// A round is refused as told, and leaves all as it was.
fn is_refused<S: WriteStore>(
    rt: &impl Abort,
    store: &mut S,
    points: &[Point],
    live: &[u16; 12],
    cause: Cause,
    place: usize,
) {
    let mut table = *live;
    let count = store.count();
    let refusal = Refusal::new(cause, Layer::Build, place);
    assert_eq!(rt; round(SIZE, points, &mut table, 10, 6, store), Err(refusal));
    assert_eq!(rt; table, *live);
    assert_eq!(rt; store.count(), count);
}

#[test]
fn what_does_not_fit_is_refused(rt: HostRuntime) -> Result<(), Fail> {
    let mut slots = [Node::default(); 13];
    let mut store = SliceStore::new(&mut slots);
    fill(&mut store)?;
    let live = bottom_live();
    is_refused(&rt, &mut store, &points(), &live, Cause::StoreFull, 14);
    let mut moved = points();
    moved[5].x = 12;
    is_refused(&rt, &mut store, &moved, &live, Cause::OutOfRange, 5);
    let mut twice = live;
    twice[3] = 2;
    is_refused(&rt, &mut store, &points(), &twice, Cause::OutOfRange, 3);
    let mut past = live;
    past[9] = 10;
    is_refused(&rt, &mut store, &points(), &past, Cause::OutOfRange, 9);
    Ok(())
}

#[test]
fn a_broken_fan_is_told_at_its_vertex(rt: HostRuntime) -> Result<(), Fail> {
    let mut slots = [Node::default(); 18];
    let mut store = SliceStore::new(&mut slots);
    fill(&mut store)?;
    let mut live = bottom_live();
    let refusal = Refusal::new(Cause::OutOfRange, Layer::Build, 4);
    assert_eq!(&rt;
        round(SIZE, &points(), &mut live, 9, 0, &mut store),
        Err(refusal)
    );
    Ok(())
}

const ONE: Size = Size {
    width: 12,
    height: 10,
    inner: 1,
    loops: 3,
    corners: 9,
};

#[test]
fn three_nodes_make_a_hole_of_one(rt: HostRuntime) -> Result<(), Fail> {
    let mut slots = [Node::default(); 4];
    let mut store = SliceStore::new(&mut slots);
    for corners in [[4, 0, 1], [1, 2, 4], [0, 4, 2]] {
        store.add(node(corners))?;
    }
    let mut live = [0, 1, 2];
    assert_eq!(&rt; round(ONE, &points(), &mut live, 3, 0, &mut store)?, 1);
    assert_eq!(&rt; live, [3, 1, 2]);
    Ok(())
}

// The fan is back before it has been at the last node: the vertex is left, and not taken out.
#[test]
fn too_few_taken_out_is_told_at_the_round(rt: HostRuntime) -> Result<(), Fail> {
    let mut slots = [Node::default(); 18];
    let mut store = SliceStore::new(&mut slots);
    for corners in [[4, 0, 1], [4, 1, 2], [4, 2, 0], [4, 0, 3]] {
        store.add(node(corners))?;
    }
    let mut live = [0, 1, 2, 3];
    let stuck = Refusal::new(Cause::Stuck, Layer::Build, 7);
    assert_eq!(&rt;
        round(ONE, &points(), &mut live, 4, 6, &mut store),
        Err(stuck)
    );
    assert_eq!(&rt; live, [0, 1, 2, 3]);
    Ok(())
}

// A sheet with one inner vertex never has more than ten nodes.
#[test]
fn more_nodes_than_a_sheet_has_are_refused(rt: HostRuntime) -> Result<(), Fail> {
    let mut slots = [Node::default(); 11];
    let mut store = SliceStore::new(&mut slots);
    for _node in 0..11 {
        store.add(node([4, 0, 1]))?;
    }
    let mut live = [0, 1, 2];
    let refusal = Refusal::new(Cause::OutOfRange, Layer::Build, 10);
    assert_eq!(&rt;
        round(ONE, &points(), &mut live, 3, 0, &mut store),
        Err(refusal)
    );
    Ok(())
}
