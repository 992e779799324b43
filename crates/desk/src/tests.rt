use crate::{Desk, LEAST};
use nodes::{Node, SliceStore};
use plane::{Edge, Point, WholeTip};
use sheet::Answer;
use std::test::Fail;

// a sheet of 2 by 2 that is one face
const SQUARE: [u8; 12] = [1, 2, 2, 0, 1, 0, 4, 0, 1, 2, 3, 0];

#[test]
fn a_desk_takes_a_sheet(rt: HostRuntime) -> Result<(), Fail> {
    let mut desk = Desk::new(rt.alloc(), LEAST)?;
    assert_eq!(rt; desk.live.len(), 2050);
    desk.load(&SQUARE)?;
    assert_eq!(rt; desk.size().corners, 4);
    assert_eq!(rt; desk.points.get(2).copied(), Some(Point { x: 2, y: 2 }));
    assert_eq!(rt; desk.edges.get(3).copied(), Some(Edge { from: 3, to: 0 }));
    Ok(())
}

// Its two triangles meet in the line from (0, 2) to (2, 0), which is no edge of it.
#[test]
fn a_desk_takes_all_turns(rt: HostRuntime) -> Result<(), Fail> {
    let mut desk = Desk::new(rt.alloc(), LEAST)?;
    let mut slots = [Node::default(); 2];
    let mut store = SliceStore::new(&mut slots);
    desk.load(&SQUARE)?;
    desk.check()?;
    desk.cut(&mut store)?;
    desk.seal(&store)?;
    let found = desk.place(&WholeTip { x: 1, y: 1 }, &store)?;
    assert_eq!(rt; (found.answer, found.tests), (Answer::Face(0), 3));
    Ok(())
}

#[test]
fn a_desk_refuses_what_its_board_refuses(rt: HostRuntime) -> Result<(), Fail> {
    let mut desk = Desk::new(rt.alloc(), LEAST)?;
    let Err(refusal) = desk.load(&[2]) else {
        return Err(Fail::new("taken"));
    };
    assert_eq!(rt; (refusal.cause.number(), refusal.place), (3, 0));
    assert_eq!(rt; desk.size().width, 0);
    Ok(())
}
