use crate::{AnywhereTip, DoubledTip, NearTip, SizedTip};
use nodes::{Node, SliceStore};
use placing::place_tip;
use plane::{Kernel, Point, RationalTip, Side, WholeTip};
use refusal::{Cause, Layer, Refusal};
use sheet::{Answer, Size};
use std::process::Abort;
use std::test::Fail;

const SHEET: Size = Size {
    width: 2,
    height: 2,
    inner: 0,
    loops: 1,
    corners: 4,
};

// The two triangles of a sheet with one loop: each has two of its edges.
fn halves() -> [Node; 2] {
    let [half, other] = [[3, 0, 1], [1, 2, 3]].map(|[a, b, c]| Node {
        a,
        b,
        c,
        sides: 3,
        ..Node::default()
    });
    [half, other]
}

// What the whole points of the sheet tell, whichever kernel makes tips of them. Its corners are known, so that no point is lent.
fn answers<K: Kernel + Drop>(rt: &impl Abort) -> Result<(), Fail> {
    let mut slots = halves();
    let store = SliceStore::over(&mut slots, 2);
    for (x, y, answer, tests) in [
        (0, 0, Answer::Vertex(0), 3),
        (1, 0, Answer::OpenEdge(0, 1), 3),
        (2, 1, Answer::OpenEdge(1, 2), 6),
        (1, 1, Answer::Face(0), 3),
        (2, 2, Answer::Vertex(2), 6),
    ] {
        let tip = K::make(Point { x, y }).ok_or("no tip")?;
        let found = place_tip(SHEET, &tip, 0, &[], &[0, 1], &store)?;
        assert_eq!(rt; (found.answer, found.tests), (answer, tests));
    }
    let tip = K::make(Point { x: 3, y: 0 }).ok_or("no tip")?;
    let off = Refusal::new(Cause::OffSheet, Layer::Place, 7);
    assert_eq!(rt; place_tip(SHEET, &tip, 7, &[], &[0, 1], &store), Err(off));
    let size = Size { width: 1, ..SHEET };
    let wrong = Refusal::new(Cause::OutOfRange, Layer::Place, 0);
    assert_eq!(rt; place_tip(size, &tip, 7, &[], &[0, 1], &store), Err(wrong));
    Ok(())
}

#[test]
fn those_that_are_supplied(rt: HostRuntime) -> Result<(), Fail> {
    answers::<WholeTip>(&rt)?;
    answers::<RationalTip>(&rt)
}

#[test]
fn on_every_line_past_8191(rt: HostRuntime) -> Result<(), Fail> {
    let tip = NearTip::make(Point { x: 6, y: 5 }).ok_or("no tip")?;
    let far = Point { x: 8192, y: 0 };
    assert_eq!(rt; tip.side(Point { x: 0, y: 0 }, far), Side::On);
    answers::<NearTip>(&rt)
}

#[test]
fn on_no_sheet_that_there_is_not(rt: HostRuntime) -> Result<(), Fail> {
    let tip = SizedTip::make(Point { x: 6, y: 5 }).ok_or("no tip")?;
    assert!(rt; tip.on_sheet(6, 5) && !tip.on_sheet(8192, 5));
    answers::<SizedTip>(&rt)
}

#[test]
fn made_of_any_point(rt: HostRuntime) -> Result<(), Fail> {
    let far = Point { x: 65_535, y: 8192 };
    assert!(rt; AnywhereTip::make(far).is_some());
    answers::<AnywhereTip>(&rt)
}

#[test]
fn made_with_a_scale_of_2(rt: HostRuntime) -> Result<(), Fail> {
    let made = DoubledTip::make(Point { x: 6, y: 5 }).ok_or("no tip")?;
    assert_eq!(rt; made.tip, RationalTip { x: 12, y: 10, z: 2 });
    answers::<DoubledTip>(&rt)
}
