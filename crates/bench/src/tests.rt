use crate::sheet_text::sheet_file;
use crate::tip_text::tips_of;
use crate::{answer, build, write_answer};
use desk::{Desk, LEAST};
use nodes::{Node, SliceStore};
use std::test::Fail;

// A sheet of 12 by 10 with a rectangle in the middle, and four faces around it.
const SPRING: &str = "sheet 12 10 4 5 \
     3 3 9 3 9 7 3 7 \
     4 4 5 6 7 4 0 1 5 4 4 1 2 6 5 4 2 3 7 6 4 3 0 4 7";

const WITH_CORNERS: &str = "sheet 12 10 8 5 \
     0 0 12 0 12 10 0 10 3 3 9 3 9 7 3 7 \
     4 4 5 6 7 4 0 1 5 4 4 1 2 6 5 4 2 3 7 6 4 3 0 4 7";

const BYTES: &[u8] = &[
    1, 12, 10, 4, 3, 3, 9, 3, 9, 7, 3, 7, 5, 0, 4, 4, 5, 6, 7, 0, 4, 0, 1, 5, 4, 0, 4, 1, 2, 6, 5,
    0, 4, 2, 3, 7, 6, 0, 4, 3, 0, 4, 7, 0,
];

#[test]
fn a_text_is_a_sheet_file(rt: HostRuntime) -> Result<(), Fail> {
    for (text, bytes) in [
        (SPRING, BYTES),
        (WITH_CORNERS, BYTES),
        (
            "sheet 2 2 0 1 4 0 1 2 3",
            &[1, 2, 2, 0, 1, 0, 4, 0, 1, 2, 3, 0],
        ),
        (
            "sheet 300 200 1 0 150 130",
            &[1, 172, 2, 200, 1, 1, 150, 1, 130, 1, 0, 0],
        ),
    ] {
        let Ok(file) = sheet_file(rt.alloc(), text) else {
            return Err(Fail::new("no sheet"));
        };
        assert_eq!(rt; file.as_slice(), bytes);
    }
    for text in [
        "",
        "sheets 2 2 0 0",
        "sheet 2 2 0",
        "sheet 2 2 1 0 1",
        "sheet 2 2 0 1 3 0 1",
    ] {
        assert!(rt; sheet_file(rt.alloc(), text).is_err(), "{text}");
    }
    Ok(())
}

#[test]
fn tips_are_answered(rt: HostRuntime) -> Result<(), Fail> {
    let heap = rt.alloc();
    let mut desk = Desk::new(heap, LEAST)?;
    let mut slots = [Node::default(); 18];
    let mut store = SliceStore::new(&mut slots);
    build(&mut desk, &mut store, BYTES)?;
    let text = "tips 7 6 5 1 9 14 3 -1 5 1 18 14 2 13 5 1 1 1 1 5 5 0";
    let Ok(tips) = tips_of(heap, text) else {
        return Err(Fail::new("no tips"));
    };
    let mut out = Vec::new(heap);
    for tip in &tips {
        let found = answer(&mut desk, &store, *tip);
        if write_answer(&mut out, found).is_err() {
            return Err(Fail::new("not written"));
        }
    }
    let told = b"F 0\nE 4 7\nO\nV 6\nO\nE 0 4\nO\n";
    assert_eq!(rt; out.as_slice(), told.as_slice());
    Ok(())
}
