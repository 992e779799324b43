//! What `label` says of a sheet that breaks a rule: for each rule one sheet that breaks it first, and what clashes there, found by hand.
use crate::broken::clash_words;
use desk::{Desk, LEAST};
use std::test::Fail;

// Edition 1, width, height and inner vertices; these; the loops, each with numeral and corner count; and the count of labels.
// the last loop is missing
const LOOP_MISSING: &[u8] = &[
    1, 4, 4, 2, 1, 2, 3, 2, 3, 0, 4, 0, 1, 5, 4, 0, 3, 1, 2, 5, 0, 4, 2, 3, 4, 5, 0,
];

// vertex 5 is where vertex 4 is
const ONE_PLACE: &[u8] = &[
    1, 4, 4, 2, 1, 2, 1, 2, 4, 0, 4, 0, 1, 5, 4, 0, 3, 1, 2, 5, 0, 4, 2, 3, 4, 5, 0, 3, 3, 0, 4, 0,
];

// loop 2 names vertex 2 twice
const TWICE_NAMED: &[u8] = &[
    1, 4, 4, 2, 1, 2, 3, 2, 4, 0, 4, 0, 1, 5, 4, 0, 3, 1, 2, 5, 0, 4, 2, 3, 2, 5, 0, 3, 3, 0, 4, 0,
];

// the first loop of the spring sheet the other way round
const TURNED_FIRST: &[u8] = &[
    1, 12, 10, 4, 3, 3, 9, 3, 9, 7, 3, 7, 5, 14, 4, 7, 6, 5, 4, 0, 4, 0, 1, 5, 4, 0, 4, 1, 2, 6, 5,
    0, 4, 2, 3, 7, 6, 0, 4, 3, 0, 4, 7, 0,
];

// loop 1 goes to vertex 4 in place of 5
const ONE_SIDED: &[u8] = &[
    1, 4, 4, 2, 1, 2, 3, 2, 4, 0, 4, 0, 1, 5, 4, 0, 3, 1, 2, 4, 0, 4, 2, 3, 4, 5, 0, 3, 3, 0, 4, 0,
];

// no loop comes to vertex 5
const LEFT_OUT: &[u8] = &[
    1, 4, 4, 2, 1, 2, 3, 2, 4, 0, 3, 3, 0, 4, 0, 3, 1, 2, 4, 0, 4, 0, 1, 4, 2, 0, 4, 0, 2, 3, 4, 0,
];

// vertex 4 is to the right of vertex 5
const CROSSED: &[u8] = &[
    1, 4, 4, 2, 3, 2, 1, 2, 4, 0, 4, 0, 1, 5, 4, 0, 3, 1, 2, 5, 0, 4, 2, 3, 4, 5, 0, 3, 3, 0, 4, 0,
];

// loop 1 goes round clockwise
const CLOCKWISE: &[u8] = &[
    1, 4, 4, 2, 1, 3, 3, 1, 3, 0, 4, 0, 1, 2, 4, 0, 4, 0, 4, 2, 5, 0, 4, 0, 5, 2, 3, 0,
];

// What is said behind the refusal of a sheet, or a dash where it is not refused.
fn said(rt: &HostRuntime, file: &[u8]) -> Result<String, Fail> {
    let mut desk = Desk::new(rt.alloc(), LEAST)?;
    desk.load(file)?;
    let Err(refusal) = desk.check() else {
        return Ok(String::from_str(rt.alloc(), "-")?);
    };
    Ok(clash_words(rt.alloc(), &desk, refusal)?)
}

#[test]
fn what_clashes_is_told(rt: HostRuntime) -> Result<(), Fail> {
    let told = [
        (
            LOOP_MISSING,
            " (3 loops of 11 corners make 5 triangles, and 6 are wanted)",
        ),
        (ONE_PLACE, " (vertices 4 and 5 at (1, 2))"),
        (TWICE_NAMED, " (loop 2 names vertex 2 at (4, 4) twice)"),
        (
            TURNED_FIRST,
            " (the edge from 5 at (9, 3) to 4 at (3, 3) is listed at 2 and at 6)",
        ),
        (
            ONE_SIDED,
            " (nothing is listed against the edge from 1 at (4, 0) to 5 at (3, 2))",
        ),
        (LEFT_OUT, " (vertex 5 at (3, 2))"),
        (
            CROSSED,
            " (the edge from 1 at (4, 0) to 5 at (1, 2) and the edge from 4 at (3, 2) to 0 at (0, 0))",
        ),
        (CLOCKWISE, " (loop 1, which begins at vertex 0 at (0, 0))"),
    ];
    for (file, words) in told {
        let said = said(&rt, file)?;
        assert_eq!(rt; said.as_str(), words);
    }
    Ok(())
}
