//! Whole runs of turns over the spring sheet; each outcome is worked out by hand.
use desk::{Desk, LEAST};
use nodes::{Node, SliceStore};
use plane::WholeTip;
use refusal::{Cause, Layer, Refusal};
use runs::{Outcome, Turn, play};
use sheet::Answer;
use std::process::Abort;
use std::test::Fail;
use walk::Found;

// a spring in the middle of a sheet of 12 by 10
const SPRING: &[u8] = &[
    1, 12, 10, 4, 3, 3, 9, 3, 9, 7, 3, 7, 5, 14, 4, 4, 5, 6, 7, 0, 4, 0, 1, 5, 4, 0, 4, 1, 2, 6, 5,
    0, 4, 2, 3, 7, 6, 0, 4, 3, 0, 4, 7, 1, 14, 6, 115, 112, 114, 105, 110, 103,
];

const MIDDLE: WholeTip = WholeTip { x: 6, y: 5 };

const CORNER: WholeTip = WholeTip { x: 9, y: 7 };

const SEAM: WholeTip = WholeTip { x: 1, y: 1 };

const OFF: WholeTip = WholeTip { x: 13, y: 5 };

fn found(answer: Answer, tests: u32) -> Outcome {
    Outcome::Answered(Found { answer, tests })
}

fn refused(cause: Cause, layer: Layer, place: usize) -> Outcome {
    Outcome::Refused(Refusal::new(cause, layer, place))
}

// The outcomes are these, one for each turn.
fn expect(rt: &impl Abort, outcomes: &[Outcome], wanted: &[Outcome]) {
    assert_eq!(rt; outcomes.len(), wanted.len());
    for (outcome, want) in outcomes.iter().zip(wanted) {
        assert_eq!(rt; outcome, want);
    }
}

#[test]
fn a_sheet_is_answered_until_it_is_wiped(rt: HostRuntime) -> Result<(), Fail> {
    let mut desk = Desk::new(rt.alloc(), LEAST)?;
    let mut slots = [Node::default(); 18];
    let mut store = SliceStore::new(&mut slots);
    let mut answers = [Err(Refusal::new(Cause::FileEnds, Layer::File, 0)); 5];
    let mut outcomes = [Outcome::Granted; 13];
    let turns = [
        Turn::Load(SPRING),
        Turn::Check,
        Turn::Cut,
        Turn::Round,
        Turn::Round,
        Turn::Seal,
        Turn::Round,
        Turn::Place(MIDDLE),
        Turn::Seal,
        Turn::Place(MIDDLE),
        Turn::List(&[CORNER, OFF, SEAM]),
        Turn::Wipe,
        Turn::Place(MIDDLE),
    ];
    play(&mut desk, &mut store, &turns, &mut answers, &mut outcomes);
    let granted = Outcome::Granted;
    let early = refused(Cause::NotThisStage, Layer::Place, 0);
    expect(
        &rt,
        &outcomes,
        &[
            granted,
            granted,
            granted,
            granted,
            granted,
            refused(Cause::VerticesLeft, Layer::Build, 1),
            granted,
            early,
            granted,
            found(Answer::Face(0), 20),
            granted,
            granted,
            early,
        ],
    );
    let off = Err(Refusal::new(Cause::OffSheet, Layer::Place, 1));
    let stays = Err(Refusal::new(Cause::FileEnds, Layer::File, 0));
    let corner = Ok(Found {
        answer: Answer::Vertex(6),
        tests: 22,
    });
    let seam = Ok(Found {
        answer: Answer::OpenEdge(0, 4),
        tests: 13,
    });
    assert!(&rt; answers == [corner, off, seam, stays, stays]);
    Ok(())
}
