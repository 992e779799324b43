use crate::{Cause, Layer, Refusal};
use std::test::Fail;

// What a refusal of each cause says, as docs/REFUSALS.md has it.
const SENTENCES: [(Cause, &str); 28] = [
    (Cause::FileEnds, "the file stops too early; send it whole"),
    (
        Cause::BadNumber,
        "a number is not in its shortest form of one to three groups; write it anew",
    ),
    (
        Cause::BadEdition,
        "this edition of the file is not known; write edition 1",
    ),
    (Cause::BadSize, "width and height must each be 2 to 8,191"),
    (
        Cause::OverLimit,
        "there are more of these than a sheet may have; split the sheet",
    ),
    (
        Cause::VertexOutside,
        "an inner vertex must lie strictly inside the sheet; move it",
    ),
    (
        Cause::BadCornerCount,
        "a loop has 3 corners at least, and no more than the sheet has vertices",
    ),
    (
        Cause::NoSuchVertex,
        "a corner names a vertex that the sheet does not have; correct its number",
    ),
    (
        Cause::BadNumeral,
        "a numeral is 0 to 255 at a loop, 1 to 255 at a label, and labelled once",
    ),
    (
        Cause::BadWording,
        "a wording has 1 to 63 characters, each a printable ASCII one; shorten or retype it",
    ),
    (
        Cause::BytesLeft,
        "the file goes on after its last label; cut the rest off",
    ),
    (
        Cause::TableTooShort,
        "a table is too short; lend a longer one",
    ),
    (
        Cause::LoopSum,
        "the loops leave a gap or lie over each other; count their corners again",
    ),
    (
        Cause::SamePoint,
        "two vertices are the same point; merge them",
    ),
    (
        Cause::VertexTwice,
        "a loop names a vertex twice; split the loop there",
    ),
    (
        Cause::EdgeTwice,
        "two loops lie on the same side of an edge; turn or remove one",
    ),
    (
        Cause::NoReverse,
        "no loop lies on the other side of an edge; add the missing one",
    ),
    (
        Cause::VertexUnused,
        "an inner vertex is a corner of no loop; remove it",
    ),
    (
        Cause::EdgesTouch,
        "two edges touch or cross; put a vertex where they meet",
    ),
    (
        Cause::LoopTurned,
        "a loop goes round clockwise, or encloses nothing; list its corners counterclockwise",
    ),
    (
        Cause::Stuck,
        "the loop cannot be cut, or the sheet layered, any further; redraw it",
    ),
    (
        Cause::StoreFull,
        "the store is too small; lend one with room for so many nodes",
    ),
    (
        Cause::VerticesLeft,
        "inner vertices are left; run more rounds before sealing",
    ),
    (Cause::NoneLeft, "no inner vertex is left; seal the sheet"),
    (
        Cause::UnfitTip,
        "the tip's numbers are outside what the kernel takes",
    ),
    (Cause::OffSheet, "the tip lies off the sheet; move it"),
    (
        Cause::OutOfRange,
        "a table or a store was altered; load the sheet again",
    ),
    (
        Cause::NotThisStage,
        "the sheet is not at the stage for this; take the turns in order",
    ),
];

#[test]
fn each_cause_says_what_to_mend(rt: HostRuntime) -> Result<(), Fail> {
    for (number, (cause, sentence)) in (1..).zip(SENTENCES) {
        let refusal = Refusal::new(cause, Layer::Build, 7);
        let text = format!(in rt.alloc(); "{refusal}")?;
        let wanted = format!(in rt.alloc();
            "refusal {number}, layer 3 (build), place 7: {sentence}"
        )?;
        assert_eq!(&rt; text.as_str(), wanted.as_str());
    }
    Ok(())
}

#[test]
fn each_layer_has_its_name(rt: HostRuntime) -> Result<(), Fail> {
    for (layer, name) in [
        (Layer::File, "layer 1 (file)"),
        (Layer::Check, "layer 2 (check)"),
        (Layer::Build, "layer 3 (build)"),
        (Layer::Place, "layer 4 (place)"),
        (Layer::Store, "layer 5 (store)"),
    ] {
        let refusal = Refusal::new(Cause::BytesLeft, layer, 0);
        let text = format!(in rt.alloc(); "{refusal}")?;
        assert!(&rt; text.as_str().contains(name), "{name}");
    }
    Ok(())
}
