//! The wording of an answer, as a part of the caller's file itself.
ghost use Rattle.std.specs.Prelude.{◌≡◌, IfOk, Ok as Good};
ghost use Rattle.std.specs.Option.{option_map};
ghost use Rattle.lent.specs.Kept.{elements, kept_in};
ghost use Rattle.sheet.specs.Files.{contents, sheet as sheet_at, Within};
ghost use Rattle.reader.specs.Reading.{and_then};
ghost use Rattle.reader.specs.Steps.{Passed};
ghost use Rattle.sheet.specs.Numerals.{some_numeral};
ghost use Rattle.sheet.specs.Wordings.{face_of_answer, label_of, numeral_in, numeral_of, wording_said};

use crate::answer::Answer;
use crate::body::read_sheet;
use crate::labels::read_labels;
use crate::tables::{Label, Loop};
use lent::LentList;
use reader::Reader;
use refusal::Refusal;

/// A part of a file, with its place.
#[derive(Clone, Copy)]
pub struct FilePart<'a> {
    /// The place of its first byte in the file.
    pub place: usize,
    /// Its bytes.
    pub bytes: &'a [u8],
}

// The loop whose face an answer is.
fn face_of(answer: Answer) -> Option<u16>
    ensures { result ≡ face_of_answer answer }
{
    match answer {
        Answer::Face(number) => Some(number),
        Answer::Vertex(_) => None,
        Answer::OpenEdge(_, _) => None,
    }
}

// The numeral of a loop of the table, where it has one.
fn numeral_of_loop(loops: &LentList<'_, Loop>, face: Option<u16>) -> Option<u16>
    ensures { result ≡ numeral_in (elements (kept_in loops.now)) face }
{
    loops.read(usize::from(face?)).ok()?.some_numeral()
}

// Reads the sheet, and answers the numeral of a loop, where it has one.
fn read_numeral(reader: &mut Reader<'_>, face: Option<u16>) -> Result<Option<u16>, Refusal>
    ensures { Passed sheet_at result reader.old reader.new (λ s y. y ≡ some_numeral (numeral_of s.rings face)) }
{
    let mut table = [Loop::default(); 2050];
    let mut loops = LentList::over(&mut table, 0);
    let mut no_points = LentList::over(&mut [], 0);
    let mut no_edges = LentList::over(&mut [], 0);
    let _ = read_sheet(reader, &mut no_points, &mut no_edges, &mut loops)?;
    Ok(numeral_of_loop(&loops, face))
}

// The label of a loop's numeral.
#[tactic(auto, unfolding(crate::specs::Files::contents))]
fn find_label(file: &[u8], face: Option<u16>) -> Result<Option<Label>, Refusal>
    ensures value { result ≡ and_then (contents file.now) (λ f. Good (label_of (numeral_of f.sheet.rings face) f.labels)) }
    ensures within { IfOk result (Within file.now) }
{
    let mut reader = Reader::new(file);
    let numeral = read_numeral(&mut reader, face)?;
    read_labels(&mut reader, numeral)
}

/// The wording of an answer: none for a vertex, an edge, or a face that has no numeral or whose numeral has no label.
#[tactic(auto, unfolding(crate::specs::Wordings::wording_said))]
pub fn wording<'a>(file: &'a [u8], answer: Answer) -> Result<Option<FilePart<'a>>, Refusal>
    ensures { and_then result (λ o. Good (option_map (λ w. (w.place, w.bytes.now)) o)) ≡ wording_said file.now answer }
{
    match find_label(file, face_of(answer))? {
        Some(label) => {
            let place = label.place;
            let bytes = &file[place..place + usize::from(label.length)];
            Ok(Some(FilePart { place, bytes }))
        }
        None => Ok(None),
    }
}
