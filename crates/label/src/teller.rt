//! The three forms in which answers are told: a table, CSV and JSON.
use crate::args::Form;
use crate::failure::Failure;
use crate::sealed::{Cell, Numeral};
use crate::tips::LineError;
use csv::{Writer, WriterBuilder};
use refusal::Refusal;
use serde::Serialize;
use sheet::Answer;
use std::alloc::Global;
use std::io::Write;
use walk::Found;

/// Where the answers go, in the form that is asked for.
#[derive(Drop)]
pub(crate) enum Teller<W: Write + Drop> {
    Table(W),
    Csv(Writer<W>),
    /// With what stands before the next row.
    Json(W, &'static str),
}

/// Where a tip stands in its file: its line, counted from 1, its position among the tips, counted from 0, and its numbers.
#[derive(Clone, Copy)]
pub(crate) struct At<'a> {
    pub(crate) line: u64,
    pub(crate) place: u64,
    pub(crate) tip: &'a str,
}

/// What the face that holds a tip shows, and how many letters a wording has at most.
#[derive(Clone, Copy)]
pub(crate) struct Shown<'a> {
    pub(crate) numeral: Option<u16>,
    pub(crate) wording: Option<&'a str>,
    pub(crate) room: usize,
}

/// The names of a row's fields.
pub(crate) const COLUMNS: [&str; 14] = [
    "line",
    "place",
    "tip",
    "kind",
    "vertex",
    "second_vertex",
    "loop",
    "numeral",
    "wording",
    "tests",
    "refusal",
    "layer",
    "refusal_place",
    "sentence",
];

// A line of tips: what is told of it.
#[derive(Drop, Serialize)]
struct Row<'a> {
    line: u64,
    place: Option<u64>,
    tip: Option<&'a str>,
    kind: &'static str,
    vertex: Option<u16>,
    second_vertex: Option<u16>,
    #[serde(rename = "loop")]
    ring: Option<u16>,
    numeral: Option<u16>,
    wording: Option<&'a str>,
    tests: Option<u32>,
    refusal: Option<u8>,
    layer: Option<u8>,
    refusal_place: Option<u64>,
    sentence: Option<&'a str>,
}

// A row of which nothing but its line and its kind is told.
fn bare<'a>(line: u64, kind: &'static str) -> Row<'a> {
    Row {
        line,
        place: None,
        tip: None,
        kind,
        vertex: None,
        second_vertex: None,
        ring: None,
        numeral: None,
        wording: None,
        tests: None,
        refusal: None,
        layer: None,
        refusal_place: None,
        sentence: None,
    }
}

fn answered<'a>(at: At<'a>, found: Found, shown: Shown<'a>) -> Row<'a> {
    let (kind, vertex, second_vertex, ring) = match found.answer {
        Answer::Vertex(v) => ("vertex", Some(v), None, None),
        Answer::OpenEdge(u, v) => ("edge", Some(u), Some(v), None),
        Answer::Face(l) => ("face", None, None, Some(l)),
    };
    Row {
        place: Some(at.place),
        tip: Some(at.tip),
        vertex,
        second_vertex,
        ring,
        numeral: shown.numeral,
        wording: shown.wording,
        tests: Some(found.tests),
        ..bare(at.line, kind)
    }
}

impl<W: Write + Drop> Teller<W> {
    /// Begins to tell in a form.
    pub(crate) fn new(form: Form, out: W) -> Teller<W> {
        match form {
            Form::Table => Teller::Table(out),
            Form::Csv => Teller::Csv(WriterBuilder::new().has_headers(false).from_writer(out)),
            Form::Json => Teller::Json(out, "\n"),
        }
    }

    /// Sends on all that is told.
    pub(crate) fn flush(&mut self) -> Result<(), Failure> {
        match self {
            Teller::Table(out) => Ok(out.flush()?),
            Teller::Csv(out) => out.flush().map_err(Failure::Csv),
            Teller::Json(out, _) => Ok(out.flush()?),
        }
    }

    /// Writes the names of the columns, where the form is CSV.
    pub(crate) fn name_columns(&mut self, names: &[&str]) -> Result<(), Failure> {
        match self {
            Teller::Csv(out) => out
                .write_record(names.iter().copied())
                .map_err(Failure::Csv),
            _ => Ok(()),
        }
    }

    /// Writes a row, where the form is not a table.
    pub(crate) fn write_row<T: Serialize>(&mut self, heap: Global, row: &T) -> Result<(), Failure> {
        match self {
            Teller::Table(_) => Ok(()),
            Teller::Csv(out) => out.serialize(heap, row).map_err(Failure::Csv),
            Teller::Json(out, before) => {
                let text = serde_json::to_string(heap, row).map_err(Failure::Json)?;
                write!(out, "{before}{}", text.as_str())?;
                *before = ",\n";
                Ok(())
            }
        }
    }

    /// Tells what holds a tip.
    pub(crate) fn tell(
        &mut self,
        heap: Global,
        at: At<'_>,
        found: Found,
        shown: Shown<'_>,
    ) -> Result<(), Failure> {
        if let Teller::Table(out) = self {
            let At { line, place, tip } = at;
            let cell = format!(in heap; "{}", Cell(found.answer))?;
            let cell = cell.as_str();
            let number = Numeral(shown.numeral);
            let wording = shown.wording.unwrap_or("-");
            let room = shown.room;
            let tests = found.tests;
            writeln!(
                out,
                "{line:>4}  {place:>5}  {tip:<15}  {cell:<17}  {number:>7}  {wording:<room$}  {tests:>5}"
            )?;
        }
        self.write_row(heap, &answered(at, found, shown))
    }

    /// Tells why a tip is refused.
    pub(crate) fn tell_refused(
        &mut self,
        heap: Global,
        at: At<'_>,
        refusal: Refusal,
    ) -> Result<(), Failure> {
        if let Teller::Table(out) = self {
            let At { line, place, tip } = at;
            writeln!(out, "{line:>4}  {place:>5}  {tip:<15}  {refusal}")?;
        }
        let sentence = format!(in heap; "{}", refusal.cause)?;
        let row = Row {
            place: Some(at.place),
            tip: Some(at.tip),
            refusal: Some(refusal.cause.number()),
            layer: Some(refusal.layer.number()),
            refusal_place: Some(refusal.place as u64),
            sentence: Some(sentence.as_str()),
            ..bare(at.line, "refused")
        };
        self.write_row(heap, &row)
    }

    /// Tells what is wrong with a line that has no tip.
    pub(crate) fn tell_bad_line(
        &mut self,
        heap: Global,
        line: u64,
        error: LineError,
    ) -> Result<(), Failure> {
        let sentence = format!(in heap; "{error}")?;
        let sentence = sentence.as_str();
        if let Teller::Table(out) = self {
            writeln!(out, "{line:>4}      -  bad line: {sentence}")?;
        }
        let row = Row {
            sentence: Some(sentence),
            ..bare(line, "bad line")
        };
        self.write_row(heap, &row)
    }
}
