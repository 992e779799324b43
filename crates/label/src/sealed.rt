//! A sheet in which tips are answered.
ghost use Rattle.std.specs.Prelude.{Some};
ghost use Rattle.label.specs.Printed.{cell_words, numeral_words};

use crate::tip::Tip;
use crate::wordings::Wordings;
use desk::Desk;
use nodes::ReadStore;
use refusal::Refusal;
use sheet::Answer;
use std::fmt;
use walk::Found;

/// A Sealed sheet: its tables, its nodes and its wordings.
#[derive(Drop)]
pub(crate) struct Sealed<S> {
    pub(crate) desk: Desk,
    pub(crate) store: S,
    pub(crate) wordings: Wordings,
}

impl<S: ReadStore> Sealed<S> {
    /// Answers tips one after another into a table: each with the cell that holds it, or with its refusal.
    pub(crate) fn list(
        &mut self,
        tips: &[Tip],
        answers: &mut [Result<Found, Refusal>],
    ) -> Result<(), Refusal> {
        self.desk.list(tips, &self.store, answers)
    }

    /// The numeral of a face, where its loop has one; the other cells have none.
    pub(crate) fn numeral(&self, answer: Answer) -> Option<u16> {
        match answer {
            Answer::Face(number) => self
                .desk
                .loops
                .as_slice()
                .get(usize::from(number))?
                .some_numeral(),
            Answer::Vertex(_) => None,
            Answer::OpenEdge(_, _) => None,
        }
    }

    /// The wording of a numeral, where there is one.
    pub(crate) fn wording(&self, numeral: Option<u16>) -> Option<&str> {
        self.wordings.get(numeral?)
    }
}

/// A numeral, or a dash for none.
#[derive(Clone, Copy)]
pub(crate) struct Numeral(pub(crate) Option<u16>);

impl fmt::Display for Numeral {
    ghost output = { λ numeral. Some (numeral_words numeral.0) };

    fn fmt<W: fmt::Write>(&self, f: &mut fmt::Formatter<W>) -> fmt::Result {
        match self.0 {
            None => f.pad("-"),
            Some(numeral) => numeral.fmt(f),
        }
    }
}

/// A cell in words.
#[derive(Clone, Copy)]
pub(crate) struct Cell(pub(crate) Answer);

impl fmt::Display for Cell {
    ghost output = { λ cell. Some (cell_words cell.0) };

    fn fmt<W: fmt::Write>(&self, f: &mut fmt::Formatter<W>) -> fmt::Result {
        match self.0 {
            Answer::Vertex(v) => write!(f, "vertex {v}"),
            Answer::OpenEdge(u, v) => write!(f, "edge {u}-{v}"),
            Answer::Face(l) => write!(f, "face of loop {l}"),
        }
    }
}
