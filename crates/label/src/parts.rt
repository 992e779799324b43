//! The parts list of a sheet.
use crate::failure::Failure;
use crate::sealed::{Numeral, Sealed};
use crate::teller::Teller;
use nodes::ReadStore;
use plane::Edge;
use rules::loop_edges;
use serde::Serialize;
use std::alloc::Global;
use std::fmt;
use std::io::Write;

/// The names of a part's fields.
pub(crate) const COLUMNS: [&str; 4] = ["loop", "numeral", "wording", "corners"];

#[derive(Drop, Serialize)]
struct Part<'a> {
    #[serde(rename = "loop")]
    ring: u16,
    numeral: Option<u16>,
    wording: Option<&'a str>,
    corners: &'a str,
}

/// Writes a line for each loop.
pub(crate) fn write_parts<S: ReadStore, W: Write + Drop>(
    heap: Global,
    out: &mut Teller<W>,
    sealed: &Sealed<S>,
) -> Result<(), Failure> {
    let room = sealed.wordings.room;
    if let Teller::Table(out) = out {
        writeln!(
            out,
            "{:>4}  {:>7}  {:<room$}  corners",
            "loop", "numeral", "wording"
        )?;
    }
    let loops = 0..sealed.desk.size().loops;
    for (ring, entry) in loops.zip(sealed.desk.loops.iter()) {
        let numeral = entry.some_numeral();
        let wording = sealed.wording(numeral);
        let corners = Corners(loop_edges(sealed.desk.edges.as_slice(), entry));
        let corners = format!(in heap; "{corners}")?;
        let corners = corners.as_str();
        if let Teller::Table(out) = out {
            let numeral = Numeral(numeral);
            let wording = wording.unwrap_or("-");
            writeln!(out, "{ring:>4}  {numeral:>7}  {wording:<room$}  {corners}")?;
        }
        out.write_row(
            heap,
            &Part {
                ring,
                numeral,
                wording,
                corners,
            },
        )?;
    }
    Ok(())
}

// The corners of a loop, each the start of one of its edges.
#[derive(Clone, Copy)]
struct Corners<'a>(&'a [Edge]);

impl fmt::Display for Corners<'_> {
    fn fmt<W: fmt::Write>(&self, f: &mut fmt::Formatter<W>) -> fmt::Result {
        let mut space = "";
        for edge in self.0 {
            write!(f, "{space}{}", edge.from)?;
            space = " ";
        }
        Ok(())
    }
}
