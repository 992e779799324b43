//! What stands before and behind the rows of answers.
use crate::failure::Failure;
use crate::parts;
use crate::sealed::Sealed;
use crate::tally::{Cost, Tally};
use crate::teller::{COLUMNS, Teller};
use nodes::ReadStore;
use serde::Serialize;
use sheet::Size;
use std::alloc::Global;
use std::io::Write;

// A sheet in numbers.
#[derive(Drop, Serialize)]
struct Head {
    width: u16,
    height: u16,
    inner_vertices: u16,
    loops: u16,
    corners: u16,
    nodes: u64,
    rounds: u64,
}

// The answers in numbers.
#[derive(Drop, Serialize)]
struct Counts {
    tips: u64,
    in_faces: u64,
    on_edges: u64,
    at_vertices: u64,
    refused: u64,
    bad_lines: u64,
    all_tests: u64,
    worst_tests: u32,
}

/// Writes what stands before the rows.
pub(crate) fn begin<S: ReadStore, W: Write + Drop>(
    heap: Global,
    out: &mut Teller<W>,
    sealed: &Sealed<S>,
    has_tips: bool,
) -> Result<(), Failure> {
    let Size {
        width,
        height,
        inner,
        loops,
        corners,
    } = sealed.desk.size();
    let nodes = sealed.store.count() as u64;
    let rounds = u64::from(sealed.desk.rounds());
    let (columns, rows) = if has_tips {
        (COLUMNS.as_slice(), "tips")
    } else {
        (parts::COLUMNS.as_slice(), "loops")
    };
    match out {
        Teller::Table(out) => writeln!(
            out,
            "sheet {width} x {height}: {inner} inner vertices, {loops} loops, {corners} corners"
        )?,
        Teller::Csv(_) => out.name_columns(columns)?,
        Teller::Json(out, _) => {
            let head = Head {
                width,
                height,
                inner_vertices: inner,
                loops,
                corners,
                nodes,
                rounds,
            };
            let head = serde_json::to_string(heap, &head).map_err(Failure::Json)?;
            write!(out, "{{\"sheet\":{},\n\"{rows}\":[", head.as_str())?;
        }
    }
    Ok(())
}

/// Writes in a table how the sheet is layered, and before it that it is in order, where no tips are asked about.
pub(crate) fn write_layers<S: ReadStore, W: Write + Drop>(
    out: &mut Teller<W>,
    sealed: &Sealed<S>,
    has_tips: bool,
) -> Result<(), Failure> {
    let Teller::Table(out) = out else {
        return Ok(());
    };
    if !has_tips {
        writeln!(out, "in order: it keeps the eight rules")?;
    }
    let nodes = sealed.store.count();
    let rounds = sealed.desk.rounds();
    writeln!(out, "layered: {nodes} nodes in {rounds} rounds")?;
    Ok(())
}

/// Writes what stands behind the rows, and sends on all that is told.
pub(crate) fn end<S: ReadStore, W: Write + Drop>(
    heap: Global,
    out: &mut Teller<W>,
    sealed: &Sealed<S>,
    tally: Tally,
    has_tips: bool,
    has_stats: bool,
) -> Result<(), Failure> {
    match out {
        Teller::Table(out) => {
            if has_stats {
                let nodes = sealed.store.count();
                let rounds = sealed.desk.rounds();
                let cost = Cost(tally);
                writeln!(out, "nodes {nodes}, rounds {rounds}, {cost}")?;
            }
            if has_tips {
                writeln!(out, "{tally}")?;
            }
        }
        Teller::Csv(_) => {}
        Teller::Json(out, _) => {
            write!(out, "\n]")?;
            if has_tips {
                let counts = serde_json::to_string(heap, &counted(tally)).map_err(Failure::Json)?;
                write!(out, ",\n\"counts\":{}", counts.as_str())?;
            }
            writeln!(out, "}}")?;
        }
    }
    out.flush()
}

fn counted(tally: Tally) -> Counts {
    Counts {
        tips: tally.tips(),
        in_faces: tally.faces,
        on_edges: tally.edges,
        at_vertices: tally.vertices,
        refused: tally.refused,
        bad_lines: tally.bad_lines,
        all_tests: tally.tests,
        worst_tests: tally.worst,
    }
}
