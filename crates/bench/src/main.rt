//! Builds the hierarchy of a sheet that is given as text, answers tips, and prints how long each took: for comparison with other programs.
#![tactic(auto)]

mod sheet_text;
mod tip_text;

use anyhow::anyhow;
use desk::{Desk, LEAST};
use nodes::{Node, ReadStore, SliceStore, WriteStore};
use refusal::Refusal;
use sheet::Answer;
use sheet_text::sheet_file;
use std::io::{BufWriter, Write};
use std::process::ExitCode;
use std::time::Instant;
use std::{env, fs};
use tip_text::{Tip, tips_of};

// The most nodes that a sheet can have: 2,050 at the bottom, and 6 for each of 1,024 vertices taken out.
const MOST_NODES: usize = 8194;

// Loads and checks the sheet of a file, cuts it, and takes rounds until it is sealed.
fn build<S: WriteStore>(desk: &mut Desk, store: &mut S, file: &[u8]) -> Result<(), Refusal> {
    desk.load(file)?;
    desk.check()?;
    desk.cut(store)?;
    // A round takes out one vertex at least.
    for _round in 0..desk.size().inner {
        if desk.seal(store).is_ok() {
            return Ok(());
        }
        desk.round(store)?;
    }
    desk.seal(store)
}

// What holds a tip; nothing for one that is refused.
fn answer<S: ReadStore>(desk: &mut Desk, store: &S, tip: Tip) -> Option<Answer> {
    let said = match tip {
        Tip::Whole(tip) => desk.place(&tip, store),
        Tip::Rational(tip) => desk.place(&tip, store),
        Tip::Off => return None,
    };
    Some(said.ok()?.answer)
}

// `V` and a vertex, `E` and the ends of an edge, `F` and the loop of a face, or `O` off the sheet.
fn write_answer(out: &mut impl Write, answer: Option<Answer>) -> anyhow::Result<()> {
    match answer {
        Some(Answer::Vertex(v)) => writeln!(out, "V {v}")?,
        Some(Answer::OpenEdge(u, v)) => writeln!(out, "E {u} {v}")?,
        Some(Answer::Face(l)) => writeln!(out, "F {l}")?,
        None => writeln!(out, "O")?,
    }
    Ok(())
}

fn run(rt: &HostRuntime) -> anyhow::Result<()> {
    let heap = rt.alloc();
    let mut args = env::args(rt)?;
    let _ = args.next();
    let (Some(sheet), Some(tips), Some(answers), None) = (
        args.next(),
        args.next(),
        args.next(),
        args.next(),
    ) else {
        return Err(anyhow!("three files are wanted: bench SHEET TIPS ANSWERS"));
    };
    let sheet = fs::read_to_string(rt, sheet.as_str())?;
    let file = sheet_file(heap, sheet.as_str())?;
    let tips = fs::read_to_string(rt, tips.as_str())?;
    let tips = tips_of(heap, tips.as_str())?;
    let mut desk = Desk::new(heap, LEAST)?;
    let mut slots = vec![in heap; Node::default(); MOST_NODES]?;
    let mut store = SliceStore::new(slots.as_mut_slice());
    let start = Instant::now(rt)?;
    build(&mut desk, &mut store, file.as_slice())?;
    let built = start.elapsed(rt)?.as_nanos();
    let mut told = Vec::new(heap);
    let start = Instant::now(rt)?;
    for tip in &tips {
        told.push(answer(&mut desk, &store, *tip))?;
    }
    let located = start.elapsed(rt)?.as_nanos();
    let mut out = BufWriter::new(heap, fs::create(rt, answers.as_str())?)?;
    for answer in &told {
        write_answer(&mut out, *answer)?;
    }
    out.flush()?;
    println!(rt; "build_ns {built}")?;
    println!(rt; "locate_ns {located}")?;
    Ok(())
}

// A failure is told in one line.
fn main(rt: HostRuntime) -> anyhow::Result<ExitCode> {
    let Err(error) = run(&rt) else {
        return Ok(ExitCode::SUCCESS);
    };
    eprintln!(rt; "bench: {error}")?;
    Ok(ExitCode::FAILURE)
}

#[cfg(test)]
mod tests;
