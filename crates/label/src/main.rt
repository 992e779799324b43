//! Reads a sheet file, checks the sheet and builds its hierarchy; tells its parts list, or the answers of the tips of a file; and draws it where asked.
#![tactic(auto)]

mod anchors;
mod answers;
mod args;
mod broken;
mod decimal;
mod document;
mod failure;
mod frame;
mod labels;
mod layout;
mod list;
mod marks;
mod new_file;
mod parts;
mod picture;
mod sealed;
mod tally;
mod teller;
mod tints;
mod tip;
mod tips;
mod wordings;

use answers::Report;
use args::{Asked, INPUT, read_words};
use broken::clash_words;
use desk::{Desk, LEAST};
use failure::{Failure, named};
use new_file::NewFile;
use nodes::{Node, ReadStore, SliceStore, WriteStore};
use parts::write_parts;
use picture::Picture;
use refusal::Refusal;
use sealed::Sealed;
use std::alloc::Global;
use std::io::{BufRead, BufReader, BufWriter, Read, Write};
use std::process::ExitCode;
use std::{env, fs, io};
use tally::Tally;
use teller::Teller;
use wordings::Wordings;

// One byte more than the largest sheet file has: a longer file is seen to be one, and is never read whole.
const MOST: u64 = 39_261;

// The most nodes that a sheet can have: 2,050 at the bottom, and 6 for each of 1,024 vertices taken out.
const MOST_NODES: usize = 8194;

// The first bytes of a file, or of standard input: all of them, where it is no larger than a sheet file can be.
fn read_file(rt: &HostRuntime, path: &str) -> io::Result<Vec<u8>> {
    let mut bytes = Vec::new(rt.alloc());
    if path == INPUT {
        let _ = rt.stdin().take(MOST).read_to_end(&mut bytes)?;
    } else {
        let file = fs::open(rt, path)?;
        let _ = file.take(MOST).read_to_end(&mut bytes)?;
    }
    Ok(bytes)
}

// Loads and checks the sheet of a file, cuts it, and takes rounds until it is sealed.
fn prepare<S: WriteStore>(desk: &mut Desk, store: &mut S, file: &[u8]) -> Result<(), Refusal> {
    desk.load(file)?;
    desk.check()?;
    desk.cut(store)?;
    // A round takes out one vertex at least.
    for _round in 0..desk.size().inner {
        if desk.seal(store).is_ok() {
            return Ok(());
        }
        desk.round(store)?;
    }
    desk.seal(store)
}

// The same; a refusal is told with what clashes.
fn take<S: WriteStore>(
    heap: Global,
    desk: &mut Desk,
    store: &mut S,
    file: &[u8],
) -> Result<(), Failure> {
    let Err(refusal) = prepare(desk, store, file) else {
        return Ok(());
    };
    let words = clash_words(heap, desk, refusal)?;
    Err(Failure::Refused(refusal, words))
}

// Tells and draws what is asked for.
fn carry_out<S: ReadStore>(
    rt: &HostRuntime,
    asked: &Asked<'_>,
    sealed: &mut Sealed<S>,
) -> Result<Tally, Failure> {
    let heap = rt.alloc();
    let mut out = Teller::new(asked.form, BufWriter::new(heap, io::writer(rt))?);
    // It fails where standard output is closed, before the picture's file would take its place.
    document::begin(heap, &mut out, sealed, asked.tips.is_some())?;
    out.flush()?;
    // The tips are opened before a picture is begun that could not be ended without them.
    match asked.tips {
        None => {
            let mut tips: &[u8] = &[];
            tell(rt, asked, sealed, out, &mut tips)
        }
        Some(INPUT) => {
            let mut tips = BufReader::new(heap, rt.stdin())?;
            tell(rt, asked, sealed, out, &mut tips)
        }
        Some(path) => {
            let file = named(heap, path, fs::open(rt, path))?;
            let mut tips = BufReader::new(heap, file)?;
            tell(rt, asked, sealed, out, &mut tips)
        }
    }
}

// The same of tips that are open. The picture takes its name when it is whole, and is removed where something fails.
fn tell<S: ReadStore, W: Write + Drop, R: BufRead>(
    rt: &HostRuntime,
    asked: &Asked<'_>,
    sealed: &mut Sealed<S>,
    out: Teller<W>,
    tips: &mut R,
) -> Result<Tally, Failure> {
    let heap = rt.alloc();
    let Some(path) = asked.svg else {
        let (tally, _) = write_all(heap, asked, sealed, out, None::<Vec<u8>>, tips)?;
        return Ok(tally);
    };
    let (new, file) = NewFile::begin(rt, path)?;
    match write_all(heap, asked, sealed, out, Some(file), tips) {
        Ok((tally, Some(file))) => {
            new.keep(rt, file)?;
            Ok(tally)
        }
        Ok((tally, None)) => {
            new.give_up(rt);
            Ok(tally)
        }
        Err(failure) => {
            new.give_up(rt);
            Err(failure)
        }
    }
}

// Tells all that is asked for, and draws it into a file where there is one, which is given back.
fn write_all<S: ReadStore, W: Write + Drop, P: Write + Drop, R: BufRead>(
    heap: Global,
    asked: &Asked<'_>,
    sealed: &mut Sealed<S>,
    out: Teller<W>,
    file: Option<P>,
    tips: &mut R,
) -> Result<(Tally, Option<P>), Failure> {
    let picture = match file {
        None => None,
        Some(file) => Some(Picture::begin(heap, file, sealed)?),
    };
    let mut report = Report {
        out,
        picture,
        tally: Tally::default(),
    };
    let has_tips = asked.tips.is_some();
    document::write_layers(&mut report.out, sealed, has_tips)?;
    match asked.tips {
        None => write_parts(heap, &mut report.out, sealed)?,
        Some(path) => report.answer_all(heap, sealed, path, tips)?,
    }
    let Report {
        mut out,
        picture,
        tally,
    } = report;
    document::end(heap, &mut out, sealed, tally, has_tips, asked.stats)?;
    let Some(picture) = picture else {
        return Ok((tally, None));
    };
    let counts = if has_tips { Some(tally) } else { None };
    let file = picture.end(heap, sealed, counts)?;
    Ok((tally, Some(file)))
}

// Takes the sheet, and tells what is asked of it.
fn run(rt: &HostRuntime, asked: &Asked<'_>) -> Result<(), Failure> {
    let heap = rt.alloc();
    let path = asked.sheet;
    let file = named(heap, path, read_file(rt, path))?;
    let mut desk = Desk::new(heap, LEAST)?;
    let mut slots = vec![in heap; Node::default(); MOST_NODES]?;
    let mut store = SliceStore::new(slots.as_mut_slice());
    take(heap, &mut desk, &mut store, file.as_slice())?;
    let wordings = Wordings::of(heap, &desk, file.as_slice())?;
    let mut sealed = Sealed {
        desk,
        store,
        wordings,
    };
    let tally = carry_out(rt, asked, &mut sealed)?;
    if asked.strict && (tally.refused > 0 || tally.bad_lines > 0) {
        return Err(Failure::Strict(tally.refused, tally.bad_lines));
    }
    Ok(())
}

// The words that are given to the program, its own name first.
fn given(rt: &HostRuntime) -> Result<Vec<String>, Failure> {
    let words = env::args(rt)?;
    Ok(words.collect(rt.alloc())?)
}

// The status of wrong words, or of help, which are told as the parser tells them.
fn tell_words(rt: &HostRuntime, error: &clap::Error) -> Result<ExitCode, Failure> {
    error.print(rt)?;
    Ok(ExitCode::from(if error.use_stderr() { 2 } else { 0 }))
}

// The status with which the program ends, where nothing fails.
fn status(rt: &HostRuntime) -> Result<ExitCode, Failure> {
    let words = given(rt)?;
    match read_words(rt.alloc(), words.as_slice()) {
        Err(error) => tell_words(rt, &error),
        Ok(asked) => {
            run(rt, &asked)?;
            Ok(ExitCode::SUCCESS)
        }
    }
}

// A failure is told in one line. It ends the program with status 1, and not with an `Err`, which would be printed once more.
fn main(rt: HostRuntime) -> anyhow::Result<ExitCode> {
    match status(&rt) {
        Ok(status) => Ok(status),
        Err(failure) => {
            eprintln!(rt; "label: {failure}")?;
            Ok(ExitCode::FAILURE)
        }
    }
}

#[cfg(test)]
mod tests;
