//! Plays turns from standard input on one board, and prints a line for each outcome; and what the kernels tell of tips.
#![tactic(auto)]

mod alter;
mod kernels;
mod line;
mod placed;
mod table;
mod taken;
mod words;

use desk::LEAST;
use line::{MOST_LINE, next_line};
use std::io::BufReader;
use table::Table;

fn run(rt: &HostRuntime) -> anyhow::Result<()> {
    let heap = rt.alloc();
    let mut table = Table::new(heap, LEAST)?;
    let mut input = BufReader::new(heap, rt.stdin())?;
    let mut line = Vec::new(heap);
    for _line in 0..u64::MAX {
        if !next_line(&mut input, &mut line)? {
            break;
        }
        play_line(rt, &mut table, line.as_slice())?;
    }
    Ok(())
}

// Plays the command of a line; a blank line and a comment have none.
fn play_line(rt: &HostRuntime, table: &mut Table, line: &[u8]) -> anyhow::Result<()> {
    if matches!(line, [] | [b'\r'] | [b'#', ..]) {
        return Ok(());
    }
    if line.len() > MOST_LINE {
        return Ok(rt.println("too long a line")?);
    }
    match str::from_utf8(line) {
        Ok(text) => table.play(rt, text.strip_suffix('\r').unwrap_or(text)),
        Err(_) => Ok(rt.println("no such text")?),
    }
}

fn main(rt: HostRuntime) -> anyhow::Result<()> {
    run(&rt)
}
