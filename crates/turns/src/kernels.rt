//! What the kernels tell of tips.
use crate::placed::Spelled;
use crate::words::number;
use plane::{Kernel, Point};
use std::fmt::Display;
use std::str::Split;

// What a tip is held against: a sheet and a line.
#[derive(Clone, Copy)]
struct Frame {
    width: u16,
    height: u16,
    from: Point,
    to: Point,
}

// The point that the next words spell; none where one is no number of it.
fn read_point(words: &mut Split<'_, char>) -> Option<Point> {
    let x = number(words)?;
    let y = number(words)?;
    Some(Point { x, y })
}

// The sheet and the line that the next words spell.
fn read_frame(words: &mut Split<'_, char>) -> Option<Frame> {
    let width = number(words)?;
    let height = number(words)?;
    let from = read_point(words)?;
    let to = read_point(words)?;
    Some(Frame {
        width,
        height,
        from,
        to,
    })
}

/// Prints whether the tip that the next words spell is fit, its side of a line, and whether it is on a sheet.
pub(crate) fn tell<T: Kernel + Spelled + Drop>(
    rt: &HostRuntime,
    words: &mut Split<'_, char>,
) -> anyhow::Result<()> {
    let (Some(tip), Some(frame)) = (T::read(words), read_frame(words)) else {
        return Ok(rt.println("no such number")?);
    };
    let fit = if tip.fit() { "fit" } else { "unfit" };
    let side = tip.side(frame.from, frame.to).number();
    let on = if tip.on_sheet(frame.width, frame.height) {
        "yes"
    } else {
        "no"
    };
    println!(rt; "ok {fit} side {side} on {on}")?;
    Ok(())
}

/// Prints the tip at the whole point that the next words spell, or that there is none.
pub(crate) fn make<T: Kernel + Display + Drop>(
    rt: &HostRuntime,
    words: &mut Split<'_, char>,
) -> anyhow::Result<()> {
    let Some(at) = read_point(words) else {
        return Ok(rt.println("no such number")?);
    };
    match T::make(at) {
        None => Ok(rt.println("ok none")?),
        Some(tip) => {
            println!(rt; "ok {tip}")?;
            Ok(())
        }
    }
}
