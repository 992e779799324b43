//! Tips that are given as text.
use anyhow::anyhow;
use plane::{RationalTip, WholeTip};
use std::alloc::Global;
use std::str::SplitWhitespace;

/// A tip, with the kernel that takes it.
#[derive(Clone, Copy)]
pub(crate) enum Tip {
    Whole(WholeTip),
    Rational(RationalTip),
    /// Left of the sheet or below it: no kernel takes it.
    Off,
}

fn number(words: &mut SplitWhitespace<'_>) -> anyhow::Result<i64> {
    let Some(word) = words.next() else {
        return Err(anyhow!("the text ends too early"));
    };
    Ok(word.parse::<i64>()?)
}

// The tip at (X/Z, Y/Z).
fn tip_at(x: i64, y: i64, z: i64) -> Tip {
    let (Ok(x), Ok(y), Ok(z)) = (u64::try_from(x), u64::try_from(y), u64::try_from(z)) else {
        return Tip::Off;
    };
    if z == 1
        && let (Ok(x), Ok(y)) = (u16::try_from(x), u16::try_from(y))
    {
        return Tip::Whole(WholeTip { x, y });
    }
    let Ok(z) = u32::try_from(z) else {
        return Tip::Off;
    };
    Tip::Rational(RationalTip { x, y, z })
}

/// The tips of a text: `tips N`, and N times `X Y Z`.
pub(crate) fn tips_of(heap: Global, text: &str) -> anyhow::Result<Vec<Tip>> {
    let mut words = text.split_whitespace();
    if words.next() != Some("tips") {
        return Err(anyhow!("the text of tips begins with `tips`"));
    }
    let count = number(&mut words)?;
    let mut tips = Vec::new(heap);
    for _tip in 0..count {
        let x = number(&mut words)?;
        let y = number(&mut words)?;
        let z = number(&mut words)?;
        tips.push(tip_at(x, y, z))?;
    }
    Ok(tips)
}
