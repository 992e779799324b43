//! Tips as the words of a script spell them, and lists of them.
ghost use Rattle.std.specs.Prelude.{◌<◌};

use crate::words::number;
use plane::{RationalTip, WholeTip};
use std::alloc::{AllocError, Global};
use std::str::Split;

/// A tip as words spell it. It is no `FromStr`, since each takes several words.
pub(crate) trait Spelled: Sized {
    /// How many words spell one.
    fn words() -> usize
        ensures { 0 < result };

    /// The tip that the next words spell; none where one is no number of it.
    fn read(words: &mut Split<'_, char>) -> Option<Self>;
}

impl Spelled for WholeTip {
    fn words() -> usize {
        2
    }

    fn read(words: &mut Split<'_, char>) -> Option<WholeTip> {
        let x = number(words)?;
        let y = number(words)?;
        Some(WholeTip { x, y })
    }
}

impl Spelled for RationalTip {
    fn words() -> usize {
        3
    }

    fn read(words: &mut Split<'_, char>) -> Option<RationalTip> {
        let x = number(words)?;
        let y = number(words)?;
        let z = number(words)?;
        Some(RationalTip { x, y, z })
    }
}

/// Tips, and into a table of how many entries they are to be answered.
#[derive(Drop)]
pub(crate) struct Listed<K> {
    pub(crate) tips: Vec<K>,
    pub(crate) entries: usize,
}

/// The list that all the next words ask for: a count of entries, and tips; or what is printed where they spell none.
// The words of tips are counted before any is read, so that what is printed of a wrong count does not depend on what they are.
pub(crate) fn list_of<K: Spelled + Drop>(
    heap: Global,
    words: &mut Split<'_, char>,
) -> Result<Result<Listed<K>, &'static str>, AllocError> {
    let Some(entries) = number::<u16>(words) else {
        return Ok(Err("no such number"));
    };
    let count = words.clone()?.count();
    if count % K::words() != 0 {
        return Ok(Err("no such tips"));
    }
    let mut tips = Vec::new(heap);
    for _ in 0..count / K::words() {
        let Some(tip) = K::read(words) else {
            return Ok(Err("no such number"));
        };
        tips.push(tip)?;
    }
    let entries = usize::from(entries);
    Ok(Ok(Listed { tips, entries }))
}
