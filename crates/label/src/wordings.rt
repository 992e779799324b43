//! The wordings of a sheet's numerals, found once.
use desk::Desk;
use sheet::{Answer, wording};
use std::alloc::{AllocError, Global};
use std::collections::BTreeMap;

/// The wording of each numeral that a loop has, where a label gives it one.
// The file is read once for each numeral, and not for each loop or each tip.
#[derive(Drop)]
pub(crate) struct Wordings {
    by_numeral: BTreeMap<u16, Option<String>>,
    /// How many characters the longest wording has, and 7 at least: the head of its column.
    pub(crate) room: usize,
}

impl Wordings {
    /// The wordings of the numerals of a desk's loops, which the file gives.
    pub(crate) fn of(heap: Global, desk: &Desk, file: &[u8]) -> Result<Wordings, AllocError> {
        let mut by_numeral = BTreeMap::new(heap);
        let mut room = 7;
        for (number, entry) in (0..desk.size().loops).zip(desk.loops.iter()) {
            if !by_numeral.contains_key(&entry.numeral) {
                let text = wording_text(heap, file, number)?;
                room = text.as_ref().map_or(room, |text| text.len().max(room));
                let _ = by_numeral.insert(entry.numeral, text)?;
            }
        }
        Ok(Wordings { by_numeral, room })
    }

    /// The wording of a numeral.
    pub(crate) fn get(&self, numeral: u16) -> Option<&str> {
        match self.by_numeral.get(&numeral) {
            Some(Some(text)) => Some(text.as_str()),
            _ => None,
        }
    }
}

// The wording of a loop's face.
fn wording_text(heap: Global, file: &[u8], number: u16) -> Result<Option<String>, AllocError> {
    let Ok(Some(part)) = wording(file, Answer::Face(number)) else {
        return Ok(None);
    };
    Ok(Some(String::from_utf8_lossy(heap, part.bytes)?))
}
