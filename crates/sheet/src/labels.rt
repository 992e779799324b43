//! The labels of a sheet file, and its end.
ghost use Rattle.std.specs.Prelude.{◌≡◌, ◌+◌, ◌<◌, ◌≤◌, true, false, List, length, IfOk, Ok as Good, slice_index_or, slice_set};
ghost use Rattle.sheet.specs.declared.tables.Label.{Label as LabelOf};
ghost use Rattle.sheet.specs.Files.{find_wanted, label as label_of, labels as labels_of, Marked, Within};
ghost use Rattle.reader.specs.Reading.{and_then, placed};

use crate::tables::Label;
use reader::{Reader, fault};
use refusal::{Cause, Refusal};

// One label; the flags mark the numerals of those before it, and then its own too.
#[tactic(auto, unfolding(crate::specs::Files::label))]
fn read_label(reader: &mut Reader<'_>, seen: &mut [bool; 256]) -> Result<Label, Refusal>
    ensures value { (before : List LabelOf) → Marked seen.old before → placed result reader.new.at ≡ label_of reader.old.file.now before reader.old.at }
    ensures seen { IfOk result (λ l. (l.numeral < 256) × (slice_index_or seen.old l.numeral false ≡ false) × (seen.new ≡ slice_set seen.old l.numeral true)) }
    ensures within { IfOk result (λ l. l.place + l.length ≤ length reader.old.file.now) }
    ensures file { reader.new.file.now ≡ reader.old.file.now }
{
    let at = reader.place();
    let numeral = reader.label_numeral()?;
    if seen[usize::from(numeral)] {
        return Err(fault(Cause::BadNumeral, at));
    }
    let length = reader.wording_length()?;
    let place = reader.place();
    let _text = reader.wording(length)?;
    seen[usize::from(numeral)] = true;
    Ok(Label {
        numeral,
        place,
        length,
    })
}

/// Reads the labels to the end of the file, and answers the one of the wanted numeral, if one is wanted.
#[tactic(auto, unfolding(crate::specs::Files::labels))]
pub(crate) fn read_labels(
    reader: &mut Reader<'_>,
    wanted: Option<u16>,
) -> Result<Option<Label>, Refusal>
    ensures value { result ≡ and_then (labels_of reader.old.file.now reader.old.at) (λ ls. Good (find_wanted wanted ls)) }
    ensures within { IfOk result (Within reader.old.file.now) }
{
    let count = reader.count(255)?;
    // Flags by numeral, and no set: nothing here allocates.
    let mut seen = [false; 256];
    let mut found = None;
    for _done in 0..count {
        let label = read_label(reader, &mut seen)?;
        if wanted == Some(label.numeral) {
            found = Some(label);
        }
    }
    reader.finish()?;
    Ok(found)
}
