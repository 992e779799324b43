//! The labels of a picture, with their leader lines.
use crate::anchors::{anchor, are_in_face, bounds};
use crate::failure::Failure;
use crate::frame::{Frame, Pixel};
use crate::layout::{Area, Layout, close};
use crate::marks::{Mark, Sign};
use crate::sealed::Sealed;
use nodes::ReadStore;
use sheet::Answer;
use std::alloc::Global;
use std::fmt;
use std::io::Write;

/// A picture in which labels are placed.
#[derive(Drop)]
pub(crate) struct Labels<W> {
    pub(crate) heap: Global,
    pub(crate) out: W,
    pub(crate) frame: Frame,
    pub(crate) layout: Layout,
}

// Where a face's label stands, whether that is in the face, and whether there is room for the wording.
#[derive(Clone, Copy)]
struct Room {
    area: Area,
    is_inside: bool,
    has_words: bool,
}

impl<W: Write> Labels<W> {
    /// Draws the labels of faces, and then the names of the marks that are in none; how many have no room.
    pub(crate) fn draw<S: ReadStore>(
        &mut self,
        sealed: &mut Sealed<S>,
        marks: &[Mark],
    ) -> Result<u64, Failure> {
        for mark in marks {
            self.layout.keep_clear(mark.at);
        }
        let mut left_out = 0u64;
        for ring in 0..sealed.desk.size().loops {
            if !self.label_face(sealed, ring, marks)? {
                left_out = left_out.saturating_add(1);
            }
        }
        for mark in marks {
            if !self.name_mark(*mark)? {
                left_out = left_out.saturating_add(1);
            }
        }
        Ok(left_out)
    }

    // The label of a face that has a numeral; whether it has a place, or needs none.
    fn label_face<S: ReadStore>(
        &mut self,
        sealed: &mut Sealed<S>,
        ring: u16,
        marks: &[Mark],
    ) -> Result<bool, Failure> {
        let Some(numeral) = sealed.numeral(Answer::Face(ring)) else {
            return Ok(true);
        };
        let heap = self.heap;
        let number = format!(in heap; "{numeral}")?;
        let whole = match sealed.wording(Some(numeral)) {
            Some(wording) => format!(in heap; "{numeral} {wording}")?,
            None => format!(in heap; "{numeral}")?,
        };
        let (number, whole) = (number.as_str(), whole.as_str());
        let at = self.frame.pixel(anchor(sealed, ring));
        let Some(room) = self.find_room(sealed, ring, at, whole.len(), number.len())? else {
            return Ok(false);
        };
        let has_leader = self.lead_to_tips(ring, room.area, marks)?;
        if !has_leader && !room.is_inside {
            self.lead(room.area, at)?;
        }
        self.write(room.area, if room.has_words { whole } else { number })?;
        Ok(true)
    }

    // Where the label of a face stands: with its words in the face, else with them beside it, and else without them.
    fn find_room<S: ReadStore>(
        &mut self,
        sealed: &mut Sealed<S>,
        ring: u16,
        at: Pixel,
        whole: usize,
        number: usize,
    ) -> Result<Option<Room>, Failure> {
        for (letters, most, has_words) in [(whole, 8, true), (number, 6, false)] {
            let (area, is_inside) = match self.inside(sealed, ring, at, letters)? {
                Some(area) => (Some(area), true),
                None => (self.layout.beside(at, letters, most), false),
            };
            if let Some(area) = area {
                return Ok(Some(Room {
                    area,
                    is_inside,
                    has_words,
                }));
            }
        }
        Ok(None)
    }

    // A free area in a face, near a pixel.
    fn inside<S: ReadStore>(
        &mut self,
        sealed: &mut Sealed<S>,
        ring: u16,
        at: Pixel,
        letters: usize,
    ) -> Result<Option<Area>, Failure> {
        let bounds = bounds(sealed, self.frame, ring, at);
        for area in close(self.heap, at, letters, &bounds)? {
            if self.layout.is_free(&area) && are_in_face(sealed, self.frame, ring, area.corners()) {
                return Ok(Some(area));
            }
        }
        Ok(None)
    }

    // Leader lines to the tips in a face; whether there is one.
    fn lead_to_tips(&mut self, ring: u16, area: Area, marks: &[Mark]) -> Result<bool, Failure> {
        let mut has_leader = false;
        for mark in marks {
            if mark.sign == Sign::Held(Answer::Face(ring)) {
                self.lead(area, mark.at)?;
                has_leader = true;
            }
        }
        Ok(has_leader)
    }

    // The name of a mark that is in no face; whether it has a place, or needs none.
    fn name_mark(&mut self, mark: Mark) -> Result<bool, Failure> {
        if matches!(mark.sign, Sign::Held(Answer::Face(_))) {
            return Ok(true);
        }
        let name = format!(in self.heap; "{}", mark.sign)?;
        let name = name.as_str();
        let Some(area) = self.layout.beside(mark.at, name.len(), 6) else {
            return Ok(false);
        };
        self.lead(area, mark.at)?;
        self.write(area, name)?;
        Ok(true)
    }

    // A leader line from a label to a pixel.
    fn lead(&mut self, area: Area, to: Pixel) -> Result<(), Failure> {
        let from = area.nearest(to);
        writeln!(
            self.out,
            "<path class='leader' d='M{} {}L{} {}'/>",
            from.left, from.top, to.left, to.top
        )?;
        Ok(())
    }

    // The words of a label in its area, which is taken then.
    fn write(&mut self, area: Area, words: &str) -> Result<(), Failure> {
        self.layout.take(area);
        let left = area.left.saturating_add(4);
        let row = area.bottom.saturating_sub(6);
        let words = Escaped(words);
        writeln!(
            self.out,
            "<text class='label' x='{left}' y='{row}'>{words}</text>"
        )?;
        Ok(())
    }
}

// Text with the characters that mean something in XML spelled out.
#[derive(Clone, Copy)]
pub(crate) struct Escaped<'a>(pub(crate) &'a str);

impl fmt::Display for Escaped<'_> {
    fn fmt<W: fmt::Write>(&self, f: &mut fmt::Formatter<W>) -> fmt::Result {
        for letter in self.0.chars() {
            match letter {
                '&' => f.write_str("&amp;")?,
                '<' => f.write_str("&lt;")?,
                '>' => f.write_str("&gt;")?,
                '"' => f.write_str("&quot;")?,
                '\'' => f.write_str("&apos;")?,
                _ => write!(f, "{letter}")?,
            }
        }
        Ok(())
    }
}
