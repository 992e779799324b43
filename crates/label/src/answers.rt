//! The answers of tips: a row for each, and a mark in the picture.
use crate::failure::{Failure, named};
use crate::list::TipList;
use crate::marks::{Dot, Spot};
use crate::picture::Picture;
use crate::sealed::Sealed;
use crate::tally::Tally;
use crate::teller::{At, Shown, Teller};
use crate::tip::Tip;
use crate::tips::{next_line, read_tip};
use nodes::ReadStore;
use refusal::Refusal;
use std::alloc::Global;
use std::io::{BufRead, Write};
use walk::Found;

/// Where the answers go: to a teller row by row, into a picture where one is wanted, and into the counts.
#[derive(Drop)]
pub(crate) struct Report<W: Write + Drop, P> {
    pub(crate) out: Teller<W>,
    pub(crate) picture: Option<Picture<P>>,
    pub(crate) tally: Tally,
}

impl<W: Write + Drop, P: Write> Report<W, P> {
    /// Answers the tips of a file in lists, in the order of the file, and keeps no more of them than a list holds.
    pub(crate) fn answer_all<S: ReadStore, R: BufRead>(
        &mut self,
        heap: Global,
        sealed: &mut Sealed<S>,
        path: &str,
        tips: &mut R,
    ) -> Result<(), Failure> {
        self.write_head(sealed)?;
        let mut list = TipList::new(heap)?;
        let mut line = Vec::new(heap);
        for number in 1..u64::MAX {
            match next_line(tips, &mut line) {
                Ok(true) => self.take_line(heap, sealed, &mut list, number, line.as_slice())?,
                Ok(false) => break,
                Err(e) => {
                    self.flush(heap, sealed, &mut list)?;
                    return named(heap, path, Err(e));
                }
            }
        }
        self.flush(heap, sealed, &mut list)
    }

    // Gathers the tip of a line, where it has one. A bad line is told after the tips before it, so it ends their list.
    fn take_line<S: ReadStore>(
        &mut self,
        heap: Global,
        sealed: &mut Sealed<S>,
        list: &mut TipList,
        number: u64,
        line: &[u8],
    ) -> Result<(), Failure> {
        match read_tip(line) {
            Ok(None) => Ok(()),
            Ok(Some(tip)) => {
                list.push(tip, number)?;
                if list.is_full() {
                    self.flush(heap, sealed, list)?;
                }
                Ok(())
            }
            Err(error) => {
                self.flush(heap, sealed, list)?;
                self.tally.bad_line();
                self.out.tell_bad_line(heap, number, error)
            }
        }
    }

    // Answers the tips that are gathered, tells their answers, and empties the list.
    fn flush<S: ReadStore>(
        &mut self,
        heap: Global,
        sealed: &mut Sealed<S>,
        list: &mut TipList,
    ) -> Result<(), Failure> {
        list.answer(sealed);
        let mut place = list.earlier as u64;
        let asked = list.tips.iter().zip(list.lines.iter());
        for ((tip, line), answer) in asked.zip(list.answers.iter()) {
            // As text, since what prints a tip takes no width.
            let text = format!(in heap; "{tip}")?;
            let at = At {
                line: *line,
                place,
                tip: text.as_str(),
            };
            match *answer {
                Ok(found) => self.tell(heap, sealed, at, *tip, found)?,
                Err(refusal) => self.tell_refused(heap, at, *tip, list.in_file(refusal))?,
            }
            place = place.saturating_add(1);
        }
        list.clear();
        Ok(())
    }

    // The columns' names. No more tips are held than a list has, so the columns are as wide as most tips and all cells and wordings need.
    fn write_head<S: ReadStore>(&mut self, sealed: &Sealed<S>) -> Result<(), Failure> {
        let room = sealed.wordings.room;
        match &mut self.out {
            Teller::Table(out) => Ok(writeln!(
                out,
                "{:>4}  {:>5}  {:<15}  {:<17}  {:>7}  {:<room$}  tests",
                "line", "place", "tip", "cell", "numeral", "wording"
            )?),
            _ => Ok(()),
        }
    }

    fn tell<S: ReadStore>(
        &mut self,
        heap: Global,
        sealed: &Sealed<S>,
        at: At<'_>,
        tip: Tip,
        found: Found,
    ) -> Result<(), Failure> {
        self.tally.answered(found);
        let numeral = sealed.numeral(found.answer);
        let shown = Shown {
            numeral,
            wording: sealed.wording(numeral),
            room: sealed.wordings.room,
        };
        self.out.tell(heap, at, found, shown)?;
        let Some(picture) = &mut self.picture else {
            return Ok(());
        };
        picture.draw(&Dot {
            at,
            spot: Spot::from(tip),
            told: Ok(found),
        })
    }

    fn tell_refused(
        &mut self,
        heap: Global,
        at: At<'_>,
        tip: Tip,
        refusal: Refusal,
    ) -> Result<(), Failure> {
        self.tally.refused();
        self.out.tell_refused(heap, at, refusal)?;
        let Some(picture) = &mut self.picture else {
            return Ok(());
        };
        picture.draw(&Dot {
            at,
            spot: Spot::from(tip),
            told: Err(refusal),
        })
    }
}
