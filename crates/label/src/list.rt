//! The tips of a file in lists.
use crate::sealed::Sealed;
use crate::tip::Tip;
use nodes::ReadStore;
use refusal::{Cause, Refusal};
use sheet::Answer;
use std::alloc::{AllocError, Global};
use walk::Found;

/// The most tips that a list holds.
const MOST_TIPS: usize = 1024;

/// The tips that are gathered for the next list, and a table for its answers.
#[derive(Drop)]
pub(crate) struct TipList {
    pub(crate) tips: Vec<Tip>,
    /// The line of each tip in the file, counted from 1.
    pub(crate) lines: Vec<u64>,
    pub(crate) answers: Vec<Result<Found, Refusal>>,
    /// How many tips of the file earlier lists held.
    pub(crate) earlier: usize,
}

impl TipList {
    /// A list with no tip, the first of a file.
    pub(crate) fn new(heap: Global) -> Result<TipList, AllocError> {
        let unasked = Found {
            answer: Answer::Vertex(0),
            tests: 0,
        };
        Ok(TipList {
            tips: Vec::with_capacity(heap, MOST_TIPS)?,
            lines: Vec::with_capacity(heap, MOST_TIPS)?,
            answers: vec![in heap; Ok(unasked); MOST_TIPS]?,
            earlier: 0,
        })
    }

    /// Adds the tip of a line at the end.
    pub(crate) fn push(&mut self, tip: Tip, line: u64) -> Result<(), AllocError> {
        self.lines.push(line)?;
        self.tips.push(tip)?;
        Ok(())
    }

    /// Whether the list holds as many tips as it may.
    pub(crate) fn is_full(&self) -> bool {
        self.tips.len() >= MOST_TIPS
    }

    /// Answers the tips in their order. A list that is refused as a whole refuses each of them.
    pub(crate) fn answer<S: ReadStore>(&mut self, sealed: &mut Sealed<S>) {
        let answers = self.answers.as_mut_slice();
        if let Err(refusal) = sealed.list(self.tips.as_slice(), answers) {
            answers.fill(Err(refusal));
        }
    }

    /// Empties the list for the tips that follow in the file.
    pub(crate) fn clear(&mut self) {
        self.earlier = self.earlier.saturating_add(self.tips.len());
        self.tips.clear();
        self.lines.clear();
    }

    /// A refusal of this list as it is printed: the place of a tip that is refused is its position among all tips of the file, counted from 0.
    // The refusal has the tip's position in its list, so what earlier lists held is added.
    pub(crate) fn in_file(&self, refusal: Refusal) -> Refusal {
        let place = match refusal.cause {
            Cause::UnfitTip | Cause::OffSheet => self.earlier.saturating_add(refusal.place),
            _ => refusal.place,
        };
        Refusal { place, ..refusal }
    }
}

#[cfg(test)]
mod tests {
    use super::*;
    use plane::{Kernel, Point};
    use refusal::Layer;
    use std::test::Fail;

    #[test]
    fn places_go_on_in_the_next_list(rt: HostRuntime) -> Result<(), Fail> {
        let mut list = TipList::new(rt.alloc())?;
        let tip = Tip::make(Point { x: 6, y: 5 }).ok_or("too far")?;
        for _ in 0..MOST_TIPS {
            assert!(rt; !list.is_full());
            list.push(tip, 7)?;
        }
        assert!(rt; list.is_full());
        list.clear();
        assert!(rt; !list.is_full());
        for (cause, place) in [
            (Cause::UnfitTip, 1027),
            (Cause::OffSheet, 1027),
            (Cause::OutOfRange, 3),
        ] {
            let refusal = Refusal {
                cause,
                layer: Layer::Place,
                place: 3,
            };
            assert_eq!(rt; list.in_file(refusal).place, place);
        }
        list.push(tip, 7)?;
        list.clear();
        let third = Refusal::new(Cause::OffSheet, Layer::Place, 3);
        assert_eq!(rt; list.in_file(third).place, 1028);
        Ok(())
    }
}
