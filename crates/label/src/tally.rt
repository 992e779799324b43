//! The counts of answers.
use crate::decimal::Hundredths;
use sheet::Answer;
use std::fmt;
use walk::Found;

/// How many tips were answered in each way, how many lines were bad, and what the answers cost.
#[derive(Clone, Copy, PartialEq, Eq, Debug, Default)]
pub(crate) struct Tally {
    pub(crate) faces: u64,
    pub(crate) edges: u64,
    pub(crate) vertices: u64,
    pub(crate) refused: u64,
    pub(crate) bad_lines: u64,
    pub(crate) tests: u64,
    pub(crate) worst: u32,
}

// A count ends at the largest number, which no file has so many lines to reach.
fn count(of: &mut u64) {
    *of = of.saturating_add(1);
}

impl Tally {
    /// Counts an answer.
    pub(crate) fn answered(&mut self, found: Found) {
        match found.answer {
            Answer::Face(_) => count(&mut self.faces),
            Answer::OpenEdge(_, _) => count(&mut self.edges),
            Answer::Vertex(_) => count(&mut self.vertices),
        }
        self.tests = self.tests.saturating_add(u64::from(found.tests));
        self.worst = self.worst.max(found.tests);
    }

    /// Counts a refused tip.
    pub(crate) fn refused(&mut self) {
        count(&mut self.refused);
    }

    /// Counts a bad line.
    pub(crate) fn bad_line(&mut self) {
        count(&mut self.bad_lines);
    }

    /// How many tips there were.
    pub(crate) fn tips(&self) -> u64 {
        self.answers().saturating_add(self.refused)
    }

    // How many tips were answered.
    fn answers(&self) -> u64 {
        self.faces
            .saturating_add(self.edges)
            .saturating_add(self.vertices)
    }
}

/// The counts of all five kinds, in one line.
impl fmt::Display for Tally {
    fn fmt<W: fmt::Write>(&self, f: &mut fmt::Formatter<W>) -> fmt::Result {
        let tips = Counted(self.tips(), "tip", "tips");
        let faces = Counted(self.faces, "in a face", "in faces");
        let edges = Counted(self.edges, "on an edge", "on edges");
        let vertices = Counted(self.vertices, "at a vertex", "at vertices");
        let refused = self.refused;
        let bad = Counted(self.bad_lines, "bad line", "bad lines");
        write!(
            f,
            "{tips}: {faces}, {edges}, {vertices}, {refused} refused; {bad}"
        )
    }
}

// A count before its noun, which is the first for 1 and else the second.
#[derive(Clone, Copy)]
struct Counted(u64, &'static str, &'static str);

impl fmt::Display for Counted {
    fn fmt<W: fmt::Write>(&self, f: &mut fmt::Formatter<W>) -> fmt::Result {
        let Counted(count, one, many) = *self;
        let noun = if count == 1 { one } else { many };
        write!(f, "{count} {noun}")
    }
}

/// What the answers of a tally cost: the worst and the mean count of tests, and dashes where there is no answer.
#[derive(Clone, Copy)]
pub(crate) struct Cost(pub(crate) Tally);

impl fmt::Display for Cost {
    fn fmt<W: fmt::Write>(&self, f: &mut fmt::Formatter<W>) -> fmt::Result {
        let tally = self.0;
        let answers = tally.answers();
        if answers == 0 {
            return write!(f, "worst tests -, mean tests -");
        }
        let worst = tally.worst;
        let mean = Hundredths(tally.tests, answers);
        write!(f, "worst tests {worst}, mean tests {mean}")
    }
}

#[cfg(test)]
mod tests {
    use super::*;
    use std::test::Fail;

    #[test]
    fn counts_are_told(rt: HostRuntime) -> Result<(), Fail> {
        let mut tally = Tally::default();
        let told = format!(in rt.alloc(); "{tally}; {}", Cost(tally))?;
        assert_eq!(rt;
            told.as_str(),
            "0 tips: 0 in faces, 0 on edges, 0 at vertices, 0 refused; 0 bad lines; worst tests -, mean tests -"
        );
        for (answer, tests) in [
            (Answer::Face(3), 5),
            (Answer::OpenEdge(1, 4), 6),
            (Answer::Vertex(2), 9),
        ] {
            tally.answered(Found { answer, tests });
        }
        tally.refused();
        tally.bad_line();
        let told = format!(in rt.alloc(); "{tally}; {}", Cost(tally))?;
        assert_eq!(rt;
            told.as_str(),
            "4 tips: 1 in a face, 1 on an edge, 1 at a vertex, 1 refused; 1 bad line; worst tests 9, mean tests 6.67"
        );
        Ok(())
    }
}
