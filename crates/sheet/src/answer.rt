//! What a tip is answered with.
ghost use Rattle.std.specs.Prelude.{◌≡◌};
ghost use Rattle.sheet.specs.Answers.{values as values_of};

/// The one cell that holds a tip.
#[derive(Clone, Copy, PartialEq, Eq, Debug)]
pub enum Answer {
    /// A vertex.
    Vertex(u16),
    /// An edge of the sheet without its ends, the lower vertex first.
    OpenEdge(u16, u16),
    /// The face of a loop.
    Face(u16),
}

/// The three numbers that stand for an answer wherever it is printed or kept.
impl From<Answer> for (u16, u16, u16) {
    ghost from_gives = { λ answer numbers. numbers ≡ values_of answer };

    fn from(answer: Answer) -> (u16, u16, u16) {
        match answer {
            Answer::Vertex(v) => (1, v, 0),
            Answer::OpenEdge(u, v) => (2, u, v),
            Answer::Face(l) => (3, l, 0),
        }
    }
}

impl Answer {
    /// The three numbers that stand for the answer wherever it is printed or kept.
    pub fn values(self) -> (u16, u16, u16)
        ensures { result ≡ values_of self }
    {
        self.into()
    }
}
