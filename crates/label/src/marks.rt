//! The marks of tips: a shape for each kind of answer, and another for a refusal.
use crate::frame::Pixel;
use crate::sealed::Cell;
use crate::teller::At;
use crate::tip::Tip;
use plane::{RationalTip, WholeTip};
use refusal::{Cause, Refusal};
use sheet::Answer;
use std::fmt;
use walk::Found;

/// The point (x/z, y/z), where a tip is.
#[derive(Clone, Copy)]
pub(crate) struct Spot {
    pub(crate) x: u64,
    pub(crate) y: u64,
    pub(crate) z: u64,
}

impl From<Tip> for Spot {
    fn from(tip: Tip) -> Spot {
        match tip {
            Tip::Whole(WholeTip { x, y }) => Spot {
                x: u64::from(x),
                y: u64::from(y),
                z: 1,
            },
            Tip::Rational(RationalTip { x, y, z }) => Spot {
                x,
                y,
                z: u64::from(z),
            },
        }
    }
}

/// A tip with what is told of it.
#[derive(Clone, Copy)]
pub(crate) struct Dot<'a> {
    pub(crate) at: At<'a>,
    pub(crate) spot: Spot,
    pub(crate) told: Result<Found, Refusal>,
}

impl Dot<'_> {
    /// Whether the tip has a place: one that is refused for its numbers has none.
    pub(crate) fn has_place(&self) -> bool {
        match self.told {
            Ok(_) => true,
            Err(refusal) => refusal.cause == Cause::OffSheet,
        }
    }

    /// What the mark stands for.
    pub(crate) fn mark(&self, at: Pixel) -> Mark {
        let sign = match self.told {
            Ok(found) => Sign::Held(found.answer),
            Err(refusal) => Sign::Refused(refusal.cause.number()),
        };
        Mark { at, sign }
    }
}

/// What holds a tip, or why it is refused.
impl fmt::Display for Dot<'_> {
    fn fmt<W: fmt::Write>(&self, f: &mut fmt::Formatter<W>) -> fmt::Result {
        let At { line, tip, .. } = self.at;
        write!(f, "line {line}, {tip}: ")?;
        match self.told {
            Ok(Found { answer, tests }) => {
                let cell = Cell(answer);
                write!(f, "{cell}, {tests} tests")
            }
            Err(refusal) => write!(f, "{refusal}"),
        }
    }
}

/// What a mark stands for.
#[derive(Clone, Copy, PartialEq, Eq)]
pub(crate) enum Sign {
    Held(Answer),
    Refused(u8),
}

impl Sign {
    /// Whether it stands for an answer.
    pub(crate) fn is_held(self) -> bool {
        match self {
            Sign::Held(_) => true,
            Sign::Refused(_) => false,
        }
    }
}

/// A mark that is drawn, which labels keep clear of.
#[derive(Clone, Copy)]
pub(crate) struct Mark {
    pub(crate) at: Pixel,
    pub(crate) sign: Sign,
}

/// The words beside a mark that is in no face.
impl fmt::Display for Sign {
    fn fmt<W: fmt::Write>(&self, f: &mut fmt::Formatter<W>) -> fmt::Result {
        match *self {
            Sign::Held(answer) => {
                let cell = Cell(answer);
                write!(f, "{cell}")
            }
            Sign::Refused(number) => write!(f, "refused {number}"),
        }
    }
}

/// The shape of a kind of mark, around the point 0.
pub(crate) fn shape(sign: Sign) -> &'static str {
    match sign {
        Sign::Held(Answer::Face(_)) => "<circle r='6' fill='#1565c0'",
        Sign::Held(Answer::OpenEdge(_, _)) => "<path d='M-6-6H6V6H-6Z' fill='#e65100'",
        Sign::Held(Answer::Vertex(_)) => "<path d='M0-8L8 6H-8Z' fill='#2e7d32'",
        Sign::Refused(_) => "<path d='M-6-6L6 6M-6 6L6-6' fill='none'",
    }
}

/// The colour of a shape's border.
pub(crate) fn border(sign: Sign) -> &'static str {
    match sign {
        Sign::Held(_) => "stroke='white' stroke-width='1.5'",
        Sign::Refused(_) => "stroke='#c62828' stroke-width='3'",
    }
}
