//! A tip of a file, whole or rational, so that one list takes both.
ghost use Rattle.label.specs.Printed.{tip_words};
ghost use Rattle.label.specs.Tips.{tip_point};
ghost use Rattle.std.specs.Prelude.{Some};
ghost use Rattle.std.proofs.Common.{rules};

use plane::{Kernel, Point, RationalTip, Side, WholeTip};
use std::fmt;

/// A tip as its line has it: how many numbers there are tells its kernel.
#[derive(Clone, Copy, PartialEq, Eq, Debug)]
pub(crate) enum Tip {
    Whole(WholeTip),
    Rational(RationalTip),
}

impl fmt::Display for Tip {
    ghost output = { λ tip. Some (tip_words tip) };

    fn fmt<W: fmt::Write>(&self, f: &mut fmt::Formatter<W>) -> fmt::Result {
        match self {
            Tip::Whole(tip) => tip.fmt(f),
            Tip::Rational(tip) => tip.fmt(f),
        }
    }
}

/// Each case as its own kernel takes it; a tip that is made is whole.
impl Kernel for Tip {
    ghost means = { tip_point };

    ghost scaled = { Prim.search rules };

    fn fit(&self) -> bool {
        match self {
            Tip::Whole(tip) => tip.fit(),
            Tip::Rational(tip) => tip.fit(),
        }
    }

    fn side(&self, a: Point, b: Point) -> Side {
        match self {
            Tip::Whole(tip) => tip.side(a, b),
            Tip::Rational(tip) => tip.side(a, b),
        }
    }

    fn on_sheet(&self, width: u16, height: u16) -> bool {
        match self {
            Tip::Whole(tip) => tip.on_sheet(width, height),
            Tip::Rational(tip) => tip.on_sheet(width, height),
        }
    }

    fn make(a: Point) -> Option<Tip> {
        Some(Tip::Whole(WholeTip::make(a)?))
    }
}
