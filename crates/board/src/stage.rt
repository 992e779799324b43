ghost use Rattle.std.specs.Prelude.{◌≡◌};
ghost use Rattle.board.specs.Turns.{board};

use sheet::Size;

/// How far a sheet has come.
#[derive(Clone, Copy, PartialEq, Eq, Debug)]
pub enum Stage {
    /// Empty, or loaded from a file.
    Draft,
    /// Found to keep every rule.
    Checked,
    /// Cut into triangles, and on its way to two of them.
    Layered,
    /// Ready for tips.
    Sealed,
}

/// One sheet at its stage, as plain numbers; an empty Draft has width 0.
// Plain numbers are the same on every machine: so width 0, which no file has, tells that a Draft is empty, and no `Option`. The counts
// are of tables that are the caller's. It is neither `Copy` nor `Clone`, so that nobody has an old one to put back after a turn.
#[derive(PartialEq, Eq, Debug, Drop)]
pub struct Board {
    pub(crate) stage: Stage,
    pub(crate) size: Size,
    pub(crate) live: u16,
    pub(crate) rounds: u16,
}

impl Board {
    // A board at a stage.
    pub(crate) fn at(stage: Stage, size: Size, live: u16, rounds: u16) -> Board
        ensures { result ≡ board stage size live rounds }
    {
        Board {
            stage,
            size,
            live,
            rounds,
        }
    }

    /// How far the sheet has come.
    pub fn stage(&self) -> Stage
        ensures { result ≡ self.now.stage }
    {
        self.stage
    }

    /// How large the sheet is; all zeros for an empty Draft.
    pub fn size(&self) -> Size
        ensures { result ≡ self.now.size }
    {
        self.size
    }

    /// How many nodes are live.
    pub fn live(&self) -> u16
        ensures { result ≡ self.now.live }
    {
        self.live
    }

    /// How many rounds were granted since the cut; it stays at 65,535.
    pub fn rounds(&self) -> u16
        ensures { result ≡ self.now.rounds }
    {
        self.rounds
    }
}
