//! Turns as values, and what each leads to.
use refusal::Refusal;
use walk::Found;

/// One of the eight turns, with what it is handed.
#[derive(Drop)]
pub enum Turn<'a, K> {
    /// Takes the sheet of a file.
    Load(&'a [u8]),
    /// Tries the rules of a sheet.
    Check,
    /// Cuts its loops.
    Cut,
    /// Takes one round.
    Round,
    /// Makes it ready for tips.
    Seal,
    /// Answers a tip.
    Place(K),
    /// Answers tips into the table of answers.
    List(&'a [K]),
    /// Lets the sheet go.
    Wipe,
}

/// What a turn led to. A list that is granted has its entries in the table of answers.
#[derive(Clone, Copy, PartialEq, Eq, Debug)]
pub enum Outcome {
    /// The turn was made.
    Granted,
    /// A tip was answered.
    Answered(Found),
    /// The turn, or the tip, was refused.
    Refused(Refusal),
}
