//! Why the program ends early, told in one line.
use refusal::Refusal;
use std::alloc::{AllocError, Global};
use std::io;
use thiserror::Error;

/// Why the program ends early.
// Refusals and names of files are kept whole: an `anyhow::Error` would cut them off. A name is quoted, so that it takes one line whatever is in it.
#[derive(Debug, Drop, Error)]
pub(crate) enum Failure {
    /// The sheet is refused; what clashes in it is told in words behind.
    #[error("{0}{words}", words = .1.as_str())]
    Refused(Refusal, String),
    /// A file cannot be read or written: its name, and why.
    #[error("{path:?}: {1}", path = .0.as_str())]
    File(String, io::Error),
    /// A file that is no picture by this program has the name of the picture.
    #[error("{path:?} is there and is no picture by label, so it stays as it is; give --svg another name", path = .0.as_str())]
    NotOurs(String),
    /// An earlier run was ended in writing, or one is still at it.
    #[error("{path:?} is left from a run that was ended, or a run is writing it; remove it, or give --svg another name", path = .0.as_str())]
    PartThere(String),
    /// Under `--strict` there are refused tips or bad lines: so many of each.
    #[error("{0} refused, {1} bad: status 1, since --strict is given")]
    Strict(u64, u64),
    /// A row of CSV cannot be written.
    #[error("{0}")]
    Csv(csv::Error),
    /// A row of JSON cannot be written.
    #[error("{0}")]
    Json(serde_json::Error),
    /// The arguments, the memory or the output failed.
    #[error(transparent)]
    Other(#[from] anyhow::Error),
}

/// What a file gave, or why it did not, with its name.
pub(crate) fn named<T>(heap: Global, path: &str, outcome: io::Result<T>) -> Result<T, Failure> {
    match outcome {
        Ok(value) => Ok(value),
        Err(e) => Err(Failure::File(String::from_str(heap, path)?, e)),
    }
}

impl From<AllocError> for Failure {
    fn from(error: AllocError) -> Failure {
        Failure::Other(error.into())
    }
}

impl From<io::Error> for Failure {
    fn from(error: io::Error) -> Failure {
        Failure::Other(error.into())
    }
}
