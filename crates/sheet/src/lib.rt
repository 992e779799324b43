//! The sheet of a file: kept in the caller's tables, or refused at a byte; and the wordings of its labels.
#![tactic(auto)]

mod answer;
mod body;
mod labels;
mod loading;
mod tables;
mod wordings;

pub use answer::Answer;
pub use body::{OUTSIDE, corners};
pub use loading::{LEAST_EDGES, LEAST_LOOPS, LEAST_POINTS, have_room, load, taken_is_legal};
pub use plane::Edge;
pub use tables::{Loop, Size};
pub use wordings::{FilePart, wording};
