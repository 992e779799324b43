//! The check: whether tables hold a sheet, and whether it keeps the eight rules.
#![tactic(auto)]

ghost use Rattle.checking.specs.Held.{HeldIsRead, LoadedIsHeld};

mod entries;
mod tables;

pub use entries::{front, wrong_entry, wrong_vertex};
pub use tables::{LEAST_STROKES, check_tables, have_room};

/// Tables that are long enough have no wrong entry exactly where they hold a sheet, and then it is the one that is read off them.
pub fn held_is_read()
    ensures { HeldIsRead }
{}

/// What a load leaves in tables is held there: so nothing in them is wrong until somebody alters them.
pub fn loaded_is_held()
    ensures { LoadedIsHeld }
{}
