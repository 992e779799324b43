//! The bottom nodes of a sheet: its loops, cut into triangles.
#![tactic(auto)]

mod cutting;
mod loops;

pub use cutting::{LEAST_LIVE, cut_tables, have_room};
