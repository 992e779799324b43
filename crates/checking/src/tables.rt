//! The check of a sheet in the caller's tables.
ghost use Rattle.std.specs.Prelude.{◌≡◌, None as Nothing, Ok as Good, length, true};
ghost use Rattle.rules.specs.Rules.{first_broken as first_broken_of};
ghost use Rattle.checking.specs.Checks.{SheetChecked, check_room, check_said, tables_said};
ghost use Rattle.checking.specs.Entries.{wrong_entry as wrong_entry_of};
ghost use Rattle.checking.specs.Held.{held_sheet};
ghost use Rattle.checking.specs.Judging.{SheetJudged};

use crate::entries::{front, wrong_entry};
use plane::{Edge, Point};
use refusal::{Cause, Layer, Refusal};
use rules::{Stroke, first_broken};
use sheet::{Loop, Size};

/// The least length of the table of strokes.
pub const LEAST_STROKES: usize = 3077;

/// Whether the tables that a check is lent have room for every sheet.
pub fn have_room(points: &[Point], edges: &[Edge], loops: &[Loop], strokes: &[Stroke]) -> bool
    ensures { result ≡ check_room (length points.now) (length edges.now) (length loops.now) (length strokes.now) }
{
    strokes.len() >= LEAST_STROKES && sheet::have_room(points, edges, loops)
}

// The first rule that the sheet breaks which the tables hold. It is not refused: there is room for the strokes of every such sheet.
fn broken(
    size: Size,
    points: &[Point],
    edges: &[Edge],
    loops: &[Loop],
    strokes: &mut [Stroke],
) -> Result<Option<Refusal>, Refusal>
    requires room { check_room (length points.now) (length edges.now) (length loops.now) (length strokes.old) ≡ true }
    requires held { wrong_entry_of size points.now edges.now loops.now ≡ Nothing }
    ensures { result ≡ Good (first_broken_of (held_sheet size points.now edges.now loops.now)) }
{
    let points = front(points, usize::from(size.inner) + 4);
    let edges = front(edges, usize::from(size.corners) + 4);
    let loops = front(loops, usize::from(size.loops));
    first_broken(size.inner, points, edges, loops, strokes)
}

// The check over tables that have room.
#[tactic(auto, unfolding(crate::specs::Checks::check_said))]
fn judge(
    size: Size,
    points: &[Point],
    edges: &[Edge],
    loops: &[Loop],
    strokes: &mut [Stroke],
) -> Result<(), Refusal>
    requires { check_room (length points.now) (length edges.now) (length loops.now) (length strokes.old) ≡ true }
    ensures { result ≡ check_said size points.now edges.now loops.now }
{
    if let Some(entry) = wrong_entry(size, points, edges, loops) {
        return Err(Refusal::new(Cause::OutOfRange, Layer::Check, entry));
    }
    match broken(size, points, edges, loops, strokes)? {
        None => Ok(()),
        Some(broken) => Err(broken),
    }
}

/// Whether the tables hold a sheet that keeps the eight rules, or why not; `strokes` is scratch.
#[tactic(auto, using(crate::proofs::Told::sheet_told, crate::proofs::Told::short_told, crate::proofs::Judged::sheet_judged, crate::proofs::Judged::short_judged))]
pub fn check_tables(
    size: Size,
    points: &[Point],
    edges: &[Edge],
    loops: &[Loop],
    strokes: &mut [Stroke],
) -> Result<(), Refusal>
    ensures said { result ≡ tables_said size points.now edges.now loops.now (length strokes.old) }
    ensures sheet { SheetChecked size points.now edges.now loops.now (length strokes.old) result }
    ensures rules { SheetJudged size points.now edges.now loops.now (length strokes.old) result }
{
    if !have_room(points, edges, loops, strokes) {
        return Err(Refusal::new(Cause::TableTooShort, Layer::Check, 0));
    }
    judge(size, points, edges, loops, strokes)
}
