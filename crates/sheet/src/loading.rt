//! A file is taken whole into the caller's tables, or refused with nothing changed.
ghost use Rattle.std.specs.Prelude.{◌≡◌, ℕ, ◌≤◌, true, length, IfOk, Ok as Good};
ghost use Rattle.lent.specs.Kept.{over};
ghost use Rattle.sheet.specs.Files.{sheet as sheet_at};
ghost use Rattle.sheet.specs.Legal.{TakenIsLegal};
ghost use Rattle.sheet.specs.Load.{roomy, sheet_of, taken, upon};
ghost use Rattle.reader.specs.Reading.{and_then};
ghost use Rattle.reader.specs.Steps.{Passed};
ghost use Rattle.sheet.specs.Sheets.{Sheet, edges_of, loops_of, points_of, size_of};

use crate::body::read_sheet;
use crate::labels::read_labels;
use crate::tables::{Loop, Size};
use lent::LentList;
use plane::{Edge, Point};
use reader::{Reader, fault};
use refusal::{Cause, Refusal};

/// The least length of the table of points: the four corners of a sheet, and the most inner vertices.
pub const LEAST_POINTS: usize = 1028;

/// The least length of the table of edges: the most corners of loops, and the four outside edges.
pub const LEAST_EDGES: usize = 6154;

/// The least length of the table of loops: the most that a sheet has.
pub const LEAST_LOOPS: usize = 2050;

/// Whether the tables have room for every sheet that a file can describe.
pub fn have_room(points: &[Point], edges: &[Edge], loops: &[Loop]) -> bool
    ensures { result ≡ roomy (length points.now) (length edges.now) (length loops.now) }
{
    points.len() >= LEAST_POINTS && edges.len() >= LEAST_EDGES && loops.len() >= LEAST_LOOPS
}

// A reading that keeps nothing: its lists have no room.
fn look(reader: &mut Reader<'_>) -> Result<Size, Refusal>
    ensures { Passed sheet_at result reader.old reader.new (λ s y. y ≡ size_of s) }
{
    read_sheet(
        reader,
        &mut LentList::over(&mut [], 0),
        &mut LentList::over(&mut [], 0),
        &mut LentList::over(&mut [], 0),
    )
}

// Reads a sheet that is known to be good into tables that have room for it.
fn keep(file: &[u8], points: &mut [Point], edges: &mut [Edge], loops: &mut [Loop])
    ensures points { (s : Sheet) (at : ℕ) → sheet_at file.now 0 ≡ Good (s, at) → length (points_of s) ≤ length points.old → points.new ≡ over (points_of s) points.old }
    ensures edges { (s : Sheet) (at : ℕ) → sheet_at file.now 0 ≡ Good (s, at) → length (edges_of s) ≤ length edges.old → edges.new ≡ over (edges_of s) edges.old }
    ensures loops { (s : Sheet) (at : ℕ) → sheet_at file.now 0 ≡ Good (s, at) → length (loops_of s) ≤ length loops.old → loops.new ≡ over (loops_of s) loops.old }
{
    let mut reader = Reader::new(file);
    let mut points = LentList::over(points, 0);
    let mut edges = LentList::over(edges, 0);
    let mut loops = LentList::over(loops, 0);
    let _ = read_sheet(&mut reader, &mut points, &mut edges, &mut loops);
}

// Takes the sheet of a file into tables that have room for it.
#[tactic(auto, unfolding(crate::specs::Load::sheet_of, crate::specs::Files::contents))]
fn take(
    file: &[u8],
    points: &mut [Point],
    edges: &mut [Edge],
    loops: &mut [Loop],
) -> Result<Size, Refusal>
    requires { roomy (length points.old) (length edges.old) (length loops.old) ≡ true }
    ensures said { result ≡ and_then (sheet_of file.now) (λ s. Good (size_of s)) }
    ensures points { points.new ≡ upon (sheet_of file.now) points_of points.old }
    ensures edges { edges.new ≡ upon (sheet_of file.now) edges_of edges.old }
    ensures loops { loops.new ≡ upon (sheet_of file.now) loops_of loops.old }
{
    let mut reader = Reader::new(file);
    let size = look(&mut reader)?;
    let _ = read_labels(&mut reader, None)?;
    // Nothing is refused from here on.
    keep(file, points, edges, loops);
    Ok(size)
}

/// Takes the sheet of a file into the tables and answers its size; a refused file leaves them as they are.
// Three slices and no struct of them, here and on the board (tried: once such a struct ends, the check knows of a caller's slices how long
// they are, and not what they hold); and a clause for each, since a record of the three clauses would be about six lists.
pub fn load(
    file: &[u8],
    points: &mut [Point],
    edges: &mut [Edge],
    loops: &mut [Loop],
) -> Result<Size, Refusal>
    ensures said { result ≡ and_then (taken points.old edges.old loops.old file.now) (λ s. Good (size_of s)) }
    ensures points { points.new ≡ upon (taken points.old edges.old loops.old file.now) points_of points.old }
    ensures edges { edges.new ≡ upon (taken points.old edges.old loops.old file.now) edges_of edges.old }
    ensures loops { loops.new ≡ upon (taken points.old edges.old loops.old file.now) loops_of loops.old }
{
    if !have_room(points, edges, loops) {
        return Err(fault(Cause::TableTooShort, 0));
    }
    take(file, points, edges, loops)
}

/// Every file that is taken describes a sheet within its limits, with labels that can be told apart.
pub fn taken_is_legal()
    ensures { TakenIsLegal }
{}
