//! The sheet itself, read into lists that may have no room: a first reading looks only for faults.
ghost use Rattle.std.specs.Prelude.{◌≡◌, ◌+◌, ◌≤◌, [], ◌∷◌, length, IfOk};
ghost use Rattle.lent.specs.Kept.{kept_in, puts, SameSlice};
ghost use Rattle.std.specs.List.{flat_map};
ghost use Rattle.sheet.specs.Files.{head, ring, sheet};
ghost use Rattle.reader.specs.Kinds.{corner, vertex};
ghost use Rattle.reader.specs.Reading.{several};
ghost use Rattle.reader.specs.Steps.{Passed};
ghost use Rattle.plane.specs.Edges.{ring_edges};
ghost use Rattle.sheet.specs.Sheets.{corners as corners_of, corners_in, edges_of, entry, loops_from, loops_of, points_of, size_of};

use crate::tables::{Head, Loop, Size};
use lent::LentList;
use plane::{Edge, Point};
use reader::Reader;
use refusal::Refusal;

// Puts each of the items behind the last of a list, as far as it has room.
fn append_all<T: Copy>(list: &mut LentList<'_, T>, items: &[T])
    ensures kept { kept_in list.new ≡ puts (kept_in list.old) items.now }
    ensures lent { SameSlice list.old list.new }
{
    for item in items {
        let _ = list.append(*item);
    }
}

// The inner vertices, behind the points that the list has.
// Here and below a loop, and no function with a closure that reads one thing: the closure would change a list that it borrows, and its
// contract would be this loop's invariant over again. Nor is a reader one struct with what it fills, or with a size: each reading takes
// what it needs of these, two or three at most.
fn read_vertices(
    reader: &mut Reader<'_>,
    count: u16,
    width: u16,
    height: u16,
    points: &mut LentList<'_, Point>,
) -> Result<(), Refusal>
    ensures read { Passed (λ file. several (λ _. vertex width height file) [] count) result reader.old reader.new
        (λ vs _. (kept_in points.new ≡ puts (kept_in points.old) vs) × (length vs ≡ count)) }
    ensures lent { SameSlice points.old points.new }
{
    for _done in 0..count {
        let point = reader.vertex(width, height)?;
        let _ = points.append(point);
    }
    Ok(())
}

// The corners of a loop behind its first, each with the edge to it from the one before, and the edge from the last to the first.
fn link_corners(
    reader: &mut Reader<'_>,
    vertices: u16,
    first: u16,
    more: u16,
    edges: &mut LentList<'_, Edge>,
) -> Result<(), Refusal>
    ensures read { Passed (λ file. several (λ _. corner vertices file) (first ∷ []) more) result reader.old reader.new
        (λ cs _. (kept_in edges.new ≡ puts (kept_in edges.old) (ring_edges cs)) × (length cs ≡ more + 1)) }
    ensures lent { SameSlice edges.old edges.new }
{
    let mut last = first;
    for _done in 0..more {
        let next = reader.corner(vertices)?;
        let _ = edges.append(Edge {
            from: last,
            to: next,
        });
        last = next;
    }
    let _ = edges.append(Edge {
        from: last,
        to: first,
    });
    Ok(())
}

// The corners of a loop, with its edges behind those that the list has.
fn read_corners(
    reader: &mut Reader<'_>,
    vertices: u16,
    count: u16,
    edges: &mut LentList<'_, Edge>,
) -> Result<(), Refusal>
    requires { 3 ≤ count }
    ensures read { Passed (λ file. several (λ _. corner vertices file) [] count) result reader.old reader.new
        (λ cs _. (kept_in edges.new ≡ puts (kept_in edges.old) (ring_edges cs)) × (length cs ≡ count)) }
    ensures lent { SameSlice edges.old edges.new }
{
    let first = reader.corner(vertices)?;
    link_corners(reader, vertices, first, count - 1, edges)
}

// One loop, with its edges behind those that the list has, of which `start` belong to earlier loops.
#[tactic(auto, unfolding(crate::specs::Files::ring))]
fn read_loop(
    reader: &mut Reader<'_>,
    vertices: u16,
    start: u16,
    edges: &mut LentList<'_, Edge>,
) -> Result<Loop, Refusal>
    ensures read { Passed (ring vertices start) result reader.old reader.new
        (λ x y. (y ≡ entry start x) × (start + y.corners ≤ 6150) × (kept_in edges.new ≡ puts (kept_in edges.old) (ring_edges x.corners))) }
    ensures lent { SameSlice edges.old edges.new }
{
    let numeral = reader.numeral()?;
    let corners = reader.corner_count(vertices, start)?;
    read_corners(reader, vertices, corners, edges)?;
    Ok(Loop {
        numeral,
        start,
        corners,
    })
}

// The loops, with their edges and their entries behind those that the lists have; answers how many corners they have together.
fn read_loops(
    reader: &mut Reader<'_>,
    vertices: u16,
    count: u16,
    edges: &mut LentList<'_, Edge>,
    loops: &mut LentList<'_, Loop>,
) -> Result<u16, Refusal>
    ensures read { Passed (λ file. several (λ before. ring vertices (corners_in before) file) [] count) result reader.old reader.new
        (λ rs y. (y ≡ corners_in rs) × (length rs ≡ count)
        × (kept_in edges.new ≡ puts (kept_in edges.old) (flat_map (λ r. ring_edges r.corners) rs))
        × (kept_in loops.new ≡ puts (kept_in loops.old) (loops_from 0 rs))) }
    ensures edges_lent { SameSlice edges.old edges.new }
    ensures loops_lent { SameSlice loops.old loops.new }
{
    let mut start = 0;
    for _done in 0..count {
        let entry = read_loop(reader, vertices, start, edges)?;
        let _ = loops.append(entry);
        start += entry.corners;
    }
    Ok(start)
}

// The edition, the size, and how many inner vertices there are.
#[tactic(auto, unfolding(crate::specs::Files::head))]
fn read_head(reader: &mut Reader<'_>) -> Result<Head, Refusal>
    ensures read { Passed head result reader.old reader.new (λ h y. y ≡ h) }
    ensures within { IfOk result (λ y. y.inner ≤ 1024) }
{
    let _ = reader.edition()?;
    let width = reader.extent()?;
    let height = reader.extent()?;
    let inner = reader.count(1024)?;
    Ok(Head {
        width,
        height,
        inner,
    })
}

/// The outside edges, which go round the sheet clockwise.
pub const OUTSIDE: [Edge; 4] = [
    Edge { from: 1, to: 0 },
    Edge { from: 2, to: 1 },
    Edge { from: 3, to: 2 },
    Edge { from: 0, to: 3 },
];

/// The four corners of a sheet of this size, vertices 0 to 3.
pub fn corners(width: u16, height: u16) -> [Point; 4]
    ensures { result ≡ corners_of width height }
{
    [
        Point { x: 0, y: 0 },
        Point { x: width, y: 0 },
        Point {
            x: width,
            y: height,
        },
        Point { x: 0, y: height },
    ]
}

/// Reads a sheet, and puts its points, edges and loops behind those that the lists have, as far as these have room.
// Three lists, and no struct of them: tried: of a slice that is lent two structs deep the check knows how long it is at the end, and not what it holds.
#[tactic(auto, unfolding(crate::specs::Files::sheet))]
pub(crate) fn read_sheet(
    reader: &mut Reader<'_>,
    points: &mut LentList<'_, Point>,
    edges: &mut LentList<'_, Edge>,
    loops: &mut LentList<'_, Loop>,
) -> Result<Size, Refusal>
    ensures read { Passed sheet result reader.old reader.new
        (λ s y. (y ≡ size_of s)
        × (kept_in points.new ≡ puts (kept_in points.old) (points_of s))
        × (kept_in edges.new ≡ puts (kept_in edges.old) (edges_of s))
        × (kept_in loops.new ≡ puts (kept_in loops.old) (loops_of s))) }
    ensures points_lent { SameSlice points.old points.new }
    ensures edges_lent { SameSlice edges.old edges.new }
    ensures loops_lent { SameSlice loops.old loops.new }
{
    let Head {
        width,
        height,
        inner,
    } = read_head(reader)?;
    append_all(points, &corners(width, height));
    read_vertices(reader, inner, width, height, points)?;
    let count = reader.count(2050)?;
    let corners = read_loops(reader, inner + 4, count, edges, loops)?;
    append_all(edges, &OUTSIDE);
    Ok(Size {
        width,
        height,
        inner,
        loops: count,
        corners,
    })
}
