//! What clashes in a sheet that breaks a rule, with where it is.
use clash::first_clash;
use desk::Desk;
use plane::{Edge, Point};
use refusal::{Cause, Refusal};
use rules::{Stroke, loop_edges};
use std::alloc::{AllocError, Global};
use std::fmt;

/// What clashes, in words with coordinates; nothing for a refusal that is of no rule.
// It is looked for anew in the desk's tables: a refusal tells the place of one of the two alone.
pub(crate) fn clash_words(
    heap: Global,
    desk: &Desk,
    refusal: Refusal,
) -> Result<String, AllocError> {
    let place = refusal.place;
    match refusal.cause {
        Cause::LoopSum => sum_words(heap, desk),
        Cause::SamePoint => point_words(heap, desk, place),
        Cause::VertexTwice => loop_words(heap, desk, place),
        Cause::EdgeTwice => listed_words(heap, desk, place),
        Cause::NoReverse => {
            let edge = Line(desk, edge_at(desk, place));
            format!(in heap; " (nothing is listed against the edge {edge})")
        }
        Cause::VertexUnused => {
            let vertex = Spot(desk, place);
            format!(in heap; " (vertex {vertex})")
        }
        Cause::EdgesTouch => touch_words(heap, desk, place),
        Cause::LoopTurned => {
            let first = Spot(desk, loop_start(desk, place));
            format!(in heap; " (loop {place}, which begins at vertex {first})")
        }
        _ => Ok(String::new(heap)),
    }
}

// How many triangles the loops would be cut into, and how many are wanted.
fn sum_words(heap: Global, desk: &Desk) -> Result<String, AllocError> {
    let size = desk.size();
    let wanted = 2 * u32::from(size.inner) + 2;
    let corners = u32::from(size.corners);
    let found = corners.saturating_sub(2 * u32::from(size.loops));
    format!(in heap;
        " ({} loops of {corners} corners make {found} triangles, and {wanted} are wanted)",
        size.loops
    )
}

// Two vertices at one point.
fn point_words(heap: Global, desk: &Desk, later: usize) -> Result<String, AllocError> {
    let place = point_at(desk, later);
    let points = desk.points.as_slice();
    let earlier = points
        .iter()
        .position(|point| *point == place)
        .unwrap_or(later);
    let later = Spot(desk, later);
    format!(in heap; " (vertices {earlier} and {later})")
}

// A vertex that a loop names twice.
fn loop_words(heap: Global, desk: &Desk, place: usize) -> Result<String, AllocError> {
    let Some(entry) = desk.loops.as_slice().get(place) else {
        return Ok(String::new(heap));
    };
    let edges = loop_edges(desk.edges.as_slice(), entry);
    for (i, edge) in edges.iter().enumerate() {
        if edges[..i].iter().any(|earlier| earlier.from == edge.from) {
            let vertex = Spot(desk, usize::from(edge.from));
            return format!(in heap; " (loop {place} names vertex {vertex} twice)");
        }
    }
    Ok(String::new(heap))
}

// An edge that is listed twice.
fn listed_words(heap: Global, desk: &Desk, later: usize) -> Result<String, AllocError> {
    let edge = edge_at(desk, later);
    let edges = desk.edges.as_slice();
    let earlier = edges
        .iter()
        .position(|listed| *listed == edge)
        .unwrap_or(later);
    let line = Line(desk, edge);
    format!(in heap; " (the edge {line} is listed at {earlier} and at {later})")
}

// The edges of the sheet by first listing, as segments, up to the one at this place.
// Not those of the desk's own table: what a check leaves in it is open.
fn strokes_up_to(heap: Global, desk: &Desk, last: usize) -> Result<Vec<Stroke>, AllocError> {
    let edges = desk.edges.as_slice();
    let mut found = Vec::new(heap);
    for (i, edge) in edges.iter().enumerate() {
        if found.len() > last {
            break;
        }
        let back = Edge {
            from: edge.to,
            to: edge.from,
        };
        if !edges[..i].contains(&back) {
            found.push(Stroke {
                edge: *edge,
                start: point_at(desk, usize::from(edge.from)),
                end: point_at(desk, usize::from(edge.to)),
            })?;
        }
    }
    Ok(found)
}

// Two edges that touch.
fn touch_words(heap: Global, desk: &Desk, later: usize) -> Result<String, AllocError> {
    let strokes = strokes_up_to(heap, desk, later)?;
    let strokes = strokes.as_slice();
    let Some(clash) = first_clash(strokes) else {
        return Ok(String::new(heap));
    };
    let first = Line(desk, stroke_at(strokes, clash.earlier));
    let second = Line(desk, stroke_at(strokes, clash.later));
    format!(in heap; " (the edge {first} and the edge {second})")
}

fn point_at(desk: &Desk, vertex: usize) -> Point {
    let points = desk.points.as_slice();
    points.get(vertex).copied().unwrap_or_default()
}

fn edge_at(desk: &Desk, place: usize) -> Edge {
    let edges = desk.edges.as_slice();
    edges.get(place).copied().unwrap_or_default()
}

fn stroke_at(strokes: &[Stroke], place: usize) -> Edge {
    strokes.get(place).copied().unwrap_or_default().edge
}

// The vertex that a loop begins at.
fn loop_start(desk: &Desk, place: usize) -> usize {
    let Some(entry) = desk.loops.as_slice().get(place) else {
        return 0;
    };
    usize::from(edge_at(desk, usize::from(entry.start)).from)
}

// A vertex, with its place.
#[derive(Clone, Copy)]
struct Spot<'a>(&'a Desk, usize);

impl fmt::Display for Spot<'_> {
    fn fmt<W: fmt::Write>(&self, f: &mut fmt::Formatter<W>) -> fmt::Result {
        let Point { x, y } = point_at(self.0, self.1);
        let vertex = self.1;
        write!(f, "{vertex} at ({x}, {y})")
    }
}

// An edge, with the places of its ends.
#[derive(Clone, Copy)]
struct Line<'a>(&'a Desk, Edge);

impl fmt::Display for Line<'_> {
    fn fmt<W: fmt::Write>(&self, f: &mut fmt::Formatter<W>) -> fmt::Result {
        let from = Spot(self.0, usize::from(self.1.from));
        let to = Spot(self.0, usize::from(self.1.to));
        write!(f, "from {from} to {to}")
    }
}
