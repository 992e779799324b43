//! What a caller may do between turns: change an entry of a table of its own, or a node in memory of its own.
use crate::words::number;
use desk::Desk;
use nodes::{Node, WriteStore};
use plane::{Edge, Point};
use sheet::Loop;
use std::str::Split;

/// Changes an entry of a table, and answers what is printed of it.
pub(crate) fn alter(
    desk: &mut Desk,
    name: &str,
    entry: &str,
    words: &mut Split<'_, char>,
) -> &'static str {
    match name {
        "points" => put(desk.points.as_mut_slice(), entry, point_of(words)),
        "edges" => put(desk.edges.as_mut_slice(), entry, edge_of(words)),
        "loops" => put(desk.loops.as_mut_slice(), entry, loop_of(words)),
        "live" => put(desk.live.as_mut_slice(), entry, number(words)),
        _ => "no such table",
    }
}

// Puts a value at an entry, where both are given and the table has it.
fn put<T: Copy>(table: &mut [T], entry: &str, value: Option<T>) -> &'static str {
    let (Ok(entry), Some(value)) = (entry.parse::<u16>(), value) else {
        return "no such entry";
    };
    let Some(slot) = table.get_mut(usize::from(entry)) else {
        return "no such entry";
    };
    *slot = value;
    "ok"
}

/// Puts a node behind those that a store has, and answers what is printed of it.
// A caller gives it a store over the same memory that ends before the node to be changed: all else stays as it is, whatever the memory is.
pub(crate) fn put_behind<S: WriteStore>(store: &mut S, node: Node) -> &'static str {
    match store.add(node) {
        Ok(()) => "ok",
        Err(_) => "no such entry",
    }
}

// So many numbers; none where a word is missing or no number of sixteen bits.
fn numbers<const N: usize>(words: &mut Split<'_, char>) -> Option<[u16; N]> {
    let mut found = [0; N];
    for slot in &mut found {
        *slot = number(words)?;
    }
    Some(found)
}

fn point_of(words: &mut Split<'_, char>) -> Option<Point> {
    let [x, y] = numbers::<2>(words)?;
    Some(Point { x, y })
}

fn edge_of(words: &mut Split<'_, char>) -> Option<Edge> {
    let [from, to] = numbers::<2>(words)?;
    Some(Edge { from, to })
}

fn loop_of(words: &mut Split<'_, char>) -> Option<Loop> {
    let [numeral, start, corners] = numbers::<3>(words)?;
    Some(Loop {
        numeral,
        start,
        corners,
    })
}

/// The node that the next fourteen words stand for, in the order in which stores keep its numbers.
pub(crate) fn node_of(words: &mut Split<'_, char>) -> Option<Node> {
    let [a, b, c, ring, sides, count] = numbers::<6>(words)?;
    let children = numbers::<8>(words)?;
    Some(Node {
        a,
        b,
        c,
        ring,
        sides,
        count,
        children,
    })
}
