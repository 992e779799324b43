//! The walk down the hierarchy to the cell that holds a tip.
#![tactic(auto)]

ghost use Rattle.std.specs.Prelude.{◌≡◌, ◌+◌, ◌≤◌, length, true};
ghost use Rattle.plane.specs.Kernels.{is_sheet_size as is_sheet_size_of};
ghost use Rattle.walk.specs.Telling.{WalkTells};
ghost use Rattle.walk.specs.Walks.{find_said, told_at, told_from, vertex_read, walk_from};

mod steps;
mod telling;
mod view;

use checking::front;
use nodes::ReadStore;
use plane::{Kernel, Point};
use sheet::{Answer, Size, corners};
use steps::{Walked, down, first_top};
use telling::{is_bottom, told};
use view::{places_at, wrong_corner};

/// The answer of a walk, and how many sides it tested.
#[derive(Clone, Copy, PartialEq, Eq, Debug)]
pub struct Found {
    /// The cell that holds the tip.
    pub answer: Answer,
    /// How many sides were tested on the way to it.
    pub tests: u32,
}

// What a walk tells that came to a bottom node.
// Apart from the walk: else what it will need is kept in registers that the walk could use.
#[inline(never)]
fn tell<K: Kernel, S: ReadStore>(
    tip: &K,
    size: Size,
    points: &[Point],
    store: &S,
    bottom: Walked,
) -> Result<Found, usize>
    requires size { is_sheet_size_of size.width size.height ≡ true }
    requires points { length points.now ≤ size.inner + 4 }
    ensures { result ≡ told_at (vertex_read size points.now) (K.means tip.now) (S.nodes store.now) size.loops bottom.node bottom.tests }
{
    let Some(k) = bottom.node else {
        return Err(0);
    };
    if !is_bottom(usize::from(size.loops), store, k) {
        return Err(usize::from(k));
    }
    let corners = corners(size.width, size.height);
    let Some(at) = places_at(size, &corners, points, store, k) else {
        return Err(wrong_corner(size, &corners, points, store, k));
    };
    Ok(Found {
        answer: told(tip, store, k, at),
        tests: bottom.tests,
    })
}

// From the first of the top nodes that holds the tip down to a bottom node.
// Apart from what is asked before and told after it, so that what it needs stays in registers.
#[inline(never)]
fn walk<K: Kernel, S: ReadStore>(
    tip: &K,
    size: Size,
    points: &[Point],
    tops: &[u16],
    store: &S,
) -> Result<Walked, usize>
    requires size { is_sheet_size_of size.width size.height ≡ true }
    requires points { length points.now ≤ size.inner + 4 }
    ensures { result ≡ walk_from (vertex_read size points.now) (K.means tip.now) (S.nodes store.now) tops.now }
{
    let corners = corners(size.width, size.height);
    let top = first_top(tip, size, &corners, points, store, tops)?;
    let Some(k) = top.node else {
        return Err(0);
    };
    down(tip, size, &corners, points, store, k, top.tests)
}

// The walk of any kernel, and what it tells.
#[tactic(auto, unfolding(crate::specs::Walks::told_from))]
fn find_by<K: Kernel, S: ReadStore>(
    tip: &K,
    size: Size,
    points: &[Point],
    tops: &[u16],
    store: &S,
) -> Result<Found, usize>
    requires size { is_sheet_size_of size.width size.height ≡ true }
    requires points { length points.now ≤ size.inner + 4 }
    ensures { result ≡ told_from (vertex_read size points.now) (K.means tip.now) (S.nodes store.now) size.loops tops.now }
{
    let bottom = walk(tip, size, points, tops, store)?;
    tell(tip, size, points, store, bottom)
}

/// Whether a sheet can have this width and height: each is 2 to 8,191.
pub fn is_sheet_size(size: Size) -> bool
    ensures { result ≡ is_sheet_size_of size.width size.height }
{
    (2 <= size.width && size.width <= 8191) && (2 <= size.height && size.height <= 8191)
}

// The same, of the point in small numbers where the kernel hands it out: so the tip is not asked at each side whether it is fit.
fn find_spot<K: Kernel, S: ReadStore>(
    tip: &K,
    size: Size,
    points: &[Point],
    tops: &[u16],
    store: &S,
) -> Result<Found, usize>
    requires size { is_sheet_size_of size.width size.height ≡ true }
    requires points { length points.now ≤ size.inner + 4 }
    ensures { result ≡ told_from (vertex_read size points.now) (K.means tip.now) (S.nodes store.now) size.loops tops.now }
{
    match tip.spot() {
        Some(spot) => find_by(&spot, size, points, tops, store),
        None => find_by(tip, size, points, tops, store),
    }
}

/// Walks from the top nodes down to a bottom node that holds the tip, and answers what it tells; or the place of a number outside its range, of
/// a top node that is none or does not ascend, of a child that is not below its node, or of a node under which nothing holds the tip. A size
/// that no sheet has is told at 0. Of `points` only the inner vertices are read, each as a node is tested that has it as a corner.
#[tactic(auto, using(crate::proofs::Reading::told_front))]
pub fn find<K: Kernel, S: ReadStore>(
    tip: &K,
    size: Size,
    points: &[Point],
    tops: &[u16],
    store: &S,
) -> Result<Found, usize>
    ensures { result ≡ find_said size (K.means tip.now) points.now (S.nodes store.now) tops.now }
{
    if !is_sheet_size(size) {
        return Err(0);
    }
    let points = front(points, usize::from(size.inner) + 4);
    find_spot(tip, size, points, tops, store)
}

/// Of nodes that cuts and rounds made of a checked sheet, the walk from the live ones tells of every point of the sheet the one cell that
/// holds it.
#[tactic(auto, using(crate::proofs::Tells::walk_tells))]
pub fn walk_tells_stands()
    ensures { WalkTells }
{}
