//! The steps of a walk: which of some nodes holds the tip, and down from there.
ghost use Rattle.std.specs.Prelude.{◌≡◌, ◌+◌, ◌*◌, ◌<◌, ◌≤◌, ◌-◌, true, IfOk, IfSome, length, take};
ghost use Rattle.plane.specs.Kernels.{is_sheet_size};
ghost use Rattle.sheet.specs.Sheets.{corners as corners_of};
ghost use Rattle.walk.specs.Walks.{children_of, down_from, first_child as first_child_of, first_top as first_top_of, vertex_read};

use crate::view::{number, test_node, wrong_corner};
use nodes::ReadStore;
use plane::{Kernel, Point};
use sheet::Size;

// A walk that came to a node, or to none, after so many tests.
#[derive(Clone, Copy)]
pub(crate) struct Walked {
    pub(crate) node: Option<u16>,
    pub(crate) tests: u32,
}

// The first of the top nodes that holds the tip: each entry names a node above the one before it, or is told. So there are no more than sixteen
// bits number, and no count of tests is too large.
#[tactic(auto, unfolding(crate::specs::Walks::first_top))]
#[inline(always)]
pub(crate) fn first_top<K: Kernel, S: ReadStore>(
    tip: &K,
    size: Size,
    corners: &[Point; 4],
    points: &[Point],
    store: &S,
    tops: &[u16],
) -> Result<Walked, usize>
    requires size { is_sheet_size size.width size.height ≡ true }
    requires corners { corners.now ≡ corners_of size.width size.height }
    requires points { length points.now ≤ size.inner + 4 }
    ensures tests { IfOk result (λ w. w.tests ≤ 196608) }
    ensures said { result ≡ first_top_of (vertex_read size points.now) (K.means tip.now) (S.nodes store.now) 0 0 tops.now 0 }
{
    let mut least = 0;
    let mut tests = 0;
    for (i, k) in tops.iter().enumerate() {
        if u32::from(*k) < least || usize::from(*k) >= store.count() {
            return Err(i);
        }
        let Some(tested) = test_node(tip, size, corners, points, store, *k) else {
            return Err(wrong_corner(size, corners, points, store, *k));
        };
        tests += tested.tests;
        if tested.holds {
            return Ok(Walked {
                node: Some(*k),
                tests,
            });
        }
        least = u32::from(*k) + 1;
    }
    Ok(Walked { node: None, tests })
}

// The first of some nodes that holds the tip: each is below `node`, or that one is told.
#[tactic(auto, unfolding(crate::specs::Walks::first_child))]
#[inline(always)]
fn first_below<K: Kernel, S: ReadStore>(
    tip: &K,
    size: Size,
    corners: &[Point; 4],
    points: &[Point],
    store: &S,
    node: u16,
    numbers: &[u16],
    tests: u32,
) -> Result<Walked, usize>
    requires size { is_sheet_size size.width size.height ≡ true }
    requires corners { corners.now ≡ corners_of size.width size.height }
    requires points { length points.now ≤ size.inner + 4 }
    requires tests { tests + 3 * length numbers.now ≤ 4294967295 }
    ensures tests { IfOk result (λ w. w.tests ≤ tests + 3 * length numbers.now) }
    ensures below { IfOk result (λ w. IfSome w.node (λ c. c < node)) }
    ensures said { result ≡ first_child_of (vertex_read size points.now) (K.means tip.now) (S.nodes store.now) node numbers.now tests }
{
    let mut tests = tests;
    for k in numbers {
        if *k >= node {
            return Err(usize::from(node));
        }
        let Some(tested) = test_node(tip, size, corners, points, store, *k) else {
            return Err(wrong_corner(size, corners, points, store, *k));
        };
        tests += tested.tests;
        if tested.holds {
            return Ok(Walked {
                node: Some(*k),
                tests,
            });
        }
    }
    Ok(Walked { node: None, tests })
}

// The eight places for children of a node; one that is not in use is 0.
#[inline(always)]
fn children_at<S: ReadStore>(store: &S, k: u16) -> [u16; 8]
    ensures { result ≡ children_of (S.nodes store.now) k }
{
    [
        number(store, k, 6),
        number(store, k, 7),
        number(store, k, 8),
        number(store, k, 9),
        number(store, k, 10),
        number(store, k, 11),
        number(store, k, 12),
        number(store, k, 13),
    ]
}

// The first of the children of a node, so many, that holds the tip.
#[inline(always)]
fn first_child<K: Kernel, S: ReadStore>(
    tip: &K,
    size: Size,
    corners: &[Point; 4],
    points: &[Point],
    store: &S,
    node: u16,
    count: u16,
    tests: u32,
) -> Result<Walked, usize>
    requires size { is_sheet_size size.width size.height ≡ true }
    requires corners { corners.now ≡ corners_of size.width size.height }
    requires points { length points.now ≤ size.inner + 4 }
    requires count { count ≤ 8 }
    requires tests { tests + 24 ≤ 4294967295 }
    ensures tests { IfOk result (λ w. w.tests ≤ tests + 24) }
    ensures below { IfOk result (λ w. IfSome w.node (λ c. c < node)) }
    ensures said { result ≡ first_child_of (vertex_read size points.now) (K.means tip.now) (S.nodes store.now) node (take count (children_of (S.nodes store.now) node)) tests }
{
    let children = children_at(store, node);
    first_below(
        tip,
        size,
        corners,
        points,
        store,
        node,
        &children[..usize::from(count)],
        tests,
    )
}

// From a node down to a bottom node.
#[tactic(auto, unfolding(crate::specs::Walks::down_from))]
#[inline(always)]
pub(crate) fn down<K: Kernel, S: ReadStore>(
    tip: &K,
    size: Size,
    corners: &[Point; 4],
    points: &[Point],
    store: &S,
    k: u16,
    tests: u32,
) -> Result<Walked, usize>
    requires size { is_sheet_size size.width size.height ≡ true }
    requires corners { corners.now ≡ corners_of size.width size.height }
    requires points { length points.now ≤ size.inner + 4 }
    requires tests { tests + 24 * k ≤ 4294967295 - 24 }
    ensures { result ≡ down_from (vertex_read size points.now) (K.means tip.now) (S.nodes store.now) (length (S.nodes store.now)) k tests }
{
    let mut at = Walked {
        node: Some(k),
        tests,
    };
    let mut node = k;
    for _step in 0..store.count() {
        let count = number(store, node, 5);
        if count == 0 {
            return Ok(at);
        }
        if count > 8 {
            return Err(usize::from(node));
        }
        at = first_child(tip, size, corners, points, store, node, count, at.tests)?;
        let Some(child) = at.node else {
            return Err(usize::from(node));
        };
        node = child;
    }
    Err(usize::from(node))
}
