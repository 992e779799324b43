//! How many live nodes have a vertex as a corner.
ghost use Rattle.std.specs.Prelude.{◌≡◌, ◌==◌, ℕ, ◌<◌, OnOk, length, slice_index, min};
ghost use Rattle.fans.specs.Around.{degree as degree_of, is_corner, live_said, raised};

use crate::corners::read_corners;
use nodes::ReadStore;
use plane::Corners;
use refusal::Refusal;

// Adds one at a vertex, up to the largest number; a vertex past the table is passed over.
fn raise(degree: &mut [u16], vertex: u16)
    ensures { (v : ℕ) → v < length degree.old → slice_index degree.new v ≡ raised (vertex == v) (slice_index degree.old v) }
{
    let at = usize::from(vertex);
    if at < degree.len() {
        degree[at] = degree[at].saturating_add(1);
    }
}

// Adds one at each corner of a node, and no more at a vertex that it has twice.
fn tally(degree: &mut [u16], corners: Corners)
    ensures { (v : ℕ) → v < length degree.old → slice_index degree.new v ≡ raised (is_corner v corners) (slice_index degree.old v) }
{
    let Corners { a, b, c } = corners;
    raise(degree, a);
    if b != a {
        raise(degree, b);
    }
    if c != a && c != b {
        raise(degree, c);
    }
}

// No node is counted yet.
fn clear(degree: &mut [u16])
    ensures { (v : ℕ) → v < length degree.old → slice_index degree.new v ≡ 0 }
{
    for count in degree.iter_mut() {
        *count = 0;
    }
}

// Counts every live node at its corners, in a table that has counted none.
fn tally_all<S: ReadStore>(store: &S, live: &[u16], degree: &mut [u16]) -> Result<(), Refusal>
    requires { (v : ℕ) → v < length degree.old → slice_index degree.old v ≡ 0 }
    ensures said { result ≡ live_said (S.nodes store.now) live.now }
    ensures counts { OnOk result ((v : ℕ) → v < length degree.old → slice_index degree.new v ≡ min 65535 (degree_of (S.nodes store.now) live.now v)) }
{
    for k in live {
        tally(degree, read_corners(store, *k)?);
    }
    Ok(())
}

/// Counts at each vertex below the table's length the live nodes that have it as a corner, up to 65,535, in one pass over them. The first
/// live number that is no node is refused as the store refuses it.
pub fn degrees<S: ReadStore>(store: &S, live: &[u16], degree: &mut [u16]) -> Result<(), Refusal>
    ensures said { result ≡ live_said (S.nodes store.now) live.now }
    ensures counts { OnOk result ((v : ℕ) → v < length degree.old → slice_index degree.new v ≡ min 65535 (degree_of (S.nodes store.now) live.now v)) }
{
    clear(degree);
    tally_all(store, live, degree)
}
