//! The seal of a sheet whose inner vertices are all taken out.
#![tactic(auto)]

ghost use Rattle.std.specs.Prelude.{◌≡◌, ◌≤◌, Ok as Good, length};
ghost use Rattle.fans.specs.Around.{left_from, live_said};
ghost use Rattle.sealing.specs.Seals.{left_said as left_said_of, seal_said};

use fans::degrees;
use nodes::ReadStore;
use refusal::{Cause, Layer, Refusal};
use rounds::wrong_nodes;

// Vertices that are left are told; where none is, two nodes are live, unless something was altered.
fn left_said(left: usize, live: usize) -> Result<(), Refusal>
    ensures { result ≡ left_said_of left live }
{
    if left != 0 {
        return Err(Refusal::new(Cause::VerticesLeft, Layer::Build, left));
    }
    if live != 2 {
        return Err(Refusal::new(Cause::OutOfRange, Layer::Build, live));
    }
    Ok(())
}

// How many of the inner vertices have a live node.
fn count_left<S: ReadStore>(inner: usize, live: &[u16], store: &S) -> usize
    requires few { inner ≤ 1024 }
    requires told { live_said (S.nodes store.now) live.now ≡ Good tt }
    ensures { result ≡ left_from (S.nodes store.now) live.now inner 4 }
{
    let mut table = [0; 1028];
    let Ok(()) = degrees(store, live, &mut table) else {
        return 0;
    };
    let mut left = 0;
    for v in 0..inner {
        if table[v + 4] != 0 {
            left += 1;
        }
    }
    left
}

/// Whether a sheet with so many inner vertices can be sealed, of whose nodes some are live, or why not.
#[tactic(auto, unfolding(crate::specs::Seals::seal_said), using(rounds::proofs::Right::nodes_told))]
pub fn seal<S: ReadStore>(inner: u16, live: &[u16], store: &S) -> Result<(), Refusal>
    ensures { result ≡ seal_said inner (S.nodes store.now) live.now }
{
    if inner > 1024 {
        return Err(Refusal::new(Cause::OutOfRange, Layer::Build, 0));
    }
    if let Some(place) = wrong_nodes(inner, store, live) {
        return Err(Refusal::new(Cause::OutOfRange, Layer::Build, place));
    }
    let left = count_left(usize::from(inner), live, store);
    left_said(left, live.len())
}
