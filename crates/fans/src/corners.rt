//! The corners of a node.
ghost use Rattle.std.specs.Prelude.{◌≡◌, slice_index_or};
ghost use Rattle.fans.specs.Around.{corners_of, corners_said};
ghost use Rattle.nodes.specs.Nodes.{blank};

use nodes::ReadStore;
use plane::Corners;
use refusal::Refusal;

// The corners of node `k`, or the store's refusal.
pub(crate) fn read_corners<S: ReadStore>(store: &S, k: u16) -> Result<Corners, Refusal>
    ensures { result ≡ corners_said (S.nodes store.now) k }
{
    let k = usize::from(k);
    let a = store.number(k, 0)?;
    let b = store.number(k, 1)?;
    let c = store.number(k, 2)?;
    Ok(Corners { a, b, c })
}

/// The corners of node `k`, each 0 where there is no such node.
#[tactic(auto, using(crate::proofs::Tallies::corners_or_none))]
pub fn corners_at<S: ReadStore>(store: &S, k: u16) -> Corners
    ensures { result ≡ corners_of (slice_index_or (S.nodes store.now) k blank) }
{
    read_corners(store, k).unwrap_or_default()
}
