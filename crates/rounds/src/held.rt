//! The live nodes with their corners, read once.
ghost use Rattle.std.specs.Prelude.{◌≡◌, ◌≤◌, length, take};
ghost use Rattle.rounds.specs.Near.{held_of, near, turned_held};

use fans::{Turned, corners_at, turn};
use nodes::ReadStore;
use plane::Corners;

/// A live node: its number, and its corners.
// A round asks each vertex for the nodes around it, so it reads the store once and then goes over these.
#[derive(Clone, Copy, Default)]
pub(crate) struct Held {
    pub(crate) node: u16,
    pub(crate) corners: Corners,
}

// Puts the live nodes into the front of `held`.
pub(crate) fn hold<S: ReadStore>(store: &S, live: &[u16], held: &mut [Held])
    requires { length live.now ≤ length held.old }
    ensures { take (length live.now) held.new ≡ held_of (S.nodes store.now) live.now }
{
    for (i, k) in live.iter().enumerate() {
        held[i] = Held {
            node: *k,
            corners: corners_at(store, *k),
        };
    }
}

// A live node turned to a vertex, if it has that corner.
fn turned_at(vertex: u16, item: &Held) -> Option<Turned>
    ensures { result ≡ turned_held vertex item.now }
{
    turn(vertex, item.node, item.corners)
}

// Puts those that have corner `vertex` into the front of `found`, in their order, each as it turns there, and answers how many they are.
#[tactic(auto, using(crate::proofs::Nears::gathering))]
pub(crate) fn gather(held: &[Held], vertex: u16, found: &mut [Turned]) -> usize
    requires { length held.now ≤ length found.old }
    ensures around { take result found.new ≡ near held.now vertex }
    ensures within { result ≤ length held.now }
{
    let mut count = 0;
    for item in held {
        let Some(turned) = turned_at(vertex, item) else {
            continue;
        };
        found[count] = turned;
        count += 1;
    }
    count
}
