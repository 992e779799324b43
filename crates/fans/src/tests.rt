use crate::{Turned, corners_at, degrees, fan, turn};
use nodes::{BlockStore, Node, ReadStore, SliceStore, WriteStore};
use plane::Corners;
use refusal::{Cause, Layer, Refusal};
use std::process::Abort;
use std::test::Fail;

fn node(a: u16, b: u16, c: u16) -> Node {
    Node {
        a,
        b,
        c,
        ..Node::default()
    }
}

fn turned(node: u16, next: u16, last: u16) -> Turned {
    Turned { node, next, last }
}

// Eight nodes around vertex 9, in no order, and one beside them.
fn fill<S: WriteStore>(store: &mut S) -> Result<(), Fail> {
    store.add(node(9, 1, 2))?;
    store.add(node(4, 9, 3))?;
    store.add(node(1, 2, 3))?;
    store.add(node(2, 3, 9))?;
    store.add(node(9, 7, 8))?;
    store.add(node(5, 9, 4))?;
    store.add(node(8, 1, 9))?;
    store.add(node(6, 9, 5))?;
    store.add(node(9, 6, 7))?;
    Ok(())
}

const LIVE: [u16; 9] = [0, 1, 2, 3, 4, 5, 6, 7, 8];

// Puts the nodes among these that have corner `vertex` into `found`, each as it turns there, and answers how many they are.
fn gather<S: ReadStore>(store: &S, live: &[u16], vertex: u16, found: &mut [Turned]) -> usize {
    let mut count: usize = 0;
    for k in live {
        let Some(turned) = turn(vertex, *k, corners_at(store, *k)) else {
            continue;
        };
        if let Some(entry) = found.get_mut(count) {
            *entry = turned;
        }
        count = count.saturating_add(1);
    }
    count
}

// The fan of vertex 9 goes round once.
fn goes_round<S: ReadStore>(rt: &impl Abort, store: &S) -> Result<(), Fail> {
    let mut found = [Turned::default(); 8];
    assert_eq!(rt; gather(store, &LIVE, 9, &mut found), 8);
    assert_eq!(rt; found[1], turned(1, 3, 4));
    let mut links = [Turned::default(); 10];
    assert_eq!(rt; fan(&found, &mut links), Some(8));
    let order = [0, 3, 1, 5, 7, 8, 4, 6];
    for i in 0..8 {
        assert_eq!(rt; links[i].node, order[i]);
        assert_eq!(rt; links[i].last, links[(i + 1) % 8].next);
    }
    assert_eq!(rt; fan(&found, &mut links[..7]), None);
    Ok(())
}

// Without node 6 the fan is broken, and vertex 10 has none.
fn is_broken<S: ReadStore>(rt: &impl Abort, store: &S) -> Result<(), Fail> {
    let mut found = [Turned::default(); 8];
    let live = [0, 1, 3, 4, 5, 7, 8];
    assert_eq!(rt; gather(store, &live, 9, &mut found), 7);
    let mut links = [Turned::default(); 8];
    assert_eq!(rt; fan(&found[..7], &mut links), None);
    assert_eq!(rt; gather(store, &live, 10, &mut found), 0);
    assert_eq!(rt; fan(&found[..0], &mut links), None);
    Ok(())
}

// A number that is no node is refused, and has no corners.
fn refuses<S: ReadStore>(rt: &impl Abort, store: &S) {
    let past = Refusal::new(Cause::OutOfRange, Layer::Store, 9);
    assert_eq!(rt; degrees(store, &[0, 9], &mut [0; 4]), Err(past));
    assert_eq!(rt; degrees(store, &[9, 10], &mut []), Err(past));
    assert_eq!(rt; corners_at(store, 9), Corners::default());
    assert_eq!(rt; corners_at(store, 3), Corners { a: 2, b: 3, c: 9 });
}

// Vertices past the table are passed over.
fn counts<S: ReadStore>(rt: &impl Abort, store: &S) -> Result<(), Fail> {
    let mut degree = [7; 10];
    degrees(store, &LIVE, &mut degree)?;
    assert_eq!(rt; degree, [0, 3, 3, 3, 2, 2, 2, 2, 2, 8]);
    let mut few = [7; 3];
    degrees(store, &LIVE[..3], &mut few)?;
    assert_eq!(rt; few, [0, 2, 2]);
    Ok(())
}

fn holds<S: WriteStore>(rt: &impl Abort, store: &mut S) -> Result<(), Fail> {
    fill(store)?;
    goes_round(rt, store)?;
    is_broken(rt, store)?;
    refuses(rt, store);
    counts(rt, store)
}

#[test]
fn the_fans_of_a_slice_store(rt: HostRuntime) -> Result<(), Fail> {
    holds(&rt, &mut SliceStore::new(&mut [Node::default(); 9]))
}

#[test]
fn the_fans_of_a_block_store(rt: HostRuntime) -> Result<(), Fail> {
    holds(&rt, &mut BlockStore::new(&mut [0; 512]))
}

#[test]
fn a_corner_that_comes_twice_counts_once(rt: HostRuntime) -> Result<(), Fail> {
    let mut slots = [Node::default(); 2];
    let mut store = SliceStore::new(&mut slots);
    store.add(node(1, 1, 2))?;
    store.add(node(2, 1, 2))?;
    let mut degree = [0; 3];
    degrees(&store, &[0, 1], &mut degree)?;
    assert_eq!(&rt; degree, [0, 2, 2]);
    let mut found = [Turned::default(); 2];
    assert_eq!(&rt; gather(&store, &[0, 1], 1, &mut found), 2);
    assert_eq!(&rt; found, [turned(0, 1, 2), turned(1, 2, 2)]);
    Ok(())
}

#[test]
fn a_fan_may_be_back_early_or_never(rt: HostRuntime) {
    let mut links = [Turned::default(); 4];
    let early = [
        turned(0, 1, 2),
        turned(1, 2, 3),
        turned(2, 3, 1),
        turned(3, 4, 5),
    ];
    assert_eq!(&rt; fan(&early, &mut links), Some(3));
    let never = [turned(0, 1, 2), turned(1, 2, 3), turned(2, 3, 2)];
    assert_eq!(&rt; fan(&never, &mut links), None);
}
