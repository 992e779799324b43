use crate::{BlockStore, Node, ReadStore, SliceStore, WriteStore};
use refusal::{Cause, Layer, Refusal};
use std::process::Abort;
use std::test::Fail;

// A node whose numbers all differ, also from those of the nodes beside it.
fn sample(k: usize) -> Node {
    let n = ((k % 100) as u16) * 600;
    let children = [n + 7, n + 8, n + 9, n + 10, n + 11, n + 12, n + 13, n + 270];
    Node {
        a: n + 1,
        b: n + 2,
        c: n + 3,
        ring: n + 4,
        sides: n + 5,
        count: n + 6,
        children,
    }
}

// Fills a store that has room for `room` nodes, and sees that it takes no more.
fn takes<S: WriteStore>(rt: &impl Abort, store: &mut S, room: usize) -> Result<(), Fail> {
    assert!(rt; store.capacity() == room && room < 100);
    for k in 0..room {
        assert_eq!(rt; store.count(), k);
        store.add(sample(k))?;
    }
    let full = Refusal::new(Cause::StoreFull, Layer::Store, room + 1);
    assert_eq!(rt; store.add(sample(room)), Err(full));
    assert_eq!(rt; full.cause.number(), 22);
    Ok(())
}

// Reads the nodes of a store that `takes` has filled, number by number.
fn reads<S: ReadStore>(rt: &impl Abort, store: &S, room: usize) -> Result<(), Fail> {
    for k in 0..room {
        for i in 0..14 {
            assert_eq!(rt; store.number(k, i)?, sample(k).number(i));
        }
    }
    assert_eq!(rt; store.count(), room);
    Ok(())
}

// Reads past the nodes of a store, and past the numbers of its first.
fn refuses<S: ReadStore>(rt: &impl Abort, store: &S, count: usize) {
    let past = Refusal::new(Cause::OutOfRange, Layer::Store, count);
    assert_eq!(rt; store.number(count, 0), Err(past));
    let first = Refusal::new(Cause::OutOfRange, Layer::Store, 0);
    assert_eq!(rt; store.number(0, 14), Err(first));
    assert_eq!(rt; past.cause.number(), 27);
}

// Sees that a store with room for `room` nodes keeps them until it is emptied.
fn keeps<S: WriteStore>(rt: &impl Abort, store: &mut S, room: usize) -> Result<(), Fail> {
    takes(rt, store, room)?;
    reads(rt, store, room)?;
    refuses(rt, store, room);
    store.empty();
    assert!(rt; store.count() == 0 && store.capacity() == room);
    refuses(rt, store, 0);
    Ok(())
}

#[test]
fn a_slice_store_keeps_its_nodes(rt: HostRuntime) -> Result<(), Fail> {
    let mut slots = [sample(99); 5];
    keeps(&rt, &mut SliceStore::new(&mut slots), 5)
}

#[test]
fn a_block_store_keeps_its_nodes(rt: HostRuntime) -> Result<(), Fail> {
    let mut bytes = [170u8; 1100];
    keeps(&rt, &mut BlockStore::new(&mut bytes), 36)
}

#[test]
fn node_18_begins_the_second_block(rt: HostRuntime) -> Result<(), Fail> {
    let mut bytes = [170u8; 1100];
    takes(&rt, &mut BlockStore::new(&mut bytes), 36)?;
    // the first bytes of nodes 0, 1 and 18, the last of nodes 17 and 18, and the unused ones around them
    assert_eq!(rt; (bytes[0], bytes[1], bytes[28], bytes[29]), (1, 0, 89, 2));
    assert_eq!(rt;
        (bytes[502], bytes[503], bytes[504], bytes[511]),
        (230, 40, 170, 170)
    );
    assert_eq!(rt;
        (bytes[512], bytes[513], bytes[539], bytes[1024]),
        (49, 42, 43, 170)
    );
    Ok(())
}
