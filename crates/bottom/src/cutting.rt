//! The cut of a sheet in the caller's tables.
ghost use Rattle.std.specs.Prelude.{◌≡◌, ◌+◌, ◌*◌, ◌≤◌, length, map, None as Nothing, true};
ghost use Rattle.std.specs.List.{All, range_with_len};
ghost use Rattle.lent.specs.Kept.{over};
ghost use Rattle.plane.specs.Points.{place_of};
ghost use Rattle.rules.specs.Held.{loop_edges as loop_edges_of, triangles_at};
ghost use Rattle.rules.specs.Rules.{triangles_in};
ghost use Rattle.checking.specs.Entries.{wrong_entry as wrong_entry_of};
ghost use Rattle.checking.specs.Held.{held_sheet, ring_at};
ghost use Rattle.bottom.specs.Bottom.{bottom_of, cut_loops as cut_loops_of};
ghost use Rattle.bottom.specs.Cuts.{Within, answered, build_room, cut_live, cut_nodes, cut_said, filled_nodes, filled_said, fronts_cut, sheet_cut, tables_cut};

use crate::loops::cut_loops;
use checking::{front, wrong_entry};
use lent::LentList;
use nodes::WriteStore;
use plane::{Edge, Point};
use refusal::{Cause, Layer, Refusal};
use rules::sum_broken;
use sheet::{Loop, Size};

/// The least length of the table of live nodes.
pub const LEAST_LIVE: usize = 2050;

/// Whether the tables that a load and a cut are lent have room for every sheet.
pub fn have_room(points: &[Point], edges: &[Edge], loops: &[Loop], live: &[u16]) -> bool
    ensures { result ≡ build_room (length points.now) (length edges.now) (length loops.now) (length live.now) }
{
    live.len() >= LEAST_LIVE && sheet::have_room(points, edges, loops)
}

// Numbers the front of the live table, which has room: all nodes are live.
fn number(live: &mut [u16], count: u16)
    requires { count ≤ length live.old }
    ensures { live.new ≡ over (range_with_len 0 count) live.old }
{
    let mut list = LentList::over(live, 0);
    list.append_range(0, count);
}

// Cuts the loops into the store, which has room for their nodes, or leaves it empty where one is stuck.
fn fill<S: WriteStore>(
    points: &[Point],
    listed: &[Edge],
    edges: &[Edge],
    loops: &[Loop],
    store: &mut S,
) -> Result<(), Refusal>
    requires short { All (λ l. length (loop_edges_of edges.now l) ≤ 1028) loops.now }
    requires few { length loops.now ≤ 65535 }
    requires within { All (λ l. Within (loop_edges_of edges.now l) listed.now) loops.now }
    requires room { triangles_in (map (ring_at edges.now) loops.now) ≤ S.WriteStore.room store.old }
    ensures said { result ≡ filled_said (cut_loops_of (place_of points.now) listed.now 0 (map (ring_at edges.now) loops.now)) }
    ensures nodes { S.ReadStore.nodes store.new ≡ filled_nodes (cut_loops_of (place_of points.now) listed.now 0 (map (ring_at edges.now) loops.now)) }
    ensures room { S.WriteStore.room store.new ≡ S.WriteStore.room store.old }
{
    store.empty();
    let Some(stuck) = cut_loops(points, listed, edges, loops, store) else {
        return Ok(());
    };
    store.empty();
    Err(Refusal::new(Cause::Stuck, Layer::Build, stuck))
}

// The cut over the fronts of tables that hold a sheet.
fn cut_fronts<S: WriteStore>(
    inner: u16,
    points: &[Point],
    listed: &[Edge],
    edges: &[Edge],
    loops: &[Loop],
    live: &mut [u16],
    store: &mut S,
) -> Result<u16, Refusal>
    requires few_inner { inner ≤ 1024 }
    requires short { All (λ l. length (loop_edges_of edges.now l) ≤ 1028) loops.now }
    requires few { length loops.now ≤ 65535 }
    requires within { All (λ l. Within (loop_edges_of edges.now l) listed.now) loops.now }
    requires rows { triangles_in (map (ring_at edges.now) loops.now) ≡ triangles_at loops.now }
    requires live { 2050 ≤ length live.old }
    ensures said { result ≡ answered (fronts_cut (S.WriteStore.room store.old) inner points.now listed.now edges.now loops.now) }
    ensures nodes { S.ReadStore.nodes store.new ≡ cut_nodes (fronts_cut (S.WriteStore.room store.old) inner points.now listed.now edges.now loops.now) (S.ReadStore.nodes store.old) }
    ensures room { S.WriteStore.room store.new ≡ S.WriteStore.room store.old }
    ensures live { live.new ≡ cut_live (fronts_cut (S.WriteStore.room store.old) inner points.now listed.now edges.now loops.now) live.old }
{
    if sum_broken(inner, loops).is_some() {
        return Err(Refusal::new(Cause::OutOfRange, Layer::Build, loops.len()));
    }
    let needed = 2 * inner + 2;
    if store.capacity() < usize::from(needed) {
        return Err(Refusal::new(Cause::StoreFull, Layer::Build, usize::from(needed)));
    }
    fill(points, listed, edges, loops, store)?;
    number(live, needed);
    Ok(needed)
}

// The cut over tables that have room and hold a sheet.
fn cut_held<S: WriteStore>(
    size: Size,
    points: &[Point],
    edges: &[Edge],
    loops: &[Loop],
    live: &mut [u16],
    store: &mut S,
) -> Result<u16, Refusal>
    requires room { build_room (length points.now) (length edges.now) (length loops.now) (length live.old) ≡ true }
    requires held { wrong_entry_of size points.now edges.now loops.now ≡ Nothing }
    ensures said { result ≡ answered (sheet_cut (S.WriteStore.room store.old) (held_sheet size points.now edges.now loops.now)) }
    ensures nodes { S.ReadStore.nodes store.new ≡ cut_nodes (sheet_cut (S.WriteStore.room store.old) (held_sheet size points.now edges.now loops.now)) (S.ReadStore.nodes store.old) }
    ensures room { S.WriteStore.room store.new ≡ S.WriteStore.room store.old }
    ensures live { live.new ≡ cut_live (sheet_cut (S.WriteStore.room store.old) (held_sheet size points.now edges.now loops.now)) live.old }
{
    let fronts = front(points, usize::from(size.inner) + 4);
    let listed = front(edges, usize::from(size.corners) + 4);
    let loops = front(loops, usize::from(size.loops));
    cut_fronts(size.inner, fronts, listed, edges, loops, live, store)
}

/// Cuts the loops of the sheet that the tables hold into the store, all of whose nodes are live then, and answers how many they are, or
/// says why not.
#[tactic(auto, unfolding(crate::specs::Cuts::cut_said))]
pub fn cut_tables<S: WriteStore>(
    size: Size,
    points: &[Point],
    edges: &[Edge],
    loops: &[Loop],
    live: &mut [u16],
    store: &mut S,
) -> Result<u16, Refusal>
    ensures said { result ≡ answered (tables_cut size points.now edges.now loops.now (length live.old) (S.WriteStore.room store.old)) }
    ensures nodes { S.ReadStore.nodes store.new ≡ cut_nodes (tables_cut size points.now edges.now loops.now (length live.old) (S.WriteStore.room store.old)) (S.ReadStore.nodes store.old) }
    ensures room { S.WriteStore.room store.new ≡ S.WriteStore.room store.old }
    ensures live { live.new ≡ cut_live (tables_cut size points.now edges.now loops.now (length live.old) (S.WriteStore.room store.old)) live.old }
{
    if !have_room(points, edges, loops, live) {
        return Err(Refusal::new(Cause::TableTooShort, Layer::Build, 0));
    }
    if let Some(entry) = wrong_entry(size, points, edges, loops) {
        return Err(Refusal::new(Cause::OutOfRange, Layer::Build, entry));
    }
    cut_held(size, points, edges, loops, live, store)
}
