//! A board with tables of its own, for a program that has a heap.
#![tactic(auto)]

ghost use Rattle.std.specs.Prelude.{◌≡◌, [], ◌∷◌, IfOk, Ok as Good, length, map, vec_len};
ghost use Rattle.reader.specs.Reading.{and_then};
ghost use Rattle.sheet.specs.Load.{upon};
ghost use Rattle.sheet.specs.Sheets.{edges_of, loops_of, points_of};
ghost use Rattle.bottom.specs.Cuts.{cut_live, cut_nodes};
ghost use Rattle.rounds.specs.Rounds.{RoundLive, round_nodes};
ghost use Rattle.board.specs.Standing.{ListTold, TipTold};
ghost use Rattle.board.specs.Law.{ListRight, RightNext, SealFew};
ghost use Rattle.board.specs.Unaltered.{CutUnaltered, RoundUnaltered, SealUnaltered};
ghost use Rattle.board.specs.Turns.{bare, check_board, cut_board, list_answers, live_of, load_board, places, round_board, seal_board, seals};
ghost use Rattle.desk.specs.Desks.{IsFresh, TablesStay, desk_checks, desk_cuts, desk_lists, desk_loads, desk_rounds};

use board::{Board, LEAST_LIVE, Stage};
use checking::LEAST_STROKES;
use lent::LentView;
use nodes::{ReadStore, WriteStore};
use plane::{Edge, Kernel, Point};
use refusal::Refusal;
use rules::Stroke;
use sheet::{LEAST_EDGES, LEAST_LOOPS, LEAST_POINTS, Loop, Size};
use std::alloc::{AllocError, Global};
use walk::Found;

/// How many entries each table has.
#[derive(Clone, Copy, PartialEq, Eq, Debug)]
pub struct Lengths {
    /// For the vertices.
    pub points: usize,
    /// For the edge list.
    pub edges: usize,
    /// For the edges of the sheet as segments, which a check keeps there.
    pub strokes: usize,
    /// For the loops.
    pub loops: usize,
    /// For the numbers of the live nodes.
    pub live: usize,
}

/// The least lengths with which a sheet is loaded and checked.
pub const LEAST: Lengths = Lengths {
    points: LEAST_POINTS,
    edges: LEAST_EDGES,
    strokes: LEAST_STROKES,
    loops: LEAST_LOOPS,
    live: LEAST_LIVE,
};

/// A board, and the tables that it lends to its turns.
#[derive(Drop)]
pub struct Desk {
    // The board, which knows the sheet's stage and size: no caller can set another.
    board: Board,
    /// The corners of the sheet, and then its inner vertices.
    pub points: Vec<Point>,
    /// The directed edges of all loops, and then the four outside edges.
    pub edges: Vec<Edge>,
    /// What a check keeps while it is made.
    pub strokes: Vec<Stroke>,
    /// The loops.
    pub loops: Vec<Loop>,
    /// The numbers of the live nodes, ascending.
    pub live: Vec<u16>,
}

impl Desk {
    /// An empty Draft, over tables of these lengths, in which all is zeros.
    pub fn new(heap: Global, lengths: Lengths) -> Result<Desk, AllocError>
        ensures { IfOk result (IsFresh lengths) }
    {
        Ok(Desk {
            board: Board::new(),
            points: vec![in heap; Point::default(); lengths.points]?,
            edges: vec![in heap; Edge::default(); lengths.edges]?,
            strokes: vec![in heap; Stroke::default(); lengths.strokes]?,
            loops: vec![in heap; Loop::default(); lengths.loops]?,
            live: vec![in heap; 0; lengths.live]?,
        })
    }

    /// Begins anew with an empty Draft over the tables as they are, and over a store that holds anything; the sheet before it is let go.
    pub fn begin(&mut self)
        ensures board { self.new.board ≡ bare }
        ensures live { self.new.live.items ≡ self.old.live.items }
        ensures tables { TablesStay self.old self.new }
    {
        self.board = Board::new();
    }

    /// How far the sheet has come.
    pub fn stage(&self) -> Stage
        ensures { result ≡ self.now.board.stage }
    {
        self.board.stage()
    }

    /// How large the sheet is; all zeros for an empty Draft.
    pub fn size(&self) -> Size
        ensures { result ≡ self.now.board.size }
    {
        self.board.size()
    }

    /// How many rounds were granted since the cut; it stays at 65,535.
    pub fn rounds(&self) -> u16
        ensures { result ≡ self.now.board.rounds }
    {
        self.board.rounds()
    }

    /// The numbers of the live nodes: the first of their table.
    pub fn live_nodes(&self) -> &[u16]
        ensures { result.now ≡ live_of self.now.board self.now.live.items }
    {
        LentView::over(self.live.as_slice(), usize::from(self.board.live())).elements()
    }

    /// Replaces the Draft by the sheet of a file; a refusal leaves the board and the tables as they are.
    pub fn load(&mut self, file: &[u8]) -> Result<(), Refusal>
        ensures said { result ≡ and_then (desk_loads self.old file.now) (λ _. Good tt) }
        ensures board { self.new.board ≡ load_board (desk_loads self.old file.now) self.old.board }
        ensures points { self.new.points.items ≡ upon (desk_loads self.old file.now) points_of self.old.points.items }
        ensures edges { self.new.edges.items ≡ upon (desk_loads self.old file.now) edges_of self.old.edges.items }
        ensures loops { self.new.loops.items ≡ upon (desk_loads self.old file.now) loops_of self.old.loops.items }
        ensures live { self.new.live.items ≡ self.old.live.items }
        ensures strokes { self.new.strokes.items ≡ self.old.strokes.items }
    {
        let points = self.points.as_mut_slice();
        let edges = self.edges.as_mut_slice();
        let loops = self.loops.as_mut_slice();
        let live = self.live.as_mut_slice();
        self.board.load(file, points, edges, loops, live)
    }

    /// Finds whether the Draft's sheet keeps the eight rules, and makes it Checked; a refusal leaves the board as it is.
    pub fn check(&mut self) -> Result<(), Refusal>
        ensures said { result ≡ desk_checks self.old }
        ensures board { self.new.board ≡ check_board result self.old.board }
        ensures points { self.new.points.items ≡ self.old.points.items }
        ensures edges { self.new.edges.items ≡ self.old.edges.items }
        ensures loops { self.new.loops.items ≡ self.old.loops.items }
        ensures live { self.new.live.items ≡ self.old.live.items }
        ensures strokes { vec_len self.new.strokes ≡ vec_len self.old.strokes }
    {
        let points = self.points.as_slice();
        let edges = self.edges.as_slice();
        let loops = self.loops.as_slice();
        let strokes = self.strokes.as_mut_slice();
        self.board.check(points, edges, loops, strokes)
    }

    /// Cuts the loops of a Checked sheet into the store, and makes it Layered, as the board does.
    pub fn cut<S: WriteStore>(&mut self, store: &mut S) -> Result<(), Refusal>
        ensures said { result ≡ and_then (desk_cuts self.old (S.WriteStore.room store.old)) (λ _. Good tt) }
        ensures board { self.new.board ≡ cut_board (desk_cuts self.old (S.WriteStore.room store.old)) self.old.board }
        ensures nodes { S.ReadStore.nodes store.new ≡ cut_nodes (desk_cuts self.old (S.WriteStore.room store.old)) (S.ReadStore.nodes store.old) }
        ensures room { S.WriteStore.room store.new ≡ S.WriteStore.room store.old }
        ensures live { self.new.live.items ≡ cut_live (desk_cuts self.old (S.WriteStore.room store.old)) self.old.live.items }
        ensures unaltered { CutUnaltered self.old.board self.old.points.items self.old.edges.items self.old.loops.items self.old.live.items (S.ReadStore.nodes store.old) (S.WriteStore.room store.old) result }
        ensures tables { TablesStay self.old self.new }
    {
        let points = self.points.as_slice();
        let edges = self.edges.as_slice();
        let loops = self.loops.as_slice();
        let live = self.live.as_mut_slice();
        self.board.cut(points, edges, loops, live, store)
    }

    /// One round of a Layered sheet, as the board makes it.
    pub fn round<S: WriteStore>(&mut self, store: &mut S) -> Result<(), Refusal>
        ensures said { result ≡ and_then (desk_rounds self.old (S.ReadStore.nodes store.old) (S.WriteStore.room store.old)) (λ _. Good tt) }
        ensures board { self.new.board ≡ round_board (desk_rounds self.old (S.ReadStore.nodes store.old) (S.WriteStore.room store.old)) self.old.board }
        ensures nodes { S.ReadStore.nodes store.new ≡ round_nodes (desk_rounds self.old (S.ReadStore.nodes store.old) (S.WriteStore.room store.old)) (S.ReadStore.nodes store.old) }
        ensures room { S.WriteStore.room store.new ≡ S.WriteStore.room store.old }
        ensures live { RoundLive (desk_rounds self.old (S.ReadStore.nodes store.old) (S.WriteStore.room store.old)) self.old.live.items self.new.live.items }
        ensures unaltered { RoundUnaltered self.old.board self.old.points.items self.old.live.items (S.ReadStore.nodes store.old) (S.WriteStore.room store.old) result }
        ensures table { length self.new.live.items ≡ length self.old.live.items }
        ensures tables { TablesStay self.old self.new }
    {
        let points = self.points.as_slice();
        let live = self.live.as_mut_slice();
        self.board.round(points, live, store)
    }

    /// Seals a Layered sheet whose inner vertices are all taken out, as the board does.
    pub fn seal<S: ReadStore>(&mut self, store: &S) -> Result<(), Refusal>
        ensures said { result ≡ seals self.old.board self.old.live.items (S.nodes store.now) }
        ensures board { self.new.board ≡ seal_board (seals self.old.board self.old.live.items (S.nodes store.now)) self.old.board }
        ensures few { SealFew self.old.board self.old.live.items (S.nodes store.now) result }
        ensures unaltered { SealUnaltered self.old.board self.old.live.items (S.nodes store.now) result }
        ensures live { self.new.live.items ≡ self.old.live.items }
        ensures tables { TablesStay self.old self.new }
    {
        let live = self.live.as_slice();
        self.board.seal(live, store)
    }

    /// Names the cell of a Sealed sheet that holds the tip, as the board does.
    pub fn place<K: Kernel, S: ReadStore>(&mut self, tip: &K, store: &S) -> Result<Found, Refusal>
        ensures said { result ≡ places self.old.board self.old.points.items self.old.live.items (S.nodes store.now) (K.means tip.now) }
        ensures tells { TipTold self.old.board self.old.points.items self.old.live.items (S.nodes store.now) (K.means tip.now) result }
        ensures right { RightNext self.old.board self.old.points.items self.old.live.items (S.nodes store.now) (K.means tip.now ∷ []) (result ∷ []) }
        ensures board { self.new.board ≡ self.old.board }
        ensures live { self.new.live.items ≡ self.old.live.items }
        ensures tables { TablesStay self.old self.new }
    {
        let points = self.points.as_slice();
        let live = self.live.as_slice();
        self.board.place(tip, points, live, store)
    }

    /// Answers tips of a Sealed sheet one after another into a table, as the board does.
    pub fn list<K: Kernel, S: ReadStore>(
        &mut self,
        tips: &[K],
        store: &S,
        answers: &mut [Result<Found, Refusal>],
    ) -> Result<(), Refusal>
        ensures said { result ≡ and_then (desk_lists self.old (S.nodes store.now) (map K.means tips.now) (length answers.old)) (λ _. Good tt) }
        ensures board { self.new.board ≡ self.old.board }
        ensures answers { answers.new ≡ list_answers (desk_lists self.old (S.nodes store.now) (map K.means tips.now) (length answers.old)) answers.old }
        ensures tells { ListTold self.old.board self.old.points.items self.old.live.items (S.nodes store.now) (map K.means tips.now) answers.new result }
        ensures right { ListRight self.old.board self.old.points.items self.old.live.items (S.nodes store.now) (map K.means tips.now) answers.new result }
        ensures live { self.new.live.items ≡ self.old.live.items }
        ensures tables { TablesStay self.old self.new }
    {
        let points = self.points.as_slice();
        let live = self.live.as_slice();
        self.board.list(tips, points, live, store, answers)
    }

    /// Makes an empty Draft and empties the store, as the board does; never refused.
    pub fn wipe<S: WriteStore>(&mut self, store: &mut S)
        ensures board { self.new.board ≡ bare }
        ensures nodes { S.ReadStore.nodes store.new ≡ [] }
        ensures room { S.WriteStore.room store.new ≡ S.WriteStore.room store.old }
        ensures live { self.new.live.items ≡ self.old.live.items }
        ensures tables { TablesStay self.old self.new }
    {
        self.board.wipe(store);
    }
}

#[cfg(test)]
mod tests;
