ghost use Rattle.std.specs.Prelude.{◌≡◌, [], ◌∷◌, length, map, min, Ok as Good};
ghost use Rattle.sheet.specs.Load.{upon};
ghost use Rattle.reader.specs.Reading.{and_then};
ghost use Rattle.sheet.specs.Sheets.{edges_of, loops_of, points_of};
ghost use Rattle.bottom.specs.Cuts.{cut_live, cut_nodes};
ghost use Rattle.rounds.specs.Rounds.{RoundLive, round_nodes};
ghost use Rattle.board.specs.Turns.{SheetPasses, bare, check_board, checks, cut_board, cuts, round_board, round_room, rounds, seal_board, seals, is_loaded, is_sealed, list_answers, lists, load_board, loads, places};
ghost use Rattle.board.specs.Standing.{ListTold, TipTold};
ghost use Rattle.board.specs.Law.{ListRight, RightNext, SealFew};
ghost use Rattle.board.specs.Unaltered.{CutUnaltered, RoundUnaltered, SealUnaltered};
ghost use Rattle.board.specs.Judging.{DraftJudged};

use crate::stage::{Board, Stage};
use bottom::{LEAST_LIVE, cut_tables, have_room};
use checking::{check_tables, front};
use lent::{LentList, LentView};
use nodes::{ReadStore, WriteStore};
use placing::{place_all, place_tip};
use plane::{Edge, Kernel, Point};
use refusal::{Cause, Layer, Refusal};
use rules::Stroke;
use sheet::{LEAST_POINTS, Loop, Size};
use walk::Found;

// Whether the tables that a round and a place are lent have room for every sheet.
fn have_points(points: &[Point], live: &[u16]) -> bool
    ensures { result ≡ round_room (length points.now) (length live.now) }
{
    points.len() >= LEAST_POINTS && live.len() >= LEAST_LIVE
}

// A number of sixteen bits, as near as one comes.
fn sixteen_bits(n: usize) -> u16
    ensures { result ≡ min 65535 n }
{
    n.min(65535) as u16
}

impl Board {
    /// A board with an empty Draft.
    pub fn new() -> Board
        ensures { result ≡ bare }
    {
        Board {
            stage: Stage::Draft,
            size: Size::default(),
            live: 0,
            rounds: 0,
        }
    }

    /// Replaces the Draft by the sheet of a file; a refusal leaves the board and the tables as they are.
    // Tables one by one, as `sheet::load` takes them, for its reason.
    pub fn load(
        &mut self,
        file: &[u8],
        points: &mut [Point],
        edges: &mut [Edge],
        loops: &mut [Loop],
        live: &mut [u16],
    ) -> Result<(), Refusal>
        ensures said { result ≡ and_then (loads self.old points.old edges.old loops.old live.old file.now) (λ _. Good tt) }
        ensures board { self.new ≡ load_board (loads self.old points.old edges.old loops.old live.old file.now) self.old }
        ensures points { points.new ≡ upon (loads self.old points.old edges.old loops.old live.old file.now) points_of points.old }
        ensures edges { edges.new ≡ upon (loads self.old points.old edges.old loops.old live.old file.now) edges_of edges.old }
        ensures loops { loops.new ≡ upon (loads self.old points.old edges.old loops.old live.old file.now) loops_of loops.old }
        ensures live { live.new ≡ live.old }
    {
        if !have_room(points, edges, loops, live) {
            return Err(Refusal::new(Cause::TableTooShort, Layer::File, 0));
        }
        let Stage::Draft = self.stage else {
            return Err(Refusal::new(Cause::NotThisStage, Layer::File, 0));
        };
        let size = sheet::load(file, points, edges, loops)?;
        let mut nodes = LentList::over(live, usize::from(self.live));
        nodes.empty();
        *self = Board {
            stage: Stage::Draft,
            size,
            live: nodes.count() as u16,
            rounds: 0,
        };
        Ok(())
    }

    /// Finds whether the Draft's sheet keeps the eight rules, and makes it Checked; a refusal leaves the board as it is. `strokes` is
    /// scratch.
    #[tactic(auto, using(crate::proofs::Passing::loaded_passes, crate::proofs::Passing::none_passes, crate::proofs::Passing::short_passes, crate::proofs::Judged::loaded_judged, crate::proofs::Judged::none_judged, crate::proofs::Judged::short_drafts))]
    pub fn check(
        &mut self,
        points: &[Point],
        edges: &[Edge],
        loops: &[Loop],
        strokes: &mut [Stroke],
    ) -> Result<(), Refusal>
        ensures said { result ≡ checks self.old points.now edges.now loops.now (length strokes.old) }
        ensures board { self.new ≡ check_board result self.old }
        ensures sheet { SheetPasses self.old points.now edges.now loops.now (length strokes.old) result }
        ensures rules { DraftJudged self.old points.now edges.now loops.now (length strokes.old) result }
    {
        if !checking::have_room(points, edges, loops, strokes) {
            return Err(Refusal::new(Cause::TableTooShort, Layer::Check, 0));
        }
        if !self.is_loaded() {
            return Err(Refusal::new(Cause::NotThisStage, Layer::Check, 0));
        }
        check_tables(self.size, points, edges, loops, strokes)?;
        self.stage = Stage::Checked;
        Ok(())
    }

    // Whether the board has a Draft that is not empty.
    fn is_loaded(&self) -> bool
        ensures { result ≡ is_loaded self.now }
    {
        self.stage == Stage::Draft && self.size.width != 0
    }

    /// Cuts the loops of a Checked sheet into the store, all of whose nodes are live then, and makes it Layered. A refusal leaves board,
    /// live table and store as they are, but a loop that is stuck leaves the store empty.
    #[tactic(auto, using(crate::proofs::Unaltered::cut_unaltered))]
    pub fn cut<S: WriteStore>(
        &mut self,
        points: &[Point],
        edges: &[Edge],
        loops: &[Loop],
        live: &mut [u16],
        store: &mut S,
    ) -> Result<(), Refusal>
        ensures said { result ≡ and_then (cuts self.old points.now edges.now loops.now (length live.old) (S.WriteStore.room store.old)) (λ _. Good tt) }
        ensures board { self.new ≡ cut_board (cuts self.old points.now edges.now loops.now (length live.old) (S.WriteStore.room store.old)) self.old }
        ensures nodes { S.ReadStore.nodes store.new ≡ cut_nodes (cuts self.old points.now edges.now loops.now (length live.old) (S.WriteStore.room store.old)) (S.ReadStore.nodes store.old) }
        ensures room { S.WriteStore.room store.new ≡ S.WriteStore.room store.old }
        ensures live { live.new ≡ cut_live (cuts self.old points.now edges.now loops.now (length live.old) (S.WriteStore.room store.old)) live.old }
        ensures unaltered { CutUnaltered self.old points.now edges.now loops.now live.old (S.ReadStore.nodes store.old) (S.WriteStore.room store.old) result }
    {
        if !have_room(points, edges, loops, live) {
            return Err(Refusal::new(Cause::TableTooShort, Layer::Build, 0));
        }
        let Stage::Checked = self.stage else {
            return Err(Refusal::new(Cause::NotThisStage, Layer::Build, 0));
        };
        let live = cut_tables(self.size, points, edges, loops, live, store)?;
        *self = Board {
            stage: Stage::Layered,
            size: self.size,
            live,
            rounds: 0,
        };
        Ok(())
    }

    /// Takes out as many inner vertices of a Layered sheet as one round can, closes their holes with new nodes, and makes these live in place
    /// of the old. A refusal leaves board, live table and store as they are.
    #[tactic(auto, using(crate::proofs::Unaltered::round_unaltered))]
    pub fn round<S: WriteStore>(
        &mut self,
        points: &[Point],
        live: &mut [u16],
        store: &mut S,
    ) -> Result<(), Refusal>
        ensures said { result ≡ and_then (rounds self.old points.now live.old (S.ReadStore.nodes store.old) (S.WriteStore.room store.old)) (λ _. Good tt) }
        ensures board { self.new ≡ round_board (rounds self.old points.now live.old (S.ReadStore.nodes store.old) (S.WriteStore.room store.old)) self.old }
        ensures nodes { S.ReadStore.nodes store.new ≡ round_nodes (rounds self.old points.now live.old (S.ReadStore.nodes store.old) (S.WriteStore.room store.old)) (S.ReadStore.nodes store.old) }
        ensures room { S.WriteStore.room store.new ≡ S.WriteStore.room store.old }
        ensures live { RoundLive (rounds self.old points.now live.old (S.ReadStore.nodes store.old) (S.WriteStore.room store.old)) live.old live.new }
        ensures unaltered { RoundUnaltered self.old points.now live.old (S.ReadStore.nodes store.old) (S.WriteStore.room store.old) result }
    {
        if !have_points(points, live) {
            return Err(Refusal::new(Cause::TableTooShort, Layer::Build, 0));
        }
        let Stage::Layered = self.stage else {
            return Err(Refusal::new(Cause::NotThisStage, Layer::Build, 0));
        };
        let points = front(points, usize::from(self.size.inner) + 4);
        let count = usize::from(self.live);
        let count = rounds::round(self.size, points, live, count, self.rounds, store)?;
        self.live = sixteen_bits(count);
        self.rounds = self.rounds.saturating_add(1);
        Ok(())
    }

    /// Makes a Layered sheet Sealed whose inner vertices are all taken out; a refusal leaves the board as it is.
    #[tactic(auto, using(crate::proofs::Lawful::seal_few, crate::proofs::Unaltered::seal_unaltered))]
    pub fn seal<S: ReadStore>(&mut self, live: &[u16], store: &S) -> Result<(), Refusal>
        ensures said { result ≡ seals self.old live.now (S.nodes store.now) }
        ensures board { self.new ≡ seal_board (seals self.old live.now (S.nodes store.now)) self.old }
        ensures few { SealFew self.old live.now (S.nodes store.now) result }
        ensures unaltered { SealUnaltered self.old live.now (S.nodes store.now) result }
    {
        if live.len() < LEAST_LIVE {
            return Err(Refusal::new(Cause::TableTooShort, Layer::Build, 0));
        }
        let Stage::Layered = self.stage else {
            return Err(Refusal::new(Cause::NotThisStage, Layer::Build, 0));
        };
        let live = LentView::over(live, usize::from(self.live)).elements();
        sealing::seal(self.size.inner, live, store)?;
        self.stage = Stage::Sealed;
        Ok(())
    }

    // Whether the sheet is ready for tips.
    fn is_sealed(&self) -> bool
        ensures { result ≡ is_sealed self.now.stage }
    {
        self.stage == Stage::Sealed
    }

    /// Names the vertex, open edge or open face of a Sealed sheet that holds the tip, and counts the sides that were tested for it.
    #[tactic(auto, using(crate::proofs::Standing::tip_told, crate::proofs::Lawful::next_place))]
    pub fn place<K: Kernel, S: ReadStore>(
        &mut self,
        tip: &K,
        points: &[Point],
        live: &[u16],
        store: &S,
    ) -> Result<Found, Refusal>
        ensures said { result ≡ places self.old points.now live.now (S.nodes store.now) (K.means tip.now) }
        ensures board { self.new ≡ self.old }
        ensures tells { TipTold self.old points.now live.now (S.nodes store.now) (K.means tip.now) result }
        ensures right { RightNext self.old points.now live.now (S.nodes store.now) (K.means tip.now ∷ []) (result ∷ []) }
    {
        if !have_points(points, live) {
            return Err(Refusal::new(Cause::TableTooShort, Layer::Place, 0));
        }
        if !self.is_sealed() {
            return Err(Refusal::new(Cause::NotThisStage, Layer::Place, 0));
        }
        let points = front(points, usize::from(self.size.inner) + 4);
        let tops = LentView::over(live, usize::from(self.live)).elements();
        place_tip(self.size, tip, 0, points, tops, store)
    }

    // Answers tips one after another.
    #[tactic(auto, using(crate::proofs::Listing::whole_list))]
    fn answer<K: Kernel, S: ReadStore>(
        &self,
        tips: &[K],
        points: &[Point],
        live: &[u16],
        store: &S,
        answers: &mut [Result<Found, Refusal>],
    ) -> Result<(), Refusal>
        ensures said { result ≡ and_then (lists self.now points.now live.now (S.nodes store.now) (map K.means tips.now) (length answers.old)) (λ _. Good tt) }
        ensures answers { answers.new ≡ list_answers (lists self.now points.now live.now (S.nodes store.now) (map K.means tips.now) (length answers.old)) answers.old }
    {
        if !(tips.len() <= answers.len() && have_points(points, live)) {
            return Err(Refusal::new(Cause::TableTooShort, Layer::Place, 0));
        }
        if !self.is_sealed() {
            return Err(Refusal::new(Cause::NotThisStage, Layer::Place, 0));
        }
        let points = front(points, usize::from(self.size.inner) + 4);
        let tops = LentView::over(live, usize::from(self.live)).elements();
        place_all(self.size, tips, points, tops, store, answers);
        Ok(())
    }

    /// Answers tips of a Sealed sheet one after another into a table that has an entry for each; the entry of a refused tip has its refusal, and
    /// the entries behind stay.
    #[tactic(auto, using(crate::proofs::Lawful::list_right, crate::proofs::Standing::list_told))]
    pub fn list<K: Kernel, S: ReadStore>(
        &mut self,
        tips: &[K],
        points: &[Point],
        live: &[u16],
        store: &S,
        answers: &mut [Result<Found, Refusal>],
    ) -> Result<(), Refusal>
        ensures said { result ≡ and_then (lists self.old points.now live.now (S.nodes store.now) (map K.means tips.now) (length answers.old)) (λ _. Good tt) }
        ensures board { self.new ≡ self.old }
        ensures answers { answers.new ≡ list_answers (lists self.old points.now live.now (S.nodes store.now) (map K.means tips.now) (length answers.old)) answers.old }
        ensures tells { ListTold self.old points.now live.now (S.nodes store.now) (map K.means tips.now) answers.new result }
        ensures right { ListRight self.old points.now live.now (S.nodes store.now) (map K.means tips.now) answers.new result }
    {
        self.answer(tips, points, live, store, answers)
    }

    /// Makes an empty Draft and empties the store; never refused.
    pub fn wipe<S: WriteStore>(&mut self, store: &mut S)
        ensures board { self.new ≡ bare }
        ensures nodes { S.ReadStore.nodes store.new ≡ [] }
        ensures room { S.WriteStore.room store.new ≡ S.WriteStore.room store.old }
    {
        store.empty();
        *self = Board::new();
    }
}
