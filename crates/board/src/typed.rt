//! Sheets whose stage is their type: a turn takes one and gives the next, so that what is not of a sheet's stage does not compile. None of
//! them can be let go but by `end` or `wipe`. Each turn is the board's own.
ghost use Rattle.std.specs.Prelude.{◌≡◌, [], ◌∷◌, length, map, Ok as Good};
ghost use Rattle.sheet.specs.Load.{upon};
ghost use Rattle.sheet.specs.Sheets.{edges_of, loops_of, points_of};
ghost use Rattle.reader.specs.Reading.{and_then};
ghost use Rattle.bottom.specs.Cuts.{cut_live, cut_nodes};
ghost use Rattle.rounds.specs.Rounds.{RoundLive, round_nodes};
ghost use Rattle.board.specs.Turns.{bare, check_board, checks, cut_board, cuts, list_answers, lists, load_board, loads, places, round_board, rounds, seal_board, seals};
ghost use Rattle.board.specs.Standing.{ListTold, TipTold};
ghost use Rattle.board.specs.Law.{ListRight, RightNext, SealFew};
ghost use Rattle.board.specs.Unaltered.{CutUnaltered, RoundUnaltered, SealUnaltered};
ghost use Rattle.board.specs.Sheets.{board_of, checked_board, draft_board, layered_board, said_of, sealed_board};

use crate::stage::{Board, Stage};
use nodes::{ReadStore, WriteStore};
use plane::{Edge, Kernel, Point};
use refusal::Refusal;
use rules::Stroke;
use sheet::{Loop, Size};
use walk::Found;

/// A sheet that was loaded, or none yet.
pub struct Draft {
    pub(crate) size: Size,
}

/// A sheet that keeps every rule.
pub struct Checked {
    pub(crate) size: Size,
}

/// A sheet that is cut into triangles, on its way to two of them.
pub struct Layered {
    pub(crate) size: Size,
    pub(crate) live: u16,
    pub(crate) rounds: u16,
}

/// A sheet that is ready for tips.
pub struct Sealed {
    pub(crate) size: Size,
    pub(crate) live: u16,
    pub(crate) rounds: u16,
}

/// A turn that was refused: the sheet as it was, and why.
pub struct Refused<T> {
    /// The sheet, as it was.
    pub sheet: T,
    /// Why the turn was not made.
    pub refusal: Refusal,
}

// No sheet, and no nodes.
fn wiped<S: WriteStore>(store: &mut S) -> Draft
    ensures board { draft_board result ≡ bare }
    ensures nodes { S.ReadStore.nodes store.new ≡ [] }
    ensures room { S.WriteStore.room store.new ≡ S.WriteStore.room store.old }
{
    store.empty();
    Draft::new()
}

impl Draft {
    /// No sheet yet.
    pub fn new() -> Draft
        ensures { draft_board result ≡ bare }
    {
        Draft {
            size: Size::default(),
        }
    }

    /// Replaces the sheet by that of a file, as the board's turn does.
    pub fn load(
        &mut self,
        file: &[u8],
        points: &mut [Point],
        edges: &mut [Edge],
        loops: &mut [Loop],
        live: &mut [u16],
    ) -> Result<(), Refusal>
        ensures said { result ≡ and_then (loads (draft_board self.old) points.old edges.old loops.old live.old file.now) (λ _. Good tt) }
        ensures board { draft_board self.new ≡ load_board (loads (draft_board self.old) points.old edges.old loops.old live.old file.now) (draft_board self.old) }
        ensures points { points.new ≡ upon (loads (draft_board self.old) points.old edges.old loops.old live.old file.now) points_of points.old }
        ensures edges { edges.new ≡ upon (loads (draft_board self.old) points.old edges.old loops.old live.old file.now) edges_of edges.old }
        ensures loops { loops.new ≡ upon (loads (draft_board self.old) points.old edges.old loops.old live.old file.now) loops_of loops.old }
        ensures live { live.new ≡ live.old }
    {
        let mut board = Board::at(Stage::Draft, self.size, 0, 0);
        let said = board.load(file, points, edges, loops, live);
        self.size = board.size;
        said
    }

    /// Finds whether the sheet keeps the eight rules, as the board's turn does.
    pub fn check(
        self,
        points: &[Point],
        edges: &[Edge],
        loops: &[Loop],
        strokes: &mut [Stroke],
    ) -> Result<Checked, Refused<Draft>>
        ensures said { said_of result ≡ checks (draft_board self) points.now edges.now loops.now (length strokes.old) }
        ensures board { board_of checked_board draft_board result ≡ check_board (checks (draft_board self) points.now edges.now loops.now (length strokes.old)) (draft_board self) }
    {
        let Draft { size } = self;
        let mut board = Board::at(Stage::Draft, size, 0, 0);
        match board.check(points, edges, loops, strokes) {
            Ok(()) => Ok(Checked { size }),
            Err(refusal) => Err(Refused {
                sheet: Draft { size },
                refusal,
            }),
        }
    }

    /// Gives the sheet up, and empties the store.
    pub fn wipe<S: WriteStore>(self, store: &mut S) -> Draft
        ensures board { draft_board result ≡ bare }
        ensures nodes { S.ReadStore.nodes store.new ≡ [] }
        ensures room { S.WriteStore.room store.new ≡ S.WriteStore.room store.old }
    {
        self.end();
        wiped(store)
    }

    /// Lets the sheet go.
    pub fn end(self)
        ensures { result ≡ tt }
    {
        let Draft { size: _size } = self;
    }
}

impl Checked {
    /// Cuts the loops into the store, as the board's turn does.
    pub fn cut<S: WriteStore>(
        self,
        points: &[Point],
        edges: &[Edge],
        loops: &[Loop],
        live: &mut [u16],
        store: &mut S,
    ) -> Result<Layered, Refused<Checked>>
        ensures said { said_of result ≡ and_then (cuts (checked_board self) points.now edges.now loops.now (length live.old) (S.WriteStore.room store.old)) (λ _. Good tt) }
        ensures board { board_of layered_board checked_board result ≡ cut_board (cuts (checked_board self) points.now edges.now loops.now (length live.old) (S.WriteStore.room store.old)) (checked_board self) }
        ensures nodes { S.ReadStore.nodes store.new ≡ cut_nodes (cuts (checked_board self) points.now edges.now loops.now (length live.old) (S.WriteStore.room store.old)) (S.ReadStore.nodes store.old) }
        ensures room { S.WriteStore.room store.new ≡ S.WriteStore.room store.old }
        ensures live { live.new ≡ cut_live (cuts (checked_board self) points.now edges.now loops.now (length live.old) (S.WriteStore.room store.old)) live.old }
        ensures unaltered { CutUnaltered (checked_board self) points.now edges.now loops.now live.old (S.ReadStore.nodes store.old) (S.WriteStore.room store.old) (said_of result) }
    {
        let Checked { size } = self;
        let mut board = Board::at(Stage::Checked, size, 0, 0);
        match board.cut(points, edges, loops, live, store) {
            Ok(()) => Ok(Layered {
                size,
                live: board.live,
                rounds: board.rounds,
            }),
            Err(refusal) => Err(Refused {
                sheet: Checked { size },
                refusal,
            }),
        }
    }

    /// Gives the sheet up, and empties the store.
    pub fn wipe<S: WriteStore>(self, store: &mut S) -> Draft
        ensures board { draft_board result ≡ bare }
        ensures nodes { S.ReadStore.nodes store.new ≡ [] }
        ensures room { S.WriteStore.room store.new ≡ S.WriteStore.room store.old }
    {
        let Checked { size: _size } = self;
        wiped(store)
    }
}

impl Layered {
    /// One round, as the board's turn makes it.
    pub fn round<S: WriteStore>(
        &mut self,
        points: &[Point],
        live: &mut [u16],
        store: &mut S,
    ) -> Result<(), Refusal>
        ensures said { result ≡ and_then (rounds (layered_board self.old) points.now live.old (S.ReadStore.nodes store.old) (S.WriteStore.room store.old)) (λ _. Good tt) }
        ensures board { layered_board self.new ≡ round_board (rounds (layered_board self.old) points.now live.old (S.ReadStore.nodes store.old) (S.WriteStore.room store.old)) (layered_board self.old) }
        ensures nodes { S.ReadStore.nodes store.new ≡ round_nodes (rounds (layered_board self.old) points.now live.old (S.ReadStore.nodes store.old) (S.WriteStore.room store.old)) (S.ReadStore.nodes store.old) }
        ensures room { S.WriteStore.room store.new ≡ S.WriteStore.room store.old }
        ensures live { RoundLive (rounds (layered_board self.old) points.now live.old (S.ReadStore.nodes store.old) (S.WriteStore.room store.old)) live.old live.new }
        ensures unaltered { RoundUnaltered (layered_board self.old) points.now live.old (S.ReadStore.nodes store.old) (S.WriteStore.room store.old) result }
    {
        let mut board = Board::at(Stage::Layered, self.size, self.live, self.rounds);
        let said = board.round(points, live, store);
        self.live = board.live;
        self.rounds = board.rounds;
        said
    }

    /// Seals the sheet, as the board's turn does.
    pub fn seal<S: ReadStore>(self, live: &[u16], store: &S) -> Result<Sealed, Refused<Layered>>
        ensures said { said_of result ≡ seals (layered_board self) live.now (S.nodes store.now) }
        ensures board { board_of sealed_board layered_board result ≡ seal_board (seals (layered_board self) live.now (S.nodes store.now)) (layered_board self) }
        ensures few { SealFew (layered_board self) live.now (S.nodes store.now) (said_of result) }
        ensures unaltered { SealUnaltered (layered_board self) live.now (S.nodes store.now) (said_of result) }
    {
        let Layered {
            size,
            live: count,
            rounds,
        } = self;
        let mut board = Board::at(Stage::Layered, size, count, rounds);
        match board.seal(live, store) {
            Ok(()) => Ok(Sealed {
                size,
                live: count,
                rounds,
            }),
            Err(refusal) => Err(Refused {
                sheet: Layered {
                    size,
                    live: count,
                    rounds,
                },
                refusal,
            }),
        }
    }

    /// Gives the sheet up, and empties the store.
    pub fn wipe<S: WriteStore>(self, store: &mut S) -> Draft
        ensures board { draft_board result ≡ bare }
        ensures nodes { S.ReadStore.nodes store.new ≡ [] }
        ensures room { S.WriteStore.room store.new ≡ S.WriteStore.room store.old }
    {
        let Layered {
            size: _size,
            live: _live,
            rounds: _rounds,
        } = self;
        wiped(store)
    }
}

impl Sealed {
    /// Names the vertex, open edge or open face that holds the tip, as the board's turn does.
    pub fn place<K: Kernel, S: ReadStore>(
        &self,
        tip: &K,
        points: &[Point],
        live: &[u16],
        store: &S,
    ) -> Result<Found, Refusal>
        ensures said { result ≡ places (sealed_board self.now) points.now live.now (S.nodes store.now) (K.means tip.now) }
        ensures tells { TipTold (sealed_board self.now) points.now live.now (S.nodes store.now) (K.means tip.now) result }
        ensures right { RightNext (sealed_board self.now) points.now live.now (S.nodes store.now) (K.means tip.now ∷ []) (result ∷ []) }
    {
        let mut board = Board::at(Stage::Sealed, self.size, self.live, self.rounds);
        board.place(tip, points, live, store)
    }

    /// Answers tips one after another into a table, as the board's turn does, and gives the sheet back.
    pub fn list<K: Kernel, S: ReadStore>(
        self,
        tips: &[K],
        points: &[Point],
        live: &[u16],
        store: &S,
        answers: &mut [Result<Found, Refusal>],
    ) -> Result<Sealed, Refused<Sealed>>
        ensures said { said_of result ≡ and_then (lists (sealed_board self) points.now live.now (S.nodes store.now) (map K.means tips.now) (length answers.old)) (λ _. Good tt) }
        ensures board { board_of sealed_board sealed_board result ≡ sealed_board self }
        ensures answers { answers.new ≡ list_answers (lists (sealed_board self) points.now live.now (S.nodes store.now) (map K.means tips.now) (length answers.old)) answers.old }
        ensures tells { ListTold (sealed_board self) points.now live.now (S.nodes store.now) (map K.means tips.now) answers.new (said_of result) }
        ensures right { ListRight (sealed_board self) points.now live.now (S.nodes store.now) (map K.means tips.now) answers.new (said_of result) }
    {
        let Sealed {
            size,
            live: count,
            rounds,
        } = self;
        let mut board = Board::at(Stage::Sealed, size, count, rounds);
        let said = board.list(tips, points, live, store, answers);
        let sheet = Sealed {
            size,
            live: count,
            rounds,
        };
        match said {
            Ok(()) => Ok(sheet),
            Err(refusal) => Err(Refused { sheet, refusal }),
        }
    }

    /// Gives the sheet up, and empties the store.
    pub fn wipe<S: WriteStore>(self, store: &mut S) -> Draft
        ensures board { draft_board result ≡ bare }
        ensures nodes { S.ReadStore.nodes store.new ≡ [] }
        ensures room { S.WriteStore.room store.new ≡ S.WriteStore.room store.old }
    {
        let Sealed {
            size: _size,
            live: _live,
            rounds: _rounds,
        } = self;
        wiped(store)
    }
}
