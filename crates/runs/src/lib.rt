//! Whole runs of turns on one board.
#![tactic(auto)]

ghost use Rattle.std.specs.Prelude.{◌≡◌, ◌≤◌, drop, length};
ghost use Rattle.board.specs.Histories.{Runs, Step};
ghost use Rattle.board.specs.Law.{Law};
ghost use Rattle.board.specs.Unaltered.{AllInRange};
ghost use Rattle.runs.specs.Plays.{all_filled, filled as filled_of, history, set_up, state_of, told_of, turn_of};

mod steps;
mod turns;

use desk::Desk;
use nodes::{ReadStore, WriteStore};
use plane::Kernel;
use refusal::Refusal;
pub use turns::{Outcome, Turn};
use walk::Found;

// How many entries of the table of answers a turn fills.
fn filled<K: Kernel>(turn: &Turn<'_, K>, outcome: Outcome) -> usize
    ensures { result ≡ filled_of turn.now outcome }
{
    match (turn, outcome) {
        (Turn::List(tips), Outcome::Granted) => tips.len(),
        _ => 0,
    }
}

/// Makes one turn. A granted list fills the front of the table of answers; the entries behind stay, and with any other turn all of them.
pub fn take_turn<K: Kernel, S: WriteStore>(
    desk: &mut Desk,
    store: &mut S,
    turn: &Turn<'_, K>,
    answers: &mut [Result<Found, Refusal>],
) -> Outcome
    ensures step { Step (state_of desk.old (S.ReadStore.nodes store.old) (S.WriteStore.room store.old)) (turn_of K.means (length answers.old) turn.now) (told_of turn.now result answers.new) (state_of desk.new (S.ReadStore.nodes store.new) (S.WriteStore.room store.new)) }
    ensures room { S.WriteStore.room store.new ≡ S.WriteStore.room store.old }
    ensures filled { filled_of turn.now result ≤ length answers.old }
    ensures rest { drop (filled_of turn.now result) answers.new ≡ drop (filled_of turn.now result) answers.old }
{
    match turn {
        Turn::Load(file) => steps::load(desk, store, file),
        Turn::Check => steps::check(desk, store),
        Turn::Cut => steps::cut(desk, store),
        Turn::Round => steps::round(desk, store),
        Turn::Seal => steps::seal(desk, store),
        Turn::Place(tip) => steps::place(desk, store, tip),
        Turn::List(tips) => steps::list(desk, store, tips, answers),
        Turn::Wipe => steps::wipe(desk, store),
    }
}

// Makes turns one after another, as many as there are entries for their outcomes.
fn go_on<K: Kernel, S: WriteStore>(
    desk: &mut Desk,
    store: &mut S,
    turns: &[Turn<'_, K>],
    answers: &mut [Result<Found, Refusal>],
    outcomes: &mut [Outcome],
)
    ensures run { Runs (state_of desk.old (S.ReadStore.nodes store.old) (S.WriteStore.room store.old)) (history K.means turns.now outcomes.new answers.new) (state_of desk.new (S.ReadStore.nodes store.new) (S.WriteStore.room store.new)) }
    ensures answers { drop (all_filled turns.now outcomes.new) answers.new ≡ drop (all_filled turns.now outcomes.new) answers.old }
    ensures outcomes { drop (length turns.now) outcomes.new ≡ drop (length turns.now) outcomes.old }
{
    let count = turns.len().min(outcomes.len());
    let mut used = 0;
    for i in 0..count {
        let turn = &turns[i];
        let outcome = take_turn(desk, store, turn, &mut answers[used..]);
        used += filled(turn, outcome);
        outcomes[i] = outcome;
    }
}

/// Makes all turns one after another on a board that begins with an empty Draft, over the tables of a desk and a store, whatever these hold;
/// as many as there are entries for their outcomes. Each granted list fills the table of answers behind the list before it; entries of both
/// tables that no turn fills stay.
#[tactic(auto, using(board::proofs::Lawful::law, board::proofs::Ranges::in_range))]
pub fn play<K: Kernel, S: WriteStore>(
    desk: &mut Desk,
    store: &mut S,
    turns: &[Turn<'_, K>],
    answers: &mut [Result<Found, Refusal>],
    outcomes: &mut [Outcome],
)
    ensures run { Runs (set_up desk.old (S.ReadStore.nodes store.old) (S.WriteStore.room store.old)) (history K.means turns.now outcomes.new answers.new) (state_of desk.new (S.ReadStore.nodes store.new) (S.WriteStore.room store.new)) }
    ensures law { Law (history K.means turns.now outcomes.new answers.new) }
    ensures in_range { AllInRange (history K.means turns.now outcomes.new answers.new) }
    ensures answers { drop (all_filled turns.now outcomes.new) answers.new ≡ drop (all_filled turns.now outcomes.new) answers.old }
    ensures outcomes { drop (length turns.now) outcomes.new ≡ drop (length turns.now) outcomes.old }
{
    desk.begin();
    go_on(desk, store, turns, answers, outcomes);
}
