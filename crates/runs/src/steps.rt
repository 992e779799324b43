//! Each turn as a step from one state to another.
ghost use Rattle.std.specs.Prelude.{◌≡◌, ◌≤◌, drop, length, map};
ghost use Rattle.board.specs.Histories.{Step, answered_by, told_by};
ghost use Rattle.board.specs.Histories.Turn.{check, cut, list, load, place, round, seal, wipe};
ghost use Rattle.runs.specs.Plays.{listed_of, outcome_of, state_of, where_granted};

use crate::turns::Outcome;
use desk::Desk;
use nodes::{ReadStore, WriteStore};
use plane::Kernel;
use refusal::Refusal;
use walk::Found;

// Whether a turn was granted.
fn plain(said: Result<(), Refusal>) -> Outcome
    ensures { outcome_of result ≡ told_by said }
{
    match said {
        Ok(()) => Outcome::Granted,
        Err(refusal) => Outcome::Refused(refusal),
    }
}

// What was answered to a tip.
fn answer(said: Result<Found, Refusal>) -> Outcome
    ensures { outcome_of result ≡ answered_by said }
{
    match said {
        Ok(found) => Outcome::Answered(found),
        Err(refusal) => Outcome::Refused(refusal),
    }
}

pub(crate) fn load<S: WriteStore>(desk: &mut Desk, store: &mut S, file: &[u8]) -> Outcome
    ensures step { Step (state_of desk.old (S.ReadStore.nodes store.old) (S.WriteStore.room store.old)) (load file.now) (outcome_of result) (state_of desk.new (S.ReadStore.nodes store.new) (S.WriteStore.room store.new)) }
    ensures room { S.WriteStore.room store.new ≡ S.WriteStore.room store.old }
{
    plain(desk.load(file))
}

pub(crate) fn check<S: WriteStore>(desk: &mut Desk, store: &mut S) -> Outcome
    ensures step { Step (state_of desk.old (S.ReadStore.nodes store.old) (S.WriteStore.room store.old)) check (outcome_of result) (state_of desk.new (S.ReadStore.nodes store.new) (S.WriteStore.room store.new)) }
    ensures room { S.WriteStore.room store.new ≡ S.WriteStore.room store.old }
{
    plain(desk.check())
}

pub(crate) fn cut<S: WriteStore>(desk: &mut Desk, store: &mut S) -> Outcome
    ensures step { Step (state_of desk.old (S.ReadStore.nodes store.old) (S.WriteStore.room store.old)) cut (outcome_of result) (state_of desk.new (S.ReadStore.nodes store.new) (S.WriteStore.room store.new)) }
    ensures room { S.WriteStore.room store.new ≡ S.WriteStore.room store.old }
{
    plain(desk.cut(store))
}

pub(crate) fn round<S: WriteStore>(desk: &mut Desk, store: &mut S) -> Outcome
    ensures step { Step (state_of desk.old (S.ReadStore.nodes store.old) (S.WriteStore.room store.old)) round (outcome_of result) (state_of desk.new (S.ReadStore.nodes store.new) (S.WriteStore.room store.new)) }
    ensures room { S.WriteStore.room store.new ≡ S.WriteStore.room store.old }
{
    plain(desk.round(store))
}

pub(crate) fn seal<S: WriteStore>(desk: &mut Desk, store: &mut S) -> Outcome
    ensures step { Step (state_of desk.old (S.ReadStore.nodes store.old) (S.WriteStore.room store.old)) seal (outcome_of result) (state_of desk.new (S.ReadStore.nodes store.new) (S.WriteStore.room store.new)) }
    ensures room { S.WriteStore.room store.new ≡ S.WriteStore.room store.old }
{
    plain(desk.seal(store))
}

pub(crate) fn place<K: Kernel, S: WriteStore>(desk: &mut Desk, store: &mut S, tip: &K) -> Outcome
    ensures step { Step (state_of desk.old (S.ReadStore.nodes store.old) (S.WriteStore.room store.old)) (place (K.means tip.now)) (outcome_of result) (state_of desk.new (S.ReadStore.nodes store.new) (S.WriteStore.room store.new)) }
    ensures room { S.WriteStore.room store.new ≡ S.WriteStore.room store.old }
{
    answer(desk.place(tip, store))
}

pub(crate) fn list<K: Kernel, S: WriteStore>(
    desk: &mut Desk,
    store: &mut S,
    tips: &[K],
    answers: &mut [Result<Found, Refusal>],
) -> Outcome
    ensures step { Step (state_of desk.old (S.ReadStore.nodes store.old) (S.WriteStore.room store.old)) (list (map K.means tips.now) (length answers.old)) (listed_of (length tips.now) result answers.new) (state_of desk.new (S.ReadStore.nodes store.new) (S.WriteStore.room store.new)) }
    ensures room { S.WriteStore.room store.new ≡ S.WriteStore.room store.old }
    ensures filled { where_granted (length tips.now) result ≤ length answers.old }
    ensures rest { drop (where_granted (length tips.now) result) answers.new ≡ drop (where_granted (length tips.now) result) answers.old }
{
    plain(desk.list(tips, store, answers))
}

pub(crate) fn wipe<S: WriteStore>(desk: &mut Desk, store: &mut S) -> Outcome
    ensures step { Step (state_of desk.old (S.ReadStore.nodes store.old) (S.WriteStore.room store.old)) wipe (outcome_of result) (state_of desk.new (S.ReadStore.nodes store.new) (S.WriteStore.room store.new)) }
    ensures room { S.WriteStore.room store.new ≡ S.WriteStore.room store.old }
{
    desk.wipe(store);
    Outcome::Granted
}
