//! Turns that are taken on a board and a store, and what is printed of their outcomes.
use desk::Desk;
use fans::degrees;
use nodes::{ReadStore, WriteStore};
use plane::Kernel;
use refusal::{Cause, Layer, Refusal};
use runs::{Outcome, Turn, take_turn};
use walk::Found;

// The most vertices that a sheet can have.
const VERTICES: usize = 1028;

/// Takes a turn, and prints its outcome; any store will do. A list is lent a table for so many answers.
pub(crate) fn take<K: Kernel, S: WriteStore>(
    rt: &HostRuntime,
    desk: &mut Desk,
    store: &mut S,
    turn: &Turn<'_, K>,
    entries: usize,
) -> anyhow::Result<()> {
    // Any entry will do: those of the tips are written, and the others are not printed.
    let unwritten = Err(Refusal::new(Cause::NotThisStage, Layer::Place, 0));
    let mut answers = vec![in rt.alloc(); unwritten; entries]?;
    let before = degrees_at(rt, desk, store, turn)?;
    let outcome = take_turn(desk, store, turn, answers.as_mut_slice());
    match (turn, outcome) {
        (_, Outcome::Refused(refusal)) => print_refusal(rt, refusal),
        (_, Outcome::Answered(found)) => {
            rt.print("ok ")?;
            print_found(rt, found)?;
            Ok(rt.println("")?)
        }
        (Turn::List(tips), Outcome::Granted) => print_answers(rt, answers.as_slice(), tips.len()),
        (Turn::Round, Outcome::Granted) => {
            let after = degrees_at(rt, desk, store, turn)?;
            print_taken_out(rt, before.as_slice(), after.as_slice())
        }
        (_, Outcome::Granted) => Ok(rt.println("ok")?),
    }
}

// Of each vertex, how many live nodes have it as a corner, where the turn is a round.
fn degrees_at<K: Kernel, S: ReadStore>(
    rt: &HostRuntime,
    desk: &Desk,
    store: &S,
    turn: &Turn<'_, K>,
) -> anyhow::Result<Vec<u16>> {
    let mut found = Vec::new(rt.alloc());
    if let Turn::Round = turn {
        found = vec![in rt.alloc(); 0u16; VERTICES]?;
        let _ = degrees(store, desk.live_nodes(), found.as_mut_slice());
    }
    Ok(found)
}

// The vertices that a round took out: those that are no corner of a live node any more.
fn print_taken_out(rt: &HostRuntime, before: &[u16], after: &[u16]) -> anyhow::Result<()> {
    rt.print("ok")?;
    for (v, (old, new)) in before.iter().zip(after.iter()).enumerate() {
        if *old > 0 && *new == 0 {
            print!(rt; " {v}")?;
        }
    }
    Ok(rt.println("")?)
}

// The answers to so many tips.
fn print_answers(
    rt: &HostRuntime,
    answers: &[Result<Found, Refusal>],
    tips: usize,
) -> anyhow::Result<()> {
    rt.print("ok")?;
    for (i, answer) in answers.iter().take(tips).enumerate() {
        rt.print(if i == 0 { " " } else { "; " })?;
        match answer {
            Ok(found) => print_found(rt, *found)?,
            Err(refusal) => {
                let number = refusal.cause.number();
                print!(rt; "refused {number}")?;
            }
        }
    }
    Ok(rt.println("")?)
}

// The answer with the count of sides tested.
fn print_found(rt: &HostRuntime, found: Found) -> anyhow::Result<()> {
    let (kind, a, b) = found.answer.values();
    let tests = found.tests;
    print!(rt; "{kind} {a} {b} tests {tests}")?;
    Ok(())
}

/// Prints a refusal.
pub(crate) fn print_refusal(rt: &HostRuntime, refusal: Refusal) -> anyhow::Result<()> {
    let number = refusal.cause.number();
    let layer = refusal.layer.number();
    let place = refusal.place;
    println!(rt; "refused {number} {layer} {place}")?;
    Ok(())
}

/// Prints the nodes of a store, fourteen numbers each.
pub(crate) fn print_cards<S: ReadStore>(rt: &HostRuntime, store: &S) -> anyhow::Result<()> {
    rt.print("ok")?;
    for k in 0..store.count() {
        if k > 0 {
            rt.print(" |")?;
        }
        for i in 0..14 {
            if let Ok(number) = store.number(k, i) {
                print!(rt; " {number}")?;
            }
        }
    }
    Ok(rt.println("")?)
}
