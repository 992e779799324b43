use crate::alter::{alter, node_of, put_behind};
use crate::kernels::{make, tell};
use crate::placed::{Spelled, list_of};
use crate::taken::{print_cards, print_refusal, take};
use crate::words::{bytes_of, digest};
use desk::{Desk, LEAST, Lengths};
use nodes::{BlockStore, Node, ReadStore, SliceStore};
use plane::{Kernel, RationalTip, WholeTip};
use runs::Turn;
use sheet::{Answer, Size, wording};
use std::alloc::{AllocError, Global};
use std::str::Split;

// The most nodes that a sheet can have: 2,050 at the bottom, and 6 for each of 1,024 vertices taken out.
const MOST_NODES: usize = 8194;

// The most bytes that a script may ask for: a thousand whole blocks, and one byte more.
const MOST_BYTES: u32 = 512_001;

/// What a board keeps its nodes in.
#[derive(Drop)]
enum Memory {
    /// Records, a node in each.
    Slots(Vec<Node>),
    /// Bytes, in blocks.
    Blocks(Vec<u8>),
}

/// A board with tables of its own, and with memory of which the first `used` nodes are in use.
// A store lends its memory only as long as a command is played, so between two of them a number stands for it.
#[derive(Drop)]
pub(crate) struct Table {
    desk: Desk,
    memory: Memory,
    used: usize,
}

impl Table {
    /// An empty Draft, over tables of these lengths and room for the nodes of every sheet.
    pub(crate) fn new(heap: Global, lengths: Lengths) -> Result<Table, AllocError> {
        let slots = vec![in heap; Node::default(); MOST_NODES]?;
        Ok(Table {
            desk: Desk::new(heap, lengths)?,
            memory: Memory::Slots(slots),
            used: 0,
        })
    }

    /// Plays one command, and prints its outcome.
    // A `match` and no table of functions: each command takes other words.
    pub(crate) fn play(&mut self, rt: &HostRuntime, line: &str) -> anyhow::Result<()> {
        let mut words = line.split(' ');
        // By `match`: `words.next().unwrap_or("")` was tried, and the borrow checker does not cover it in a closure.
        let mut next = || match words.next() {
            Some(word) => word,
            None => "",
        };
        match next() {
            "load" => self.load(rt, next()),
            "check" => self.take::<WholeTip>(rt, &Turn::Check, 0),
            "cut" => self.take::<WholeTip>(rt, &Turn::Cut, 0),
            "round" => self.take::<WholeTip>(rt, &Turn::Round, 0),
            "seal" => self.take::<WholeTip>(rt, &Turn::Seal, 0),
            "place" => self.place::<WholeTip>(rt, &mut words),
            "placeq" => self.place::<RationalTip>(rt, &mut words),
            "list" => self.list::<WholeTip>(rt, &mut words),
            "listq" => self.list::<RationalTip>(rt, &mut words),
            "wipe" => self.take::<WholeTip>(rt, &Turn::Wipe, 0),
            "alter" => {
                let said = match next() {
                    "nodes" => self.alter_nodes(next(), &mut words),
                    name => alter(&mut self.desk, name, next(), &mut words),
                };
                Ok(rt.println(said)?)
            }
            "whole" => tell::<WholeTip>(rt, &mut words),
            "rational" => tell::<RationalTip>(rt, &mut words),
            "make" => match next() {
                "whole" => make::<WholeTip>(rt, &mut words),
                "rational" => make::<RationalTip>(rt, &mut words),
                _ => Ok(rt.println("no such kernel")?),
            },
            "stage" => self.print_stage(rt),
            "short" => self.shorten(rt, next(), next()),
            "tables" => self.print_tables(rt),
            "wording" => print_wording(rt, next(), answer_of(next(), next(), next())),
            "capacity" => self.keep_in_slots(rt, next()),
            "blocks" => self.keep_in_blocks(rt, next()),
            "live" => self.print_live(rt),
            "cards" => self.print_cards(rt),
            _ => Ok(rt.println("unknown command")?),
        }
    }

    // Takes a turn on the board and a store over its memory; a list is lent a table for so many answers.
    fn take<K: Kernel>(
        &mut self,
        rt: &HostRuntime,
        turn: &Turn<'_, K>,
        entries: usize,
    ) -> anyhow::Result<()> {
        match &mut self.memory {
            Memory::Slots(slots) => {
                let mut store = SliceStore::over(slots.as_mut_slice(), self.used);
                take(rt, &mut self.desk, &mut store, turn, entries)?;
                self.used = store.count();
            }
            Memory::Blocks(bytes) => {
                let mut store = BlockStore::over(bytes.as_mut_slice(), self.used);
                take(rt, &mut self.desk, &mut store, turn, entries)?;
                self.used = store.count();
            }
        }
        Ok(())
    }

    fn load(&mut self, rt: &HostRuntime, hex: &str) -> anyhow::Result<()> {
        let Some(file) = bytes_of(rt.alloc(), hex)? else {
            return Ok(rt.println("no such bytes")?);
        };
        self.take::<WholeTip>(rt, &Turn::Load(file.as_slice()), 0)
    }

    // Places the tip that the next words spell.
    fn place<K: Kernel + Spelled + Drop>(
        &mut self,
        rt: &HostRuntime,
        words: &mut Split<'_, char>,
    ) -> anyhow::Result<()> {
        match K::read(words) {
            Some(tip) => self.take(rt, &Turn::Place(tip), 0),
            None => Ok(rt.println("no such number")?),
        }
    }

    // Answers the tips that the next words spell, into a table of so many entries as the first of them says.
    fn list<K: Kernel + Spelled + Drop>(
        &mut self,
        rt: &HostRuntime,
        words: &mut Split<'_, char>,
    ) -> anyhow::Result<()> {
        match list_of::<K>(rt.alloc(), words)? {
            Ok(listed) => self.take(rt, &Turn::List(listed.tips.as_slice()), listed.entries),
            Err(said) => Ok(rt.println(said)?),
        }
    }

    // The nodes in its memory.
    fn print_cards(&mut self, rt: &HostRuntime) -> anyhow::Result<()> {
        match &mut self.memory {
            Memory::Slots(slots) => {
                print_cards(rt, &SliceStore::over(slots.as_mut_slice(), self.used))
            }
            Memory::Blocks(bytes) => {
                print_cards(rt, &BlockStore::over(bytes.as_mut_slice(), self.used))
            }
        }
    }

    // Changes a node in its memory, and answers what is printed of it.
    fn alter_nodes(&mut self, entry: &str, words: &mut Split<'_, char>) -> &'static str {
        let (Ok(entry), Some(node)) = (entry.parse::<u16>(), node_of(words)) else {
            return "no such entry";
        };
        let before = usize::from(entry);
        match &mut self.memory {
            Memory::Slots(slots) => {
                put_behind(&mut SliceStore::over(slots.as_mut_slice(), before), node)
            }
            Memory::Blocks(bytes) => {
                put_behind(&mut BlockStore::over(bytes.as_mut_slice(), before), node)
            }
        }
    }

    // A new board, over records for so many nodes.
    fn keep_in_slots(&mut self, rt: &HostRuntime, count: &str) -> anyhow::Result<()> {
        let Ok(count) = count.parse::<u16>() else {
            return Ok(rt.println("no such capacity")?);
        };
        let heap = rt.alloc();
        let slots = vec![in heap; Node::default(); usize::from(count)]?;
        *self = Table {
            desk: Desk::new(heap, LEAST)?,
            memory: Memory::Slots(slots),
            used: 0,
        };
        Ok(rt.println("ok")?)
    }

    // A new board, over so many bytes for its nodes.
    fn keep_in_blocks(&mut self, rt: &HostRuntime, count: &str) -> anyhow::Result<()> {
        let Ok(count) = count.parse::<u32>() else {
            return Ok(rt.println("no such capacity")?);
        };
        let heap = rt.alloc();
        let bytes = vec![in heap; 0; count.min(MOST_BYTES) as usize]?;
        *self = Table {
            desk: Desk::new(heap, LEAST)?,
            memory: Memory::Blocks(bytes),
            used: 0,
        };
        Ok(rt.println("ok")?)
    }

    // The numbers of the live nodes.
    fn print_live(&self, rt: &HostRuntime) -> anyhow::Result<()> {
        rt.print("ok")?;
        for node in self.desk.live_nodes() {
            print!(rt; " {node}")?;
        }
        Ok(rt.println("")?)
    }

    fn print_stage(&self, rt: &HostRuntime) -> anyhow::Result<()> {
        let stage = self.desk.stage();
        println!(rt; "ok {stage:?}")?;
        Ok(())
    }

    // A new board, over tables of the least lengths but for one.
    fn shorten(&mut self, rt: &HostRuntime, name: &str, length: &str) -> anyhow::Result<()> {
        let Ok(length) = length.parse::<u16>() else {
            return Ok(rt.println("no such length")?);
        };
        let length = usize::from(length);
        let lengths = match name {
            "points" => Lengths {
                points: length,
                ..LEAST
            },
            "edges" => Lengths {
                edges: length,
                ..LEAST
            },
            "loops" => Lengths {
                loops: length,
                ..LEAST
            },
            "live" => Lengths {
                live: length,
                ..LEAST
            },
            "strokes" => Lengths {
                strokes: length,
                ..LEAST
            },
            _ => return Ok(rt.println("no such table")?),
        };
        *self = Table::new(rt.alloc(), lengths)?;
        Ok(rt.println("ok")?)
    }

    // The board's numbers, and a digest of what each table holds of the sheet.
    fn print_tables(&self, rt: &HostRuntime) -> anyhow::Result<()> {
        let Desk {
            points,
            edges,
            loops,
            ..
        } = &self.desk;
        let size = self.desk.size();
        let outside = if size.width == 0 { 0 } else { 4 };
        let points = points.iter().take(usize::from(size.inner) + outside);
        let edges = edges.iter().take(usize::from(size.corners) + outside);
        let loops = loops.iter().take(usize::from(size.loops));
        let points_digest = points.fold(0, |all, point| digest(all, &[point.x, point.y]));
        let edges_digest = edges.fold(0, |all, edge| digest(all, &[edge.from, edge.to]));
        let loops_digest = loops.fold(
            0,
            |all, entry| digest(all, &[entry.numeral, entry.start, entry.corners]),
        );
        let Size {
            width,
            height,
            inner,
            loops,
            corners,
        } = size;
        let live = self.desk.live_nodes().len();
        print!(rt; "ok {width} {height} {inner} {loops} {corners} {live} ")?;
        println!(rt; "points {points_digest} edges {edges_digest} loops {loops_digest}")?;
        Ok(())
    }
}

// The answer that a kind and two numbers stand for: the kinds are numbers here, since the words of a script are.
fn answer_of(kind: &str, a: &str, b: &str) -> Option<Answer> {
    let a = a.parse::<u16>().ok()?;
    let b = b.parse::<u16>().ok()?;
    match kind {
        "1" => Some(Answer::Vertex(a)),
        "2" => Some(Answer::OpenEdge(a, b)),
        "3" => Some(Answer::Face(a)),
        _ => None,
    }
}

fn print_wording(rt: &HostRuntime, hex: &str, answer: Option<Answer>) -> anyhow::Result<()> {
    let Some(file) = bytes_of(rt.alloc(), hex)? else {
        return Ok(rt.println("no such bytes")?);
    };
    let Some(answer) = answer else {
        return Ok(rt.println("no such answer")?);
    };
    match wording(file.as_slice(), answer) {
        Ok(None) => Ok(rt.println("ok none")?),
        Ok(Some(part)) => {
            let text = String::from_utf8_lossy(rt.alloc(), part.bytes)?;
            let place = part.place;
            println!(rt; "ok {place} {text}")?;
            Ok(())
        }
        Err(refusal) => print_refusal(rt, refusal),
    }
}
