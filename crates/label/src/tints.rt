//! The colours of faces: each numeral that is used has a hue of its own, by its rank, and faces that meet along an edge differ in lightness too.
use desk::Desk;
use plane::Edge;
use rules::loop_edges;
use std::alloc::{AllocError, Global};
use std::collections::BTreeMap;
use std::fmt;

// Lightnesses in percent; those that follow one another differ most.
const LIGHT: [u16; 5] = [88, 78, 92, 74, 83];

/// The colour of each numeral, by its number.
#[derive(Drop)]
pub(crate) struct Tints {
    ranks: Vec<u16>,
    shades: Vec<u16>,
}

// An edge as one number.
fn key(edge: Edge) -> u32 {
    u32::from(edge.from) * 65_536 + u32::from(edge.to)
}

fn turned(edge: Edge) -> Edge {
    Edge {
        from: edge.to,
        to: edge.from,
    }
}

impl Tints {
    /// Each numeral that a loop has, from the lowest on, has the next hue, and the first shade that no lower one beside it has.
    pub(crate) fn of(heap: Global, desk: &Desk) -> Result<Tints, AllocError> {
        let loops = usize::from(desk.size().loops);
        let mut numerals = BTreeMap::new(heap);
        for entry in desk.loops.iter().take(loops) {
            for edge in loop_edges(desk.edges.as_slice(), entry) {
                let _ = numerals.insert(key(*edge), (*edge, entry.numeral))?;
            }
        }
        let mut ranks = vec![in heap; 0; 256]?;
        let mut shades = vec![in heap; 0; 256]?;
        let mut rank = 0u16;
        for numeral in 1..256u16 {
            if numerals.values().any(|(_, own)| *own == numeral) {
                rank = rank.saturating_add(1);
                put(ranks.as_mut_slice(), numeral, rank);
                let shade = first_free(heap, &numerals, shades.as_slice(), numeral)?;
                put(shades.as_mut_slice(), numeral, shade);
            }
        }
        Ok(Tints { ranks, shades })
    }

    /// The colour of a numeral.
    pub(crate) fn get(&self, numeral: u16) -> Tint {
        Tint {
            rank: at(self.ranks.as_slice(), numeral),
            shade: at(self.shades.as_slice(), numeral),
        }
    }
}

fn at(numbers: &[u16], numeral: u16) -> u16 {
    numbers.get(usize::from(numeral)).copied().unwrap_or(0)
}

fn put(numbers: &mut [u16], numeral: u16, number: u16) {
    if let Some(place) = numbers.get_mut(usize::from(numeral)) {
        *place = number;
    }
}

// The first shade that no lower numeral beside this one has, counted from 1.
fn first_free(
    heap: Global,
    numerals: &BTreeMap<u32, (Edge, u16)>,
    shades: &[u16],
    numeral: u16,
) -> Result<u16, AllocError> {
    let mut is_taken = vec![in heap; false; 257]?;
    for (edge, own) in numerals.values() {
        if *own == numeral
            && let Some((_, other)) = numerals.get(&key(turned(*edge)))
            && *other < numeral
        {
            let shade = at(shades, *other);
            if let Some(place) = is_taken.get_mut(usize::from(shade)) {
                *place = true;
            }
        }
    }
    for shade in 1..257u16 {
        if is_taken.get(usize::from(shade)) == Some(&false) {
            return Ok(shade);
        }
    }
    Ok(0)
}

/// The colour of a face, white for no numeral.
#[derive(Clone, Copy)]
pub(crate) struct Tint {
    rank: u16,
    shade: u16,
}

// 137 has no divisor in common with 360, so ranks up to 360 have different hues, and those that follow one another are far apart.
impl fmt::Display for Tint {
    fn fmt<W: fmt::Write>(&self, f: &mut fmt::Formatter<W>) -> fmt::Result {
        if self.rank == 0 {
            return write!(f, "white");
        }
        let hue = u32::from(self.rank) * 137 % 360;
        let light = LIGHT[usize::from(self.shade) % 5];
        write!(f, "hsl({hue}, 75%, {light}%)")
    }
}
