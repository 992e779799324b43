//! Places for labels that do not lie on one another, nor on marks; the same on every machine.
use crate::frame::{Frame, Pixel};
use std::alloc::{AllocError, Global};

/// How high a label is, and how wide each of its letters.
pub(crate) const HIGH: i64 = 24;

pub(crate) const LETTER: i64 = 12;

// What is left free around a mark.
const MARK: i64 = 9;

/// A part of the picture.
#[derive(Clone, Copy)]
pub(crate) struct Area {
    pub(crate) left: i64,
    pub(crate) top: i64,
    pub(crate) right: i64,
    pub(crate) bottom: i64,
}

impl Area {
    fn covers(&self, other: &Area) -> bool {
        self.left <= other.left
            && other.right <= self.right
            && self.top <= other.top
            && other.bottom <= self.bottom
    }

    /// The least area that holds this one and a pixel.
    pub(crate) fn with(&self, at: Pixel) -> Area {
        Area {
            left: self.left.min(at.left),
            top: self.top.min(at.top),
            right: self.right.max(at.left),
            bottom: self.bottom.max(at.top),
        }
    }

    /// The point of the area that is nearest to a pixel.
    pub(crate) fn nearest(&self, to: Pixel) -> Pixel {
        Pixel {
            left: to.left.min(self.right).max(self.left),
            top: to.top.min(self.bottom).max(self.top),
        }
    }

    /// Its corners.
    pub(crate) fn corners(&self) -> [Pixel; 4] {
        [
            (self.left, self.top),
            (self.right, self.top),
            (self.left, self.bottom),
            (self.right, self.bottom),
        ]
        .map(|(left, top)| Pixel { left, top })
    }
}

/// The area of a label of so many letters around a pixel, moved by so many pixels.
fn around(at: Pixel, letters: usize, right: i64, down: i64) -> Area {
    let half = width(letters) / 2;
    let middle = at.left.saturating_add(right);
    let row = at.top.saturating_add(down);
    Area {
        left: middle.saturating_sub(half),
        top: row.saturating_sub(HIGH / 2),
        right: middle.saturating_add(half),
        bottom: row.saturating_add(HIGH / 2),
    }
}

fn width(letters: usize) -> i64 {
    let letters = i64::try_from(letters).unwrap_or(i64::MAX);
    letters.saturating_mul(LETTER).saturating_add(8)
}

/// The areas for a label over a pixel and close around it that lie within others, the nearest first.
pub(crate) fn close(
    heap: Global,
    at: Pixel,
    letters: usize,
    bounds: &Area,
) -> Result<Vec<Area>, AllocError> {
    let mut areas = Vec::new(heap);
    add_within(&mut areas, around(at, letters, 0, 0), bounds)?;
    for steps in 1..6i64 {
        for (right, down) in WAYS {
            let right = right.saturating_mul(30).saturating_mul(steps);
            let down = down.saturating_mul(20).saturating_mul(steps);
            let area = around(at, letters, right, down);
            add_within(&mut areas, area, bounds)?;
        }
    }
    Ok(areas)
}

fn add_within(areas: &mut Vec<Area>, area: Area, bounds: &Area) -> Result<(), AllocError> {
    if bounds.covers(&area) {
        areas.push(area)?;
    }
    Ok(())
}

// The picture is looked at in square cells of so many pixels, and what lies in different cells is apart.
const CELL: i64 = 12;

/// The cells that are taken, row after row, in a picture of a size.
#[derive(Drop)]
pub(crate) struct Layout {
    cells: Vec<bool>,
    columns: usize,
    across: i64,
    down: i64,
}

// The first cell of a part that begins at a pixel.
fn first(from: i64) -> usize {
    usize::try_from(from.max(0) / CELL).unwrap_or(0)
}

// The cell behind the last one of a part that ends before a pixel.
fn behind(to: i64) -> usize {
    first(to.saturating_sub(1)).saturating_add(1)
}

// The eight directions, those upwards and to the right first.
const WAYS: [(i64, i64); 8] = [
    (0, -1),
    (1, 0),
    (0, 1),
    (-1, 0),
    (1, -1),
    (1, 1),
    (-1, 1),
    (-1, -1),
];

impl Layout {
    /// A picture in which nothing is taken.
    pub(crate) fn new(heap: Global, frame: Frame) -> Result<Layout, AllocError> {
        let across = i64::try_from(frame.across()).unwrap_or(0);
        let down = i64::try_from(frame.down()).unwrap_or(0);
        let columns = behind(across);
        let cells = vec![in heap; false; columns.saturating_mul(behind(down))]?;
        Ok(Layout {
            cells,
            columns,
            across,
            down,
        })
    }

    /// Keeps labels off a mark.
    pub(crate) fn keep_clear(&mut self, at: Pixel) {
        self.take(Area {
            left: at.left.saturating_sub(MARK),
            top: at.top.saturating_sub(MARK),
            right: at.left.saturating_add(MARK),
            bottom: at.top.saturating_add(MARK),
        });
    }

    /// Takes an area.
    pub(crate) fn take(&mut self, area: Area) {
        for row in first(area.top)..behind(area.bottom) {
            for column in first(area.left)..behind(area.right) {
                let cell = row.saturating_mul(self.columns).saturating_add(column);
                if let Some(place) = self.cells.get_mut(cell) {
                    *place = true;
                }
            }
        }
    }

    /// Whether an area is in the picture, and nothing of it is taken.
    pub(crate) fn is_free(&self, area: &Area) -> bool {
        area.left >= 4
            && area.top >= 4
            && area.right <= self.across.saturating_sub(4)
            && area.bottom <= self.down.saturating_sub(4)
            && !self.is_taken(area)
    }

    fn is_taken(&self, area: &Area) -> bool {
        for row in first(area.top)..behind(area.bottom) {
            for column in first(area.left)..behind(area.right) {
                let cell = row.saturating_mul(self.columns).saturating_add(column);
                if self.cells.get(cell) == Some(&true) {
                    return true;
                }
            }
        }
        false
    }

    /// The first free area for a label that lies beside a pixel.
    pub(crate) fn beside(&self, at: Pixel, letters: usize, most: i64) -> Option<Area> {
        let half = width(letters) / 2;
        for steps in 1..most {
            for (right, down) in WAYS {
                let far = half.saturating_add(steps.saturating_mul(18));
                let area = around(
                    at,
                    letters,
                    far.saturating_mul(right),
                    steps
                        .saturating_mul(18)
                        .saturating_add(12)
                        .saturating_mul(down),
                );
                if self.is_free(&area) {
                    return Some(area);
                }
            }
        }
        None
    }
}
