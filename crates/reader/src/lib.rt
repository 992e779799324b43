//! A reader of sheet files: it walks over the bytes, with a method for each kind of number and for a wording.
#![tactic(auto)]

ghost use Rattle.std.specs.Prelude.{◌≡◌, ◌+◌, ◌<◌, ◌≤◌, length as list_length, IfOk, OnOk, not, position};
ghost use Rattle.reader.specs.Kinds.{between, ranged as ranged_of, edition as edition_of, extent as extent_of, count as count_of, vertex as vertex_of, numeral as numeral_of, corner_count_of, corner as corner_of, label_numeral_of, wording_length_of, wording as wording_of, part, finish as finish_of};
ghost use Rattle.reader.specs.Reading.{ended, fault as fault_of, Stays};
ghost use Rattle.reader.specs.Number.{number as number_of};
ghost use Rattle.reader.specs.Spelled.{Spelled};

use plane::Point;
use refusal::{Cause, Layer, Refusal};

/// Walks over the bytes of a file, which it never copies.
#[derive(Drop)]
pub struct Reader<'a> {
    file: &'a [u8],
    at: usize,
    ghost ok: { at ≤ list_length file.now },
}

/// A refusal of the file at one of its bytes.
pub fn fault(cause: Cause, place: usize) -> Refusal
    ensures { result ≡ fault_of cause place }
{
    Refusal::new(cause, Layer::File, place)
}

// The number that stands at a place, and the place behind it. No method, since a vertex is two numbers, and a reader that refuses the
// second must not have moved.
fn number_at(file: &[u8], at: usize) -> Result<(u32, usize), Refusal>
    requires { at ≤ list_length file.now }
    ensures value { result ≡ number_of file.now at }
    ensures within { IfOk result (λ p. (p.0 < 2097152) × (p.1 ≤ list_length file.now)) }
{
    match &file[at..] {
        [a, rest @ ..] if *a < 128 => Ok((u32::from(*a), file.len() - rest.len())),
        [a, b, rest @ ..] if *b < 128 => {
            if *b == 0 {
                return Err(fault(Cause::BadNumber, at));
            }
            Ok((
                u32::from(*a - 128) + 128 * u32::from(*b),
                file.len() - rest.len(),
            ))
        }
        [a, b, c, rest @ ..] => {
            if *c == 0 || *c >= 128 {
                return Err(fault(Cause::BadNumber, at));
            }
            let low = u32::from(*a - 128) + 128 * u32::from(*b - 128);
            Ok((low + 16384 * u32::from(*c), file.len() - rest.len()))
        }
        _ => Err(fault(Cause::FileEnds, file.len())),
    }
}

impl<'a> Reader<'a> {
    ghost use Rattle.reader.specs.Steps.{Walked};

    /// A reader that stands at the file's first byte.
    pub fn new(file: &'a [u8]) -> Reader<'a>
        ensures file { result.file.now ≡ file.now }
        ensures at { result.at ≡ 0 }
    {
        Reader { file, at: 0 }
    }

    /// Where the reader stands.
    pub fn place(&self) -> usize
        ensures { result ≡ self.now.at }
    {
        let Reader { at, .. } = self;
        *at
    }

    /// A number of one to three groups.
    pub fn number(&mut self) -> Result<u32, Refusal>
        ensures read { Walked number_of result self.old self.new }
    {
        let (value, next) = number_at(self.file, self.at)?;
        self.at = next;
        Ok(value)
    }

    // a number in its range
    fn ranged(&mut self, low: u16, high: u16, cause: Cause) -> Result<u16, Refusal>
        ensures read { Walked (ranged_of low high cause) result self.old self.new }
        ensures within { IfOk result (λ v. (low ≤ v) × (v ≤ high)) }
    {
        let (value, next) = number_at(self.file, self.at)?;
        if value < u32::from(low) || value > u32::from(high) {
            return Err(fault(cause, self.at));
        }
        self.at = next;
        Ok(value as u16)
    }

    /// The file's edition.
    pub fn edition(&mut self) -> Result<u16, Refusal>
        ensures read { Walked edition_of result self.old self.new }
    {
        self.ranged(1, 1, Cause::BadEdition)
    }

    /// A width or a height.
    pub fn extent(&mut self) -> Result<u16, Refusal>
        ensures read { Walked extent_of result self.old self.new }
    {
        self.ranged(2, 8191, Cause::BadSize)
    }

    /// How many of a kind follow, up to a limit.
    pub fn count(&mut self, limit: u16) -> Result<u16, Refusal>
        ensures read { Walked (count_of limit) result self.old self.new }
        ensures within { IfOk result (λ n. n ≤ limit) }
    {
        self.ranged(0, limit, Cause::OverLimit)
    }

    /// An inner vertex, strictly inside a sheet of the given size.
    pub fn vertex(&mut self, width: u16, height: u16) -> Result<Point, Refusal>
        ensures read { Walked (vertex_of width height) result self.old self.new }
    {
        let (x, behind_x) = number_at(self.file, self.at)?;
        if x == 0 || x >= u32::from(width) {
            return Err(fault(Cause::VertexOutside, self.at));
        }
        let (y, behind_y) = number_at(self.file, behind_x)?;
        if y == 0 || y >= u32::from(height) {
            return Err(fault(Cause::VertexOutside, self.at));
        }
        self.at = behind_y;
        Ok(Point {
            x: x as u16,
            y: y as u16,
        })
    }

    /// The numeral of a loop.
    pub fn numeral(&mut self) -> Result<u16, Refusal>
        ensures read { Walked numeral_of result self.old self.new }
    {
        self.ranged(0, 255, Cause::BadNumeral)
    }

    /// How many corners a loop has, on a sheet of so many vertices, where earlier loops have `before` corners in all.
    pub fn corner_count(&mut self, vertices: u16, before: u16) -> Result<u16, Refusal>
        ensures read { Walked (corner_count_of vertices before) result self.old self.new }
        ensures within { IfOk result (λ k. (3 ≤ k) × (before + k ≤ 6150)) }
    {
        let (k, next) = number_at(self.file, self.at)?;
        if u32::from(before) + k > 6150 {
            return Err(fault(Cause::OverLimit, self.at));
        }
        if k < 3 || k > u32::from(vertices) {
            return Err(fault(Cause::BadCornerCount, self.at));
        }
        self.at = next;
        Ok(k as u16)
    }

    /// A corner of a loop: the number of a vertex, of which there are so many.
    pub fn corner(&mut self, vertices: u16) -> Result<u16, Refusal>
        ensures read { Walked (corner_of vertices) result self.old self.new }
    {
        let (v, next) = number_at(self.file, self.at)?;
        if v >= u32::from(vertices) {
            return Err(fault(Cause::NoSuchVertex, self.at));
        }
        self.at = next;
        Ok(v as u16)
    }

    /// The numeral of a label.
    pub fn label_numeral(&mut self) -> Result<u16, Refusal>
        ensures read { Walked label_numeral_of result self.old self.new }
        ensures within { IfOk result (λ m. m ≤ 255) }
    {
        self.ranged(1, 255, Cause::BadNumeral)
    }

    /// How many bytes a wording has.
    pub fn wording_length(&mut self) -> Result<u16, Refusal>
        ensures read { Walked wording_length_of result self.old self.new }
    {
        self.ranged(1, 63, Cause::BadWording)
    }

    /// The bytes of a wording, as a part of the file itself.
    pub fn wording(&mut self, length: u16) -> Result<&'a [u8], Refusal>
        ensures value { ended result self.new.at ≡ wording_of self.old.file.now length self.old.at }
        ensures within { OnOk result (self.old.at + length ≤ list_length self.old.file.now) }
        ensures text { IfOk result (λ w. w.now ≡ part self.old.file.now self.old.at length) }
        ensures file { self.new.file.now ≡ self.old.file.now }
        ensures stays { Stays result self.old.at self.new.at }
    {
        let next = self.wording_end(length)?;
        let text = &self.file[self.at..next];
        self.at = next;
        Ok(text)
    }

    // The place behind the bytes of a wording.
    fn wording_end(&self, length: u16) -> Result<usize, Refusal>
        ensures value { result ≡ wording_of self.now.file.now length self.now.at }
        ensures within { IfOk result (λ next. (next ≡ self.now.at + length) × (next ≤ list_length self.now.file.now)) }
    {
        let rest = &self.file[self.at..];
        let text = &rest[..rest.len().min(usize::from(length))];
        if let Some(i) = first_unprintable(text) {
            return Err(fault(Cause::BadWording, self.at + i));
        }
        if text.len() < usize::from(length) {
            return Err(fault(Cause::FileEnds, self.file.len()));
        }
        Ok(self.at + text.len())
    }

    /// The end of the file; bytes that are left are refused.
    pub fn finish(&self) -> Result<(), Refusal>
        ensures { result ≡ finish_of self.now.file.now self.now.at }
    {
        if self.at < self.file.len() {
            return Err(fault(Cause::BytesLeft, self.at));
        }
        Ok(())
    }
}

// Where the first byte stands that no wording may have.
fn first_unprintable(text: &[u8]) -> Option<usize>
    ensures { result ≡ position (λ b. not (between 32 126 b)) text.now }
{
    text.iter().position(|b| *b < 32 || *b > 126)
}

/// A number is read exactly where it stands in its one spelling.
pub fn spelling_stands()
    ensures { Spelled }
{}
