//! A list over a slice that the caller lends: its elements are the first of the slice, and it never allocates.
#![tactic(auto)]

ghost use Rattle.std.specs.Prelude.{◌≡◌, ◌-◌, length, take};
ghost use Rattle.std.specs.List.{range_with_len};
ghost use Rattle.lent.specs.Kept.{append_said, count_of, elements, kept, kept_in, none, put, puts, read_at, read_said, SameSlice, shown};

use refusal::Cause;

/// The elements of a list over a lent slice, for reading alone.
#[derive(Clone, Copy)]
pub struct LentView<'a, T> {
    items: &'a [T],
}

impl<'a, T: Copy> LentView<'a, T> {
    /// The list of the first `count` elements of `items`, or of all where there are fewer.
    pub fn over(items: &'a [T], count: usize) -> LentView<'a, T>
        ensures { shown result ≡ take count items.now }
    {
        LentView {
            items: &items[..count.min(items.len())],
        }
    }

    /// How many elements the list has.
    pub fn count(&self) -> usize
        ensures { result ≡ length (shown self.now) }
    {
        self.items.len()
    }

    /// The element at position `k`; refused past the last one.
    pub fn read(&self, k: usize) -> Result<T, Cause>
        ensures { result ≡ read_at (shown self.now) k }
    {
        self.items.get(k).copied().ok_or(Cause::OutOfRange)
    }

    /// All elements, one behind another.
    pub fn elements(&self) -> &'a [T]
        ensures { result.now ≡ shown self.now }
    {
        self.items
    }
}

/// A list of the first `count` elements of a lent slice.
// A count beside a slice, and no `Vec`: the memory is the caller's. That a list stays over its slice is a clause of each call
// (`SameSlice`): which loan a reference is of is no part of a value, so no invariant can say it.
#[derive(Drop)]
pub struct LentList<'a, T> {
    items: &'a mut [T],
    count: usize,
}

impl<'a, T: Copy> LentList<'a, T> {
    /// The list of the first `count` elements of `items`, or of all where there are fewer.
    pub fn over(items: &'a mut [T], count: usize) -> LentList<'a, T>
        ensures kept { kept_in result ≡ kept items.old count }
        ensures lent { result.items.ghost_name ≡ items.entry.ghost_name }
    {
        LentList { items, count }
    }

    /// Its elements, for reading.
    pub fn view(&self) -> LentView<'_, T>
        ensures { shown result ≡ elements (kept_in self.now) }
    {
        LentView::over(self.items, self.count)
    }

    /// How many elements the list has.
    pub fn count(&self) -> usize
        ensures { result ≡ count_of (kept_in self.now) }
    {
        self.view().count()
    }

    /// Puts `item` behind the last element; refused where the slice is full.
    pub fn append(&mut self, item: T) -> Result<(), Cause>
        ensures said { result ≡ append_said (kept_in self.old) }
        ensures kept { kept_in self.new ≡ put (kept_in self.old) item }
        ensures lent { SameSlice self.old self.new }
    {
        if self.count >= self.items.len() {
            return Err(Cause::TableTooShort);
        }
        self.items[self.count] = item;
        self.count += 1;
        Ok(())
    }

    /// The element at position `k`; refused past the last one.
    pub fn read(&self, k: usize) -> Result<T, Cause>
        ensures { result ≡ read_said (kept_in self.now) k }
    {
        self.view().read(k)
    }

    /// Takes every element out; the slice stays as it is.
    pub fn empty(&mut self)
        ensures kept { kept_in self.new ≡ none (kept_in self.old) }
        ensures lent { SameSlice self.old self.new }
    {
        self.count = 0;
    }
}

impl LentList<'_, u16> {
    /// Puts the numbers from `first` up to the one before `end` behind the last element, one after another, as far as there is room.
    pub fn append_range(&mut self, first: u16, end: u16)
        ensures kept { kept_in self.new ≡ puts (kept_in self.old) (range_with_len first (end - first)) }
        ensures lent { SameSlice self.old self.new }
    {
        put_range(self, first, end);
    }
}

// Puts these numbers behind the last element.
#[tactic(auto, using(crate::proofs::Puts::range_none))]
fn put_range(list: &mut LentList<'_, u16>, first: u16, end: u16)
    ensures kept { kept_in list.new ≡ puts (kept_in list.old) (range_with_len first (end - first)) }
    ensures lent { SameSlice list.old list.new }
{
    for number in first..end {
        let _ = list.append(number);
    }
}
