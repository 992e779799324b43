//! The live nodes after a round.
ghost use Rattle.std.specs.Prelude.{◌≡◌, ◌+◌, ◌≤◌, ◌++◌, length, take};
ghost use Rattle.std.specs.List.{range_with_len};
ghost use Rattle.lent.specs.Kept.{kept_in, puts, SameSlice};
ghost use Rattle.rounds.specs.Near.{goes_held, kept_near};

use crate::choices::is_marked;
use crate::held::Held;
use lent::{LentList, LentView};

// The live numbers: the first of their table.
pub(crate) fn live_numbers(live: &[u16], count: usize) -> &[u16]
    ensures { result.now ≡ take count live.now }
{
    LentView::over(live, count).elements()
}

// Whether a live node has a chosen corner.
fn goes(marks: &[bool], item: &Held) -> bool
    ensures { result ≡ goes_held marks.now item.now }
{
    let corners = item.corners;
    is_marked(marks, corners.a) || (is_marked(marks, corners.b) || is_marked(marks, corners.c))
}

// How many nodes stay live.
#[tactic(auto, using(crate::proofs::Kept::counting))]
pub(crate) fn count_kept(held: &[Held], marks: &[bool]) -> usize
    ensures count { result ≡ length (kept_near marks.now held.now) }
    ensures within { result ≤ length held.now }
{
    let mut count = 0;
    for item in held {
        if goes(marks, item) {
            continue;
        }
        count += 1;
    }
    count
}

// Puts the numbers of those behind the last of a list.
#[tactic(auto, using(crate::proofs::Kept::keeping))]
fn keep(held: &[Held], marks: &[bool], live: &mut LentList<'_, u16>)
    ensures kept { kept_in live.new ≡ puts (kept_in live.old) (kept_near marks.now held.now) }
    ensures lent { SameSlice live.old live.new }
{
    for item in held {
        if goes(marks, item) {
            continue;
        }
        let _ = live.append(item.node);
    }
}

// The nodes without a chosen corner stay live, in their order, and the new ones come behind them; there is room for these numbers.
pub(crate) fn settle(
    held: &[Held],
    marks: &[bool],
    first: usize,
    fresh: usize,
    live: &mut [u16],
) -> usize
    requires room { length (kept_near marks.now held.now) + fresh ≤ length live.old }
    requires numbers { first + fresh ≤ 65535 }
    ensures count { result ≡ length (kept_near marks.now held.now) + fresh }
    ensures live { take result live.new ≡ kept_near marks.now held.now ++ range_with_len first fresh }
{
    let mut list = LentList::over(live, 0);
    keep(held, marks, &mut list);
    list.append_range(first as u16, (first + fresh) as u16);
    list.count()
}
