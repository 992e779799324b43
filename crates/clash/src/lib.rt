//! The first of several elements that clashes with an earlier one.
#![tactic(auto)]

ghost use Rattle.std.specs.Prelude.{◌≡◌, Bool, position};
ghost use Rattle.clash.specs.Clashes.{first_clash_in, Tells};

/// Elements of which two may not stand together.
pub trait Clash {
    // whether a later element, the first argument, clashes with an earlier one
    ghost clashes: { Self → Self → Bool };

    /// Whether this element clashes with an `earlier` one.
    fn clashes_with(&self, earlier: &Self) -> bool
        ensures { result ≡ clashes self.now earlier.now };
}

/// The places of two elements that clash.
#[derive(Clone, Copy, PartialEq, Eq, Debug)]
pub struct ClashAt {
    /// The place of the first element that clashes with an earlier one.
    pub later: usize,
    /// The place of the earliest such.
    pub earlier: usize,
}

/// The first element that clashes with an earlier one, and the earliest such.
// Each pair is asked at most once: the later elements in turn, each about the earlier ones in turn.
#[tactic(auto, using(crate::proofs::Firsts::told))]
pub fn first_clash<T: Clash>(items: &[T]) -> Option<ClashAt>
    ensures first { result ≡ first_clash_in T.clashes items.now }
    ensures tells { Tells T.clashes items.now result }
{
    for (later, item) in items.iter().enumerate() {
        if let Some(earlier) = earliest(item, &items[..later]) {
            return Some(ClashAt { later, earlier });
        }
    }
    None
}

// The place of the earliest of these that `item` clashes with.
fn earliest<T: Clash>(item: &T, before: &[T]) -> Option<usize>
    ensures { result ≡ position (T.clashes item.now) before.now }
{
    before.iter().position(|earlier| item.clashes_with(earlier))
}

#[cfg(test)]
mod tests;
