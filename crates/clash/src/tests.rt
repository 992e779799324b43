ghost use Rattle.std.specs.Prelude.{◌==◌, ◌+◌};

use crate::{Clash, ClashAt, first_clash};

// A number that clashes with the same number.
struct Same(u8);

impl Clash for Same {
    ghost clashes = { λ later earlier. later.0 == earlier.0 };

    fn clashes_with(&self, earlier: &Same) -> bool {
        self.0 == earlier.0
    }
}

// A number that clashes with the one below it, but not with the one above.
struct Next(u8);

impl Clash for Next {
    ghost clashes = { λ later earlier. later.0 == earlier.0 + 1 };

    fn clashes_with(&self, earlier: &Next) -> bool {
        u16::from(self.0) == u16::from(earlier.0) + 1
    }
}

fn at(later: usize, earlier: usize) -> Option<ClashAt> {
    Some(ClashAt { later, earlier })
}

#[test]
fn same_numbers(rt: HostRuntime) {
    // nothing to ask, and nothing before the only one
    assert_eq!(rt; first_clash::<Same>(&[]), None);
    assert_eq!(rt; first_clash(&[Same(7)]), None);
    assert_eq!(rt; first_clash(&[Same(3), Same(1), Same(2)]), None);
    // the last element is asked, and about the first
    assert_eq!(rt; first_clash(&[Same(3), Same(1), Same(3)]), at(2, 0));
    // of the pairs (2, 1), (3, 0), the later element decides: 2 comes before 3
    assert_eq!(rt;
        first_clash(&[Same(3), Same(1), Same(1), Same(3)]),
        at(2, 1)
    );
    // 5 stands at 0 and 1, and again at 2: the element at 1 is the first that clashes
    assert_eq!(rt; first_clash(&[Same(5), Same(5), Same(5)]), at(1, 0));
}

#[test]
fn next_numbers(rt: HostRuntime) {
    // 4 after 3 clashes, 3 after 4 does not
    assert_eq!(rt; first_clash(&[Next(3), Next(4)]), at(1, 0));
    assert_eq!(rt; first_clash(&[Next(4), Next(3)]), None);
    assert_eq!(rt; first_clash(&[Next(9), Next(8), Next(7), Next(6)]), None);
    // 6 clashes with both fives: the earlier of them is told
    assert_eq!(rt; first_clash(&[Next(5), Next(5), Next(6)]), at(2, 0));
    // 8 after 9 does not clash; 2 does with the 1 at 2
    assert_eq!(rt;
        first_clash(&[Next(9), Next(8), Next(1), Next(2)]),
        at(3, 2)
    );
    // the greatest number has none above it
    assert_eq!(rt; first_clash(&[Next(255), Next(0), Next(255)]), None);
}
