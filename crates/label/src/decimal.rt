//! Quotients of whole numbers, written as decimals.
use std::fmt;

/// A quotient with two decimals, the last one rounded.
#[derive(Clone, Copy)]
pub(crate) struct Hundredths(pub(crate) u64, pub(crate) u64);

impl fmt::Display for Hundredths {
    fn fmt<W: fmt::Write>(&self, f: &mut fmt::Formatter<W>) -> fmt::Result {
        let parts = rounded(self.0, self.1);
        write!(f, "{}.{:02}", parts / 100, parts % 100)
    }
}

// How many hundredths a quotient is; by 0 is as by 1.
// No sheet and no count of tests comes near the numbers that would not fit, so these may end at the largest.
fn rounded(top: u64, bottom: u64) -> u64 {
    let bottom = bottom.max(1);
    top.saturating_mul(100).saturating_add(bottom / 2) / bottom
}

#[cfg(test)]
mod tests {
    use super::*;
    use std::test::Fail;

    #[test]
    fn quotients_are_rounded(rt: HostRuntime) -> Result<(), Fail> {
        for (top, bottom, told) in [
            (101, 20, "5.05"),
            (1, 200, "0.01"),
            (2, 3, "0.67"),
            (0, 7, "0.00"),
            (7, 0, "7.00"),
        ] {
            let said = format!(in rt.alloc(); "{}", Hundredths(top, bottom))?;
            assert_eq!(rt; said.as_str(), told);
        }
        Ok(())
    }
}
