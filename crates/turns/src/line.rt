//! The lines of a script.
use std::io;
use std::io::{BufRead, Read};

/// The most bytes that a command has: twelve times what it takes to spell the largest file.
pub(crate) const MOST_LINE: usize = 1_000_000;

// One byte more: a line that is too long is seen to be, and is never held whole.
const MOST_HELD: u64 = 1_000_001;

/// Reads the next line in place of the last one, without its line feed, and as far as it matters; whether there was one.
// As in `label`, which takes shorter ones: what it leaves of the input is told by no contract of the library, so it makes no public call.
pub(crate) fn next_line<R: BufRead>(input: &mut R, line: &mut Vec<u8>) -> io::Result<bool> {
    line.clear();
    let count = input.by_ref().take(MOST_HELD).read_until(b'\n', line)?;
    if line.last() == Some(&b'\n') {
        let _ = line.pop();
    } else if line.len() > MOST_LINE {
        let _ = input.skip_until(b'\n')?;
    }
    Ok(count > 0)
}

#[cfg(test)]
mod tests {
    use super::*;
    use std::io::BufReader;
    use std::test::Fail;

    #[test]
    fn lines_end_and_are_cut(rt: HostRuntime) -> Result<(), Fail> {
        let mut text = vec![in rt.alloc(); b'x'; 1_000_005]?;
        text.push(b'\n')?;
        text.push(b'y')?;
        let mut input = BufReader::new(rt.alloc(), text.as_slice())?;
        let mut line = Vec::new(rt.alloc());
        assert!(&rt; next_line(&mut input, &mut line)?);
        assert_eq!(&rt; line.len(), 1_000_001);
        assert!(&rt; next_line(&mut input, &mut line)?);
        assert_eq!(&rt; line.as_slice(), b"y".as_slice());
        assert!(&rt; !next_line(&mut input, &mut line)?);
        Ok(())
    }
}
