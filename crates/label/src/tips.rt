//! The lines of a file of tips.
use crate::tip::Tip;
use plane::{RationalTip, WholeTip};
use std::io::{BufRead, Read};
use std::num::{IntErrorKind, ParseIntError};
use std::str::FromStr;
use std::{fmt, io, str};

/// The most bytes that a line with a tip has.
const MOST_LINE: usize = 1000;

// One byte more: a line that is too long is seen to be, and is never held whole.
const MOST_HELD: u64 = 1001;

/// What is wrong with a line.
#[derive(Clone, Copy, PartialEq, Eq, Debug)]
pub(crate) enum LineError {
    /// It has more than 1,000 bytes.
    TooLong,
    /// It is no text in UTF-8.
    NotText,
    /// It has one number only.
    TooFew,
    /// It has more than three numbers.
    TooMany,
    /// One of its words is no number; words are counted from 1.
    NotANumber { word: u8 },
    /// One of its numbers is below 0.
    Negative { word: u8 },
    /// One of its numbers is a fraction.
    Fraction { word: u8 },
    /// One of its numbers is above the most that may stand there.
    TooLarge { word: u8, most: u64 },
}

impl fmt::Display for LineError {
    fn fmt<W: fmt::Write>(&self, f: &mut fmt::Formatter<W>) -> fmt::Result {
        match *self {
            LineError::TooLong => write!(f, "it is longer than 1,000 bytes"),
            LineError::NotText => write!(f, "it is not plain text"),
            LineError::TooFew => write!(f, "too few numbers; a tip has two or three"),
            LineError::TooMany => write!(f, "too many numbers; a tip has two or three"),
            LineError::NotANumber { word } => { write!(f, "word {word} is not a whole number") }
            LineError::Negative { word } => {
                write!(
                    f,
                    "number {word} is negative; no tip on a sheet has one below 0"
                )
            }
            LineError::Fraction { word } => {
                write!(
                    f,
                    "number {word} is a fraction; write X Y Z for the point (X/Z, Y/Z)"
                )
            }
            LineError::TooLarge { word, most } => {
                write!(f, "number {word} is too large; {most} is the most here")
            }
        }
    }
}

/// The tip of a line, which comes without its line feed; none where nothing but blanks stands before its end or its comment.
pub(crate) fn read_tip(line: &[u8]) -> Result<Option<Tip>, LineError> {
    let front = before_comment(line);
    if front.len() > MOST_LINE {
        return Err(LineError::TooLong);
    }
    let Ok(text) = str::from_utf8(front) else {
        return Err(LineError::NotText);
    };
    let mut words = text.split_ascii_whitespace();
    let (first, second, third) = (words.next(), words.next(), words.next());
    match (first, second, third, words.next()) {
        (None, _, _, _) => Ok(None),
        (Some(_), None, _, _) => Err(LineError::TooFew),
        (Some(x), Some(y), None, _) => Ok(Some(Tip::Whole(whole(x, y)?))),
        (Some(x), Some(y), Some(z), None) => Ok(Some(Tip::Rational(rational(x, y, z)?))),
        _ => Err(LineError::TooMany),
    }
}

// What stands before the first `#`.
fn before_comment(line: &[u8]) -> &[u8] {
    line.split(|byte| *byte == b'#').next().unwrap_or(line)
}

fn whole(x: &str, y: &str) -> Result<WholeTip, LineError> {
    let most = u64::from(u16::MAX);
    Ok(WholeTip {
        x: number(x, 1, most)?,
        y: number(y, 2, most)?,
    })
}

fn rational(x: &str, y: &str, z: &str) -> Result<RationalTip, LineError> {
    Ok(RationalTip {
        x: number(x, 1, u64::MAX)?,
        y: number(y, 2, u64::MAX)?,
        z: number(z, 3, u64::from(u32::MAX))?,
    })
}

// The number that a word spells; the most that its type holds is told where it is larger.
fn number<N: FromStr<Err = ParseIntError>>(
    text: &str,
    word: u8,
    most: u64,
) -> Result<N, LineError> {
    match text.parse::<N>() {
        Ok(number) => Ok(number),
        Err(e) if *e.kind() == IntErrorKind::PosOverflow => Err(LineError::TooLarge { word, most }),
        Err(_) => Err(no_number(text, word)),
    }
}

// What is wrong with a word that spells no whole number.
fn no_number(text: &str, word: u8) -> LineError {
    if is_fraction(text) {
        return LineError::Fraction { word };
    }
    match text.strip_prefix('-') {
        Some(rest) if is_number(rest) || is_fraction(rest) => LineError::Negative { word },
        _ => LineError::NotANumber { word },
    }
}

fn is_number(text: &str) -> bool {
    !text.is_empty() && text.bytes().all(|byte| byte.is_ascii_digit())
}

// Digits with one point, comma or slash somewhere among them.
fn is_fraction(text: &str) -> bool {
    let marks = text
        .bytes()
        .filter(|byte| matches!(*byte, b'.' | b',' | b'/'))
        .count();
    let digits = text.bytes().filter(|byte| byte.is_ascii_digit()).count();
    marks == 1 && digits > 0 && text.len().saturating_sub(digits) == 1
}

/// Reads the next line in place of the last one, without its line feed, and as far as it matters; whether there was one.
pub(crate) fn next_line<R: BufRead>(file: &mut R, line: &mut Vec<u8>) -> io::Result<bool> {
    line.clear();
    let count = file.by_ref().take(MOST_HELD).read_until(b'\n', line)?;
    if line.last() == Some(&b'\n') {
        let _ = line.pop();
    } else if line.len() > MOST_LINE {
        let _ = file.skip_until(b'\n')?;
    }
    Ok(count > 0)
}

#[cfg(test)]
mod tests {
    use super::*;
    use std::test::Fail;

    #[test]
    fn lines_are_read(rt: HostRuntime) {
        let whole = Tip::Whole(WholeTip { x: 6, y: 65_535 });
        let rational = Tip::Rational(RationalTip { x: 9, y: 14, z: 3 });
        for (line, tip) in [
            (b"6 65535".as_slice(), Ok(Some(whole))),
            (b" \t6\t 65535 \r", Ok(Some(whole))),
            (b"9 14 3", Ok(Some(rational))),
            (b"", Ok(None)),
            (b" \r", Ok(None)),
            (b"# \xff", Ok(None)),
            (b" \t# 6 5", Ok(None)),
            (b"6 65535# the \xff", Ok(Some(whole))),
            (b"9 14 3 # a # b", Ok(Some(rational))),
            (b"6 # 5", Err(LineError::TooFew)),
            (b"6", Err(LineError::TooFew)),
            (b"1 2 3 4", Err(LineError::TooMany)),
            (b"6 five", Err(LineError::NotANumber { word: 2 })),
            (b"-6 5 1", Err(LineError::Negative { word: 1 })),
            (b"6 -0.5", Err(LineError::Negative { word: 2 })),
            (b"6 4.5", Err(LineError::Fraction { word: 2 })),
            (b"1/2 4", Err(LineError::Fraction { word: 1 })),
            (b"6 5, 1", Err(LineError::Fraction { word: 2 })),
            (b"6 --5", Err(LineError::NotANumber { word: 2 })),
            (b"6 1.2.3", Err(LineError::NotANumber { word: 2 })),
            (b"6 .", Err(LineError::NotANumber { word: 2 })),
            (b"6 1e3", Err(LineError::NotANumber { word: 2 })),
            (b"6 \xff", Err(LineError::NotText)),
            (
                b"6 65536",
                Err(LineError::TooLarge {
                    word: 2,
                    most: 65_535,
                }),
            ),
            (
                b"1 1 4294967296",
                Err(LineError::TooLarge {
                    word: 3,
                    most: 4_294_967_295,
                }),
            ),
            (&[b'6'; 1000], Err(LineError::TooFew)),
            (&[b'6'; 1001], Err(LineError::TooLong)),
            (&[b'#'; 1001], Ok(None)),
        ] {
            assert_eq!(rt; read_tip(line), tip);
        }
    }

    #[test]
    fn long_lines_are_cut(rt: HostRuntime) -> Result<(), Fail> {
        let mut text = vec![in rt.alloc(); b'6'; 3000]?;
        text.extend(b"\n7 5\r\n\n8".iter().copied())?;
        let mut file = text.as_slice();
        let mut line = Vec::new(rt.alloc());
        for (length, last) in [(1001, b'6'), (4, b'\r'), (0, 0), (1, b'8')] {
            assert!(rt; next_line(&mut file, &mut line)?);
            assert_eq!(rt; line.len(), length);
            assert_eq!(rt; line.last().copied().unwrap_or(0), last);
        }
        assert!(rt; !next_line(&mut file, &mut line)?);
        Ok(())
    }
}
