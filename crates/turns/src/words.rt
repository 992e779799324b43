//! The words of a command.
use std::alloc::{AllocError, Global};
use std::num::ParseIntError;
use std::str::{FromStr, Split};

/// The number that the next word stands for; none where there is no word, or one that is no such number.
pub(crate) fn number<N: FromStr<Err = ParseIntError>>(words: &mut Split<'_, char>) -> Option<N> {
    words.next()?.parse::<N>().ok()
}

// The value of a hexadecimal digit, in small letters only: the library's functions take capitals too.
fn digit(b: u8) -> Option<u8> {
    match b {
        b'0'..=b'9' => Some(b - b'0'),
        b'a'..=b'f' => Some(b - b'a' + 10),
        _ => None,
    }
}

/// The bytes that a word of hexadecimal digits stands for; none where it is no such word.
pub(crate) fn bytes_of(heap: Global, word: &str) -> Result<Option<Vec<u8>>, AllocError> {
    let mut bytes = Vec::new(heap);
    // A dash stands for no bytes at all, where an empty word would not be seen.
    if word == "-" {
        return Ok(Some(bytes));
    }
    for pair in word.as_bytes().chunks(2) {
        let [high, low] = pair else {
            return Ok(None);
        };
        let (Some(high), Some(low)) = (digit(*high), digit(*low)) else {
            return Ok(None);
        };
        bytes.push(high.wrapping_mul(16).wrapping_add(low))?;
    }
    Ok(Some(bytes))
}

/// A digest of many numbers, from the digest of those before `more`.
// Row by row: over an iterator of the numbers of all rows (`flat_map`) it takes twice as long and more.
pub(crate) fn digest(before: u32, more: &[u16]) -> u32 {
    more.iter().fold(
        before,
        |all, number| all.wrapping_mul(31).wrapping_add(u32::from(*number)),
    )
}
