//! A sheet that is given as text, as a sheet file.
use anyhow::anyhow;
use std::alloc::{AllocError, Global};
use std::str::SplitWhitespace;

// The next word as a number of sixteen bits.
fn number(words: &mut SplitWhitespace<'_>) -> anyhow::Result<u16> {
    let Some(word) = words.next() else {
        return Err(anyhow!("the text ends too early"));
    };
    Ok(word.parse::<u16>()?)
}

// A number in groups of seven bits, the lowest first.
fn put(file: &mut Vec<u8>, number: u16) -> Result<(), AllocError> {
    let mut rest = number;
    for _group in 0..2 {
        if rest < 128 {
            break;
        }
        file.push((rest % 128) as u8 + 128)?;
        rest /= 128;
    }
    file.push((rest & 0x7f) as u8)?;
    Ok(())
}

/// The sheet file of a text: `sheet W H NV NL`, NV vertices `x y`, and NL loops `k v1 .. vk`. The vertices are those inside, or else the four
/// corners of the sheet and then those inside: a corner is never inside, so the first vertex tells which.
pub(crate) fn sheet_file(heap: Global, text: &str) -> anyhow::Result<Vec<u8>> {
    let mut file = Vec::new(heap);
    let mut words = text.split_whitespace();
    if words.next() != Some("sheet") {
        return Err(anyhow!("the text of a sheet begins with `sheet`"));
    }
    put(&mut file, 1)?;
    put(&mut file, number(&mut words)?)?;
    put(&mut file, number(&mut words)?)?;
    let vertices = number(&mut words)?;
    let loops = number(&mut words)?;
    put_vertices(&mut file, &mut words, vertices)?;
    put(&mut file, loops)?;
    for _loop in 0..loops {
        put(&mut file, 0)?;
        let corners = number(&mut words)?;
        put(&mut file, corners)?;
        for _corner in 0..corners {
            put(&mut file, number(&mut words)?)?;
        }
    }
    put(&mut file, 0)?;
    Ok(file)
}

// The count of inner vertices, and the vertices.
fn put_vertices(
    file: &mut Vec<u8>,
    words: &mut SplitWhitespace<'_>,
    vertices: u16,
) -> anyhow::Result<()> {
    if vertices == 0 {
        put(file, 0)?;
        return Ok(());
    }
    let first_x = number(words)?;
    let first_y = number(words)?;
    let mut inner = vertices - 1;
    if first_x == 0 && first_y == 0 {
        inner = vertices.saturating_sub(4);
        for _corner in 1..4 {
            number(words)?;
            number(words)?;
        }
        put(file, inner)?;
    } else {
        put(file, vertices)?;
        put(file, first_x)?;
        put(file, first_y)?;
    }
    for _vertex in 0..inner {
        put(file, number(words)?)?;
        put(file, number(words)?)?;
    }
    Ok(())
}
