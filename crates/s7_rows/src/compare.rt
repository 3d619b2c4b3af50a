//! Compares results with what a row states, and notes differences.
use crate::octets::{add_items, plain_octets};
use crate::parts::{cut, number};
use crate::row::Row;
use crate::texts::{digits_of, hex_of, text_of};
use crate::wrong::Wrong;

/// Appends a difference: what was expected, and what came.
pub fn note(what: &str, wanted: &str, came: &str, differences: &mut String) -> Result<(), Wrong> {
    for part in [
        "  ",
        what,
        "\n    wanted ",
        wanted,
        "\n    came   ",
        came,
        "\n",
    ] {
        differences.push_str(part)?;
    }
    Ok(())
}

/// Appends a difference of numbers, if they differ.
pub fn compare_numbers(
    what: &str,
    wanted: u64,
    came: u64,
    differences: &mut String,
) -> Result<(), Wrong> {
    if wanted == came {
        return Ok(());
    }
    let alloc = *differences.allocator();
    let wanted = digits_of(alloc, wanted)?;
    let came = digits_of(alloc, came)?;
    note(what, wanted.as_str(), came.as_str(), differences)
}

/// Appends a difference of a number from what the row states, if it states one.
pub fn compare_count(
    row: &Row<'_>,
    link: u64,
    word: &str,
    came: u64,
    differences: &mut String,
) -> Result<(), Wrong> {
    let wanted = row.number_or(link, word, came)?;
    compare_numbers(word, wanted, came, differences)
}

/// Appends a difference of a line of text from what the row states, if it states one.
pub fn compare_line(
    row: &Row<'_>,
    link: u64,
    word: &str,
    came: &str,
    differences: &mut String,
) -> Result<(), Wrong> {
    let wanted = row.value(link, word).unwrap_or(came);
    if wanted == came {
        return Ok(());
    }
    note(word, wanted, came, differences)
}

/// Appends a difference of octets, if they differ.
pub fn compare_octets(
    what: &str,
    wanted: &[u8],
    came: &[u8],
    differences: &mut String,
) -> Result<(), Wrong> {
    if wanted == came {
        return Ok(());
    }
    let alloc = *differences.allocator();
    let wanted = hex_of(alloc, wanted)?;
    let came = hex_of(alloc, came)?;
    note(what, wanted.as_str(), came.as_str(), differences)
}

/// Appends a difference of texts, if they differ.
pub fn compare_texts(
    what: &str,
    wanted: &str,
    came: &[u8],
    differences: &mut String,
) -> Result<(), Wrong> {
    if wanted.as_bytes() == came {
        return Ok(());
    }
    let alloc = *differences.allocator();
    let came = String::from_utf8_lossy(alloc, came)?;
    note(what, wanted, came.as_str(), differences)
}

/// Compares the printed text with what the row's lines with this word state, and appends a difference if there is one.
/// A row without such a line states nothing.
pub fn compare_printed(
    row: &Row<'_>,
    first: u64,
    word: &str,
    came: &[u8],
    differences: &mut String,
) -> Result<(), Wrong> {
    if row.value(0, word).is_none() {
        return Ok(());
    }
    let wanted = text_of(row, first, word)?;
    compare_texts(word, wanted.as_str(), came, differences)
}

/// Appends the differences of what was written on a link from what the row states for it. A word `wrote` says how many
/// of the octets stated were written.
pub fn compare_written(
    row: &Row<'_>,
    link: u64,
    came: &[u8],
    differences: &mut String,
) -> Result<(), Wrong> {
    let Some(items) = row.value(link, "out") else {
        return Ok(());
    };
    let mut wanted = Vec::new(row.alloc);
    add_items(&row.scope, items, &mut wanted)?;
    wanted.truncate(row.number_or(link, "wrote", u64::MAX)? as usize);
    let skipped = row.number_or(link, "after", 0)? as usize;
    let came = came.get(skipped..).unwrap_or(&[]);
    let mut what = digits_of(row.alloc, link)?;
    what.push_str(" out")?;
    compare_octets(what.as_str(), wanted.as_slice(), came, differences)
}

/// The number of a data block and the item of its octets, as the value of a line `block` states them.
pub fn block_of(value: &str) -> Result<(u16, &str), Wrong> {
    let (name, item) = cut(value);
    match name.strip_prefix("DB") {
        Some(digits) => Ok((number(digits)?.min(0xFFFF) as u16, item)),
        None => Err(Wrong::Block),
    }
}

/// Appends a difference of octets from those of an item.
pub fn compare_item(
    row: &Row<'_>,
    what: &str,
    item: &str,
    came: &[u8],
    differences: &mut String,
) -> Result<(), Wrong> {
    let wanted = plain_octets(row.alloc, &row.scope, item)?;
    compare_octets(what, wanted.as_slice(), came, differences)
}
