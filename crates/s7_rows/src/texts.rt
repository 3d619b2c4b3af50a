//! The texts that lines state.
use crate::octets::add_octets;
use crate::parts::{cut, number};
use crate::row::Row;
use crate::wrong::Wrong;
use std::alloc::Global;

/// The text of a word's lines. Each part between two ` / ` is a line of it.
pub fn text_of(row: &Row<'_>, first: u64, word: &str) -> Result<String, Wrong> {
    let mut text = String::new(row.alloc);
    for k in 0..u64::MAX {
        let Some(value) = row.nth(0, word, k) else {
            break;
        };
        add_lines(row, value, first, &mut text)?;
    }
    Ok(text)
}

/// The text of a path: that of each line of the word that begins with the path.
pub fn path_text(row: &Row<'_>, first: u64, word: &str, path: &str) -> Result<String, Wrong> {
    let mut text = String::new(row.alloc);
    for k in 0..u64::MAX {
        let Some(value) = row.nth(0, word, k) else {
            break;
        };
        add_path_lines(row, value, first, path, &mut text)?;
    }
    Ok(text)
}

/// Appends the text of one line of the word, if it begins with the path.
fn add_path_lines(
    row: &Row<'_>,
    value: &str,
    first: u64,
    path: &str,
    text: &mut String,
) -> Result<(), Wrong> {
    let (of, rest) = cut(value);
    if of == path {
        add_lines(row, rest, first, text)?;
    }
    Ok(())
}

/// Appends the lines of a value. A value that ends with `^` has no newline at its end.
fn add_lines(row: &Row<'_>, value: &str, first: u64, text: &mut String) -> Result<(), Wrong> {
    match value.strip_suffix('^') {
        Some(value) => add_part(row, value, first, text),
        None => {
            add_part(row, value, first, text)?;
            Ok(text.push('\n')?)
        }
    }
}

/// Appends a text in which each part between two `~` is replaced.
pub fn add_part(row: &Row<'_>, part: &str, first: u64, text: &mut String) -> Result<(), Wrong> {
    let mut is_placed = false;
    for piece in part.split('~') {
        if is_placed {
            add_placed(row, piece, first, text)?;
        } else {
            add_plain(piece, text)?;
        }
        is_placed = !is_placed;
    }
    Ok(())
}

/// Appends a text with a newline for each ` / `.
fn add_plain(piece: &str, text: &mut String) -> Result<(), Wrong> {
    let mut is_first = true;
    for line in piece.split(" / ") {
        if !is_first {
            text.push('\n')?;
        }
        text.push_str(line)?;
        is_first = false;
    }
    Ok(())
}

/// Appends what replaces a part: a carriage return, a tilde, a number, a repeated text, or the digits of the octets of
/// a word.
fn add_placed(row: &Row<'_>, piece: &str, first: u64, text: &mut String) -> Result<(), Wrong> {
    match piece {
        "r" => return Ok(text.push('\r')?),
        "t" => return Ok(text.push('~')?),
        _ => {}
    }
    if let Some(less) = piece.strip_prefix("n-") {
        return add_number(first.saturating_sub(number(less)?), text);
    }
    match piece.split_once('x') {
        Some((times, repeated)) => add_repeated(repeated, number(times)?, text),
        None => add_digits(row, piece, text),
    }
}

/// Appends a text, repeated.
fn add_repeated(repeated: &str, times: u64, text: &mut String) -> Result<(), Wrong> {
    for _ in 0..times {
        text.push_str(repeated)?;
    }
    Ok(())
}

/// Appends the octets of a word in hexadecimal digits.
fn add_digits(row: &Row<'_>, word: &str, text: &mut String) -> Result<(), Wrong> {
    let mut octets = Vec::new(row.alloc);
    add_octets(&row.scope, word, &mut octets)?;
    let digits = hex_of(row.alloc, octets.as_slice())?;
    Ok(text.push_str(digits.as_str())?)
}

/// The hexadecimal digits of octets.
pub fn hex_of(alloc: Global, octets: &[u8]) -> Result<String, Wrong> {
    Ok(hex::encode(alloc, octets)?)
}

/// The digits of a number.
pub fn digits_of(alloc: Global, number: u64) -> Result<String, Wrong> {
    Ok(format!(in alloc; "{number}")?)
}

/// Appends a number.
pub fn add_number(number: u64, text: &mut String) -> Result<(), Wrong> {
    let digits = digits_of(*text.allocator(), number)?;
    Ok(text.push_str(digits.as_str())?)
}

/// The words of a command line. A word in quotes may have blanks or be empty.
pub fn words_of(row: &Row<'_>, first: u64) -> Result<Vec<String>, Wrong> {
    let mut words = Vec::new(row.alloc);
    let mut is_quoted = false;
    for piece in row.value(0, "words").unwrap_or("").split('"') {
        if is_quoted {
            words.push(String::from_str(row.alloc, piece)?)?;
        } else {
            add_words(row, piece, first, &mut words)?;
        }
        is_quoted = !is_quoted;
    }
    Ok(words)
}

/// Appends the words of a piece.
fn add_words(row: &Row<'_>, piece: &str, first: u64, words: &mut Vec<String>) -> Result<(), Wrong> {
    for word in piece.split_ascii_whitespace() {
        let mut text = String::new(row.alloc);
        add_part(row, word, first, &mut text)?;
        words.push(text)?;
    }
    Ok(())
}

/// The words, borrowed.
pub fn lent(alloc: Global, owned: &[String]) -> Result<Vec<&str>, Wrong> {
    let mut words = Vec::new(alloc);
    for word in owned {
        words.push(word.as_str())?;
    }
    Ok(words)
}
