//! Splitting texts.
use crate::wrong::Wrong;

/// The text before the first blank and the text after it; without a blank, the whole text and an empty one.
pub fn cut(text: &str) -> (&str, &str) {
    text.split_once(' ').unwrap_or((text, ""))
}

/// The number that a text states.
pub fn number(text: &str) -> Result<u64, Wrong> {
    match text.trim().parse::<u64>() {
        Ok(number) => Ok(number),
        Err(_) => Err(Wrong::Number),
    }
}

/// The two numbers of a range, for instance 5 and 8 of `5..8`.
pub fn range(text: &str) -> Result<(u64, u64), Wrong> {
    match text.split_once("..") {
        Some((from, to)) => Ok((number(from)?, number(to)?)),
        None => Err(Wrong::Range),
    }
}
