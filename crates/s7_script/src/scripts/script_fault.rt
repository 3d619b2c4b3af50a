//! What is wrong in a script.
use thiserror::Error;

/// What is wrong with a line.
#[derive(Clone, Copy, Debug, PartialEq, Eq, Error)]
pub enum ScriptKind {
    /// The first word, an area, the word of an item, the kind of a block or the name of a tag isn't known; or a
    /// password has an octet that isn't printable ASCII.
    #[error("no such word")]
    Word,
    /// A field isn't a decimal number of at most ten digits, or is outside its range; a written item has
    /// more than 65,535 elements, or a send more octets; a moment isn't a date and time of the years 1990 to
    /// 2089; or the value of a tag isn't one of its type.
    #[error("no number for this field")]
    Number,
    /// The octets aren't an even number of hexadecimal digits, at least two; or the id or index of a status list isn't
    /// four digits, the value of `dbfill` isn't two, or the R_ID of a send isn't eight.
    #[error("no hexadecimal digits")]
    Digits,
    /// A field is missing or too many, or the octets of a written item make no whole number of elements.
    #[error("a field is missing or too many")]
    Fields,
    /// An allocation failed.
    #[error("out of memory")]
    Memory,
}

/// The first wrong line of a script, and what is wrong with it. Lines are numbered from 1; all lines after line
/// 4,294,967,295 have that number.
#[derive(Clone, Copy, Debug, PartialEq, Eq)]
pub struct ScriptFault {
    pub line: u32,
    pub kind: ScriptKind,
}
