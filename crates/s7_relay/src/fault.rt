//! What is wrong with windows files.

/// What is wrong with a line of a windows file, in the order in which it is found.
#[derive(Clone, Copy, Debug, PartialEq, Eq)]
pub enum WindowKind {
    /// The line doesn't have five fields, or the third field isn't `=`.
    Fields,
    /// The near or the far area isn't `PE`, `PA` or `MK` and doesn't begin with `DB`.
    Word,
    /// A number can't be read or is outside its range, or length and offset together exceed 2,097,152.
    Number,
    /// An earlier line has the same near area.
    Double,
    /// An allocation failed.
    Memory,
}

/// The first wrong line of a windows file, and what is wrong with it. Lines are numbered from 1; all lines after line
/// 4,294,967,295 have that number.
#[derive(Clone, Copy, Debug, PartialEq, Eq)]
pub struct WindowFault {
    pub line: u32,
    pub kind: WindowKind,
}
