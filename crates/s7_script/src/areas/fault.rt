//! What is wrong in an area file.
use s7_area::RegisterFault;
use thiserror::Error;

/// What is wrong with a line.
#[derive(Clone, Copy, Debug, PartialEq, Eq, Error)]
pub enum AreasKind {
    /// The first line is neither `s7 areas 1` nor `s7 areas 2`.
    #[error("no first line of an area file")]
    Head,
    /// A line that should begin an area doesn't: it has another name, or a field is missing or too many. Or a line
    /// gives a guard, but its password has another form, a field is missing or too many, or it comes after another
    /// guard or after an area.
    #[error("no area line")]
    Line,
    /// A field isn't a decimal number of at most ten digits; or the number of a data block isn't from 1 to 65,535; or
    /// the level of a guard isn't 2 or 3; or the count of a run is 0.
    #[error("no number for this field")]
    Number,
    /// A line of octets isn't an even number of hexadecimal digits, or a run doesn't have two digits.
    #[error("no hexadecimal digits")]
    Digits,
    /// A line has more octets than are left of the area.
    #[error("more octets than the area has")]
    Length,
    /// The area is refused. The fault is reported at the line that begins the area: `Size` before its octets are read,
    /// every other fault once they are complete.
    #[error("the area is refused")]
    Register(RegisterFault),
    /// The file ends before the area has all its octets. The line is the one after the last.
    #[error("the file ends inside an area")]
    Ended,
    /// An allocation failed.
    #[error("out of memory")]
    Memory,
}

/// The first wrong line of an area file, and what is wrong with it. Lines are numbered from 1; all lines after line
/// 4,294,967,295 have that number.
#[derive(Clone, Copy, Debug, PartialEq, Eq)]
pub struct AreasFault {
    pub line: u32,
    pub kind: AreasKind,
}
