//! The parts of a row, and the numbers and octets that they state.
use std::alloc::Global;

/// The part with index `n`, counted from 0, without the blanks around it. Parts are separated by the mark. The part is
/// empty if the text has no part with this index.
pub(crate) fn part(text: &str, mark: char, n: usize) -> &str {
    text.split(mark).nth(n).unwrap_or("").trim()
}

/// The field with index `n`, counted from 0. Fields are separated by one blank.
pub(crate) fn field(text: &str, n: usize) -> &str {
    part(text, ' ', n)
}

/// The decimal number that a text states. A text that is no number gives the greatest one, which no row expects.
pub(crate) fn number(text: &str) -> u64 {
    text.parse::<u64>().unwrap_or(u64::MAX)
}

/// The hexadecimal number that a text states. A text that is no number gives the greatest one, which no row expects.
pub(crate) fn hex_number(text: &str) -> u32 {
    u32::from_str_radix(text, 16).unwrap_or(u32::MAX)
}

/// The hexadecimal number in the field with index `n`: the number of an area, a block or a list, or an error word.
pub(crate) fn code(text: &str, n: usize) -> u16 {
    u16::try_from(hex_number(field(text, n))).unwrap_or(u16::MAX)
}

/// The hexadecimal code in the field with index `n`: of an area or of a kind of blocks.
pub(crate) fn kind(text: &str, n: usize) -> u8 {
    u8::try_from(hex_number(field(text, n))).unwrap_or(u8::MAX)
}

/// The octets that a text states: `-` for none, or pieces with points between them. `None` if a piece can't be read.
pub(crate) fn octets(alloc: Global, text: &str) -> Option<Vec<u8>> {
    let mut all = Vec::new(alloc);
    add_octets(alloc, &mut all, text)?;
    Some(all)
}

/// Appends the octets that a text states.
pub(crate) fn add_octets(alloc: Global, all: &mut Vec<u8>, text: &str) -> Option<()> {
    if text == "-" {
        return Some(());
    }
    for piece in text.split('.') {
        add_piece(alloc, piece, all)?;
    }
    Some(())
}

/// The greatest number of repetitions of a piece.
const MOST: u64 = 1_000_000;

/// Appends a piece. It is octets in hexadecimal digits, which may be followed by `*` and the number of repetitions.
fn add_piece(alloc: Global, piece: &str, into: &mut Vec<u8>) -> Option<()> {
    let octets = hex::decode(alloc, part(piece, '*', 0)).ok()?;
    for _ in 0..times_of(part(piece, '*', 1)).min(MOST) {
        into.extend_from_slice(octets.as_slice()).ok()?;
    }
    Some(())
}

/// The number of repetitions that a text states; 1 if the text is empty.
fn times_of(text: &str) -> u64 {
    if text.is_empty() { 1 } else { number(text) }
}

/// Whether the octets found are those that the text states.
pub(crate) fn is(alloc: Global, found: &[u8], text: &str) -> bool {
    match octets(alloc, text) {
        Some(wanted) => found == wanted.as_slice(),
        None => false,
    }
}
