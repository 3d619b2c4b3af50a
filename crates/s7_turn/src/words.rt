//! The words of the table, by their indices.

/// The next ticket, modulo 2^64.
pub(crate) const TICKET: usize = 0;

/// The ticket whose turn it is, modulo 2^64.
pub(crate) const SERVING: usize = 1;

/// How many seats sleep at the door.
pub(crate) const SLEEPERS: usize = 2;

/// How often the door was opened.
pub(crate) const DOOR: usize = 3;

/// The first of the bells. A bell is 0, or the mark of a seat that may sleep there.
pub(crate) const FIRST_BELL: usize = 4;

/// The number of bells. Tickets whose difference is a multiple of it share a bell.
pub(crate) const BELLS: u64 = 32;

/// The number of words.
pub(crate) const WORDS: usize = 36;
