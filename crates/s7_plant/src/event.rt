//! The events that observers are notified of.

/// An entry of a book's journal, as observers are notified of it.
#[derive(Clone, Copy, Debug, PartialEq, Eq)]
pub struct Event {
    /// The number of the entry in the journal, from 0.
    pub number: u64,
    /// The number of the link that asked.
    pub link: u32,
    /// The code of the request, as `Request::code` returns it.
    pub code: u32,
    /// The error word of the reply, 0 if the request was carried out.
    pub error: u16,
}
