//! The result of handling a message.

/// The result of handling a message.
#[derive(Clone, Copy, Debug, PartialEq, Eq)]
pub(crate) enum Handled {
    /// It is answered, or needs no answer, and the link goes on.
    Answered,
    /// Its telegram was entered under this number, and is answered.
    Entered(u64),
    /// An allocation for its telegram failed.
    NoMemory,
    /// It isn't S7: it has fewer than ten octets, or doesn't begin with 32.
    NotS7,
}
