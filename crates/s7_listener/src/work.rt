//! Links that are being served, or were served.
use crate::served::Served;

/// A link that came: a thread serves it, or it was served.
#[derive(Drop)]
pub(crate) enum Work<H, L> {
    /// A thread serves it; this is the thread's handle.
    Running(H),
    /// It was served.
    Done(Served<L>),
}

/// Why no link came.
#[derive(Clone, Copy, Debug, PartialEq, Eq)]
pub(crate) enum Stop {
    /// The door has no more links.
    End,
    /// The door failed.
    Failed,
}
