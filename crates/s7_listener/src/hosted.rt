//! The result of serving links side by side.
use crate::served::Served;

/// The result of serving a door's links: the keeper, the served links in the order of their numbers, and whether the
/// door failed after the first link.
#[derive(Drop)]
pub struct Hosted<M, L> {
    /// The keeper, after all entries.
    pub keeper: M,
    /// The links that were served, in the order of their numbers.
    pub links: Vec<Served<L>>,
    /// Whether the door failed after the first link.
    pub door_failed: bool,
}

/// Why no link was served.
#[derive(Clone, Copy, Debug, PartialEq, Eq)]
pub enum NotHosted {
    /// An allocation failed before the door was asked to listen.
    Memory,
    /// The door can't listen, or failed before a link came.
    Door,
}

/// The links that were served, with the seat that represents all their numbers.
#[derive(Drop)]
pub(crate) struct Gathered<S, L> {
    pub seat: S,
    pub links: Vec<Served<L>>,
    pub door_failed: bool,
}
