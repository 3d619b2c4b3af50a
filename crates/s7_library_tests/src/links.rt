//! The links and pipes in memory that tests make. The functions promise nothing, so that their callers are cheap to
//! prove.
use s7_memory::{FailingLink, Fate, MemoryLink, Pipes, Side};
use s7_outer::Octets;
use std::alloc::Global;

/// A link that gives these octets, moves at most `most` in a call, at least one, and has room for `room`.
pub(crate) fn memory_link(
    alloc: Global,
    input: Octets,
    most: usize,
    room: usize,
) -> Option<MemoryLink> {
    MemoryLink::new(alloc, input, most.max(1), room, 7).ok()
}

/// A link over this one, whose first calls have these fates.
pub(crate) fn failing_link(inner: MemoryLink, fates: Vec<Fate>) -> FailingLink<MemoryLink> {
    FailingLink::new(inner, fates)
}

/// The octets that were written on a link.
pub(crate) fn written(link: &FailingLink<MemoryLink>) -> &[u8] {
    link.inner().written()
}

/// Pipes that have room for this number of octets.
pub(crate) fn new_pipes(alloc: Global, room: usize) -> Option<Pipes> {
    Pipes::new(alloc, room, 7).ok()
}

/// The number of octets that wait for a side.
pub(crate) fn held(pipes: &Pipes, side: Side) -> u64 {
    pipes.held(side) as u64
}
