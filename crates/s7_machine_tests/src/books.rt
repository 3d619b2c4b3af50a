//! Books and links in memory, for the tests of links and doors.
ghost use Rattle.std.specs.Prelude.{◌≡◌, ◌≤◌, [], map, IfOk};
ghost use Rattle.s7_plant.specs.Books.{seen_of};
ghost use Rattle.s7_plant.specs.Journals.{entries_of};
ghost use Rattle.s7_plant.specs.Observers.{fresh};

use crate::telegrams::joined;
use s7_area::{AreaKey, Areas};
use s7_block::Blocks;
use s7_listener::Served;
use s7_memory::MemoryLink;
use s7_outer::{Memory, Octets};
use s7_plant::{Book, MOST_BLOCKS, Observer, Tail};
use s7_session::Outcome;
use std::alloc::Global;

/// A link that gives these telegrams.
pub(crate) fn a_link(alloc: Global, telegrams: &[&[u8]]) -> Option<MemoryLink> {
    MemoryLink::new(alloc, joined(alloc, telegrams)?, 8_192, 4_096, 7).ok()
}

/// Data block 1 with `11 22 33 44`.
fn some_areas(alloc: Global) -> Result<Areas, Memory> {
    let key = AreaKey {
        area: 0x84,
        number: 1,
    };
    let octets = Octets::copy_of(alloc, &[0x11, 0x22, 0x33, 0x44])?;
    let mut areas = Areas::new();
    match areas.register(alloc, key, octets) {
        Ok(()) => Ok(areas),
        Err(_) => Err(Memory),
    }
}

/// A book of data block 1, whose journal has room for `limit` entries.
pub(crate) fn a_book(alloc: Global, limit: u64) -> Result<Book<Tail>, Memory>
    requires some { 1 ≤ limit }
    requires few { limit ≤ 262144 }
    ensures journal { IfOk result (λ book. book.journal ≡ entries_of [] limit) }
    ensures untold { IfOk result (λ book.
        seen_of ⟦<Tail as Observer>⟧.seen book ≡ map fresh (seen_of ⟦<Tail as Observer>⟧.seen book)) }
{
    let areas = some_areas(alloc)?;
    let blocks = Blocks::new(alloc, MOST_BLOCKS)?;
    Book::new(alloc, areas, blocks, limit, Vec::new(alloc))
}

/// Reports whether a link ended without a fault, wrote these answers, was shut after them, and made this number of
/// entries.
pub(crate) fn is_answered<L>(
    served: &Served<L>,
    line: &MemoryLink,
    answers: &Octets,
    entries: u64,
) -> bool {
    served.outcome == Outcome::Ended
        && line.written() == answers.as_slice()
        && line.is_shut()
        && served.entries == entries
}
