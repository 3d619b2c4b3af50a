//! The journal: what a plant was asked, in order.
ghost use Rattle.std.specs.Prelude.{◌≡◌, ◌<◌, ◌≤◌, ◌↔◌, [], ◌∷◌, ◌++◌, length};
ghost use Rattle.std.specs.Prelude.{IsTrue, IfOk};
ghost use Rattle.s7_plant.specs.Journals.{entries_of, AreReady};
ghost use Rattle.s7_plant.specs.Requests.{IsReady};

use crate::request::{Ask, Request};
use s7_outer::Memory;
use std::alloc::Global;
use std::marker::Model;

/// A request that was carried out, whether its link had the right, and the number of that link.
#[derive(Drop)]
pub struct Entry {
    /// The number of the link that asked.
    pub link: u32,
    /// What it asked, as a history keeps it.
    pub ask: Ask,
}

const _: () = prove!(size_of::<Entry>() <= 300);

/// Entries in order, with room for all that may come. Contracts see the list of entries and its limit, which is from 1
/// to 262,144.
#[derive(Drop)]
pub struct Journal {
    entries: Vec<Entry>,
    limit: u64,
}

impl Model for Journal {
    ghost use Rattle.std.specs.Prelude.{vec_len, vec_capacity};
    ghost use Rattle.s7_plant.specs.Journals.{Entries, entries_of, IsJournal};

    ghost Value = { Entries };

    ghost view = { λ j. entries_of j.entries.items j.limit };

    ghost invariant = { λ j. IsJournal j.entries.items (vec_len j.entries) j.limit (vec_capacity j.entries) };
}

impl Journal {
    /// An empty journal with room for `limit` entries, from 1 to 262,144, all of it allocated and written once here. So
    /// the memory is resident from the start, and no `push` waits for a page of it. Returns `Memory` if the allocation
    /// fails.
    pub(crate) fn new(alloc: Global, limit: u64) -> Result<Journal, Memory>
        requires some { 1 ≤ limit }
        requires few { limit ≤ 262144 }
        ensures { IfOk result (λ journal. journal ≡ entries_of [] limit) }
    {
        let mut entries = Vec::with_capacity(alloc, limit as usize)?;
        for _ in 0..limit {
            entries.push_reserved(blank());
        }
        entries.clear();
        Ok(Journal { entries, limit })
    }

    /// The number of entries.
    pub fn len(&self) -> u64
        ensures len { result ≡ length self.now.entries }
        ensures most { result ≤ self.now.limit }
    {
        self.entries.len() as u64
    }

    /// The entries, borrowed. Each of their requests is ready to be carried out again.
    pub fn as_slice(&self) -> &[Entry]
        ensures entries { result.now ≡ self.now.entries }
        ensures ready { AreReady self.now.entries }
    {
        self.entries.as_slice()
    }

    /// Whether the journal has reached its limit.
    pub(crate) fn is_full(&self) -> bool
        ensures { IsTrue result ↔ (length self.now.entries ≡ self.now.limit) }
    {
        self.len() == self.limit
    }

    /// Appends an entry. The journal must have room. Allocates nothing.
    pub(crate) fn push(&mut self, entry: Entry)
        requires room { length self.old.entries < self.old.limit }
        requires ready { IsReady entry.ask.request }
        ensures { self.new ≡ entries_of (self.old.entries ++ entry ∷ []) self.old.limit }
    {
        self.entries.push_reserved(entry);
    }
}

/// An entry that no link asked for.
fn blank() -> Entry {
    Entry {
        link: 0,
        ask: Ask {
            right: false,
            request: Request::Stop,
        },
    }
}
