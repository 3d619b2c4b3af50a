//! Observers of a book's entries.
ghost use Rattle.std.specs.Prelude.{◌≡◌, ◌≤◌, IfOk};
ghost use Rattle.s7_plant.specs.Observers.{Seen, told_one, newest_of};

use crate::event::Event;
use circular_buffer::HeapCircularBuffer;
use s7_outer::Memory;
use std::alloc::Global;
use std::marker::Model;

/// Is notified of each entry of a book. It counts the events whose code shares a bit with its mask, and keeps the last
/// of them. Its mask and its depth never change.
pub trait Observer: Drop {
    /// Its mask and depth, the number of events that it counted, and the last of them.
    ghost seen: { Self → Seen };

    /// The codes that it counts, one bit for each group of requests.
    fn mask(&self) -> u32
        ensures { result ≡ (seen self.now).mask };

    /// The greatest number of events that it keeps.
    fn depth(&self) -> usize
        ensures { result ≡ (seen self.now).depth };

    /// Notifies it of an entry. If the event's code shares a bit with the mask, the count rises by one, at most to 2^64
    /// - 1, and the event becomes the newest. Any other event changes nothing.
    fn tell(&mut self, event: &Event)
        ensures { seen self.new ≡ told_one (seen self.old) event.now };

    /// The number of events that it counted.
    fn count(&self) -> u64
        ensures { result ≡ (seen self.now).count };

    /// The event that `n` kept events follow: 0 is the newest. `None` exactly if it keeps `n` events or fewer.
    fn newest(&self, n: usize) -> Option<Event>
        ensures { result ≡ newest_of (seen self.now).tail n };
}

/// An observer that counts events and keeps the last of them.
#[derive(Drop)]
pub struct Tail {
    mask: u32,
    count: u64,
    events: HeapCircularBuffer<Event>,
}

impl Model for Tail {
    ghost use Rattle.s7_plant.specs.Observers.{Seen, seen_with};

    ghost Value = { Seen };

    ghost view = { λ t. seen_with t.mask t.events.capacity t.count t.events.items };
}

impl Tail {
    ghost use Rattle.std.specs.Prelude.{[]};
    ghost use Rattle.s7_plant.specs.Observers.{seen_with};

    /// Counts the events whose code shares a bit with `mask`, and keeps the last `depth` of them, at least 1. It has
    /// counted none. The room for them is allocated here. Returns `Memory` if the allocation fails.
    pub fn new(alloc: Global, mask: u32, depth: usize) -> Result<Tail, Memory>
        requires { 1 ≤ depth }
        ensures { IfOk result (λ tail. tail ≡ seen_with mask depth 0 []) }
    {
        match HeapCircularBuffer::with_capacity(alloc, depth) {
            Ok(events) => Ok(Tail {
                mask,
                count: 0,
                events,
            }),
            Err(_) => Err(Memory),
        }
    }
}

impl Observer for Tail {
    ghost seen = { λ tail. tail };

    fn mask(&self) -> u32 {
        self.mask
    }

    fn depth(&self) -> usize {
        self.events.capacity()
    }

    fn tell(&mut self, event: &Event) {
        if event.code & self.mask != 0 {
            self.count = self.count.saturating_add(1);
            self.events.push_back(*event);
        }
    }

    fn count(&self) -> u64 {
        self.count
    }

    fn newest(&self, n: usize) -> Option<Event> {
        self.events.nth_back(n).copied()
    }
}

impl Observer for Box<dyn Observer + Send> {
    ghost seen = { λ b. (Observer-box b).seen b.value };

    fn mask(&self) -> u32 {
        (**self).mask()
    }

    fn depth(&self) -> usize {
        (**self).depth()
    }

    fn tell(&mut self, event: &Event) {
        (**self).tell(event);
    }

    fn count(&self) -> u64 {
        (**self).count()
    }

    fn newest(&self, n: usize) -> Option<Event> {
        (**self).newest(n)
    }
}
