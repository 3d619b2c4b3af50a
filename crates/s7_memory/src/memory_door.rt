//! A door in memory.
ghost use Rattle.std.specs.Prelude.{◌≡◌, ◌≢◌, ◌≤◌, ◌↔◌, Some, IsTrue, IsOk};
ghost use Rattle.s7_outer.specs.Count.{RoseExactly, raised};
ghost use Rattle.s7_outer.specs.Door.{GivesNext};

use s7_outer::{Arrival, Door, DoorFailed, raise};
use std::alloc::Global;
use std::vec::IntoIter;

/// Gives its links in order and then `End`. One chosen call of `next` fails and takes no link. `listen` always
/// succeeds.
#[derive(Drop)]
pub struct MemoryDoor<L> {
    links: IntoIter<L, Global>,
    /// The number of calls of `next` so far.
    place: usize,
    /// The number of the call of `next` that fails.
    fail_at: Option<usize>,
    port: u16,
    listens: u64,
    faults: u64,
}

impl<L: Drop> MemoryDoor<L> {
    ghost use Rattle.s7_memory.specs.MemoryDoor.{door_of, unused_door, failing_place, next_count};

    /// A door with these links. If `fail_at` is `Some(n)`, the n-th call of `next` fails, counted from 0.
    pub fn new(links: Vec<L>, fail_at: Option<usize>) -> MemoryDoor<L>
        ensures shown { door_of result ≡ unused_door links.items }
        ensures failing { failing_place result ≡ fail_at }
        ensures place { next_count result ≡ 0 }
    {
        MemoryDoor {
            links: links.into_iter(),
            place: 0,
            fail_at,
            port: 0,
            listens: 0,
            faults: 0,
        }
    }

    /// Counts a call, and returns whether it has to fail.
    fn fails(&mut self) -> bool
        ensures fails { IsTrue result ↔ (failing_place self.old ≡ Some (next_count self.old)) }
        ensures failing { failing_place self.new ≡ failing_place self.old }
        ensures place { next_count self.new ≡ raised (next_count self.old) }
        ensures counted { IsTrue result → self.new.faults ≡ raised self.old.faults }
        ensures counted_no_other { (IsTrue result → ⊥) → self.new.faults ≡ self.old.faults }
        ensures faults { self.old.faults ≤ self.new.faults }
        ensures links { self.new.links ≡ self.old.links }
        ensures port { self.new.port ≡ self.old.port }
        ensures listens { self.new.listens ≡ self.old.listens }
    {
        let fails = self.fail_at == Some(self.place);
        self.place = self.place.saturating_add(1);
        if fails {
            raise(&mut self.faults);
        }
        fails
    }
}

impl<L: Drop> Door<L> for MemoryDoor<L> {
    ghost use Rattle.s7_memory.specs.MemoryDoor.{door_of, failing_place, next_count, fault_count};

    ghost shows = { door_of };

    /// Listens on the port. `next` alone counts calls.
    fn listen(&mut self, port: u16) -> Result<(), DoorFailed>
        ensures ok { IsOk result }
        ensures shown { door_of self.new
            ≡ record (door_of self.old) { heard = port; listens = (door_of self.new).listens } }
        ensures listened { RoseExactly 1 (door_of self.old).listens (door_of self.new).listens }
        ensures failing { failing_place self.new ≡ failing_place self.old }
        ensures place { next_count self.new ≡ next_count self.old }
    {
        self.port = port;
        raise(&mut self.listens);
        Ok(())
    }

    /// The next link, or `Failed` exactly at the chosen call.
    fn next(&mut self) -> Arrival<L>
        ensures fails { (result ≡ Arrival.Failed) ↔ (failing_place self.old ≡ Some (next_count self.old)) }
        ensures gives { GivesNext (door_of self.old).coming (door_of self.new).coming result }
        ensures counted { result ≡ Arrival.Failed → fault_count self.new ≡ raised (fault_count self.old) }
        ensures counted_no_other { result ≢ Arrival.Failed → fault_count self.new ≡ fault_count self.old }
        ensures faults { fault_count self.old ≤ fault_count self.new }
        ensures same { door_of self.new
            ≡ record (door_of self.old) { coming = (door_of self.new).coming; faults = (door_of self.new).faults } }
        ensures failing { failing_place self.new ≡ failing_place self.old }
        ensures place { next_count self.new ≡ raised (next_count self.old) }
    {
        if self.fails() {
            return Arrival::Failed;
        }
        match self.links.next() {
            Some(link) => Arrival::Link(link),
            None => Arrival::End,
        }
    }
}
