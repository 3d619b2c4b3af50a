//! A buffer of fixed size, which never allocates after it was made.
ghost use Rattle.std.specs.Prelude.{◌≡◌, ℕ, ◌+◌, ◌<◌, ◌≤◌, List, [], ◌++◌, length, IfOk};
ghost use Rattle.std.specs.Borrow.{Lends, Array, sem, u8 as octet};
ghost use Rattle.std.specs.List.{refill};

use crate::{Memory, Octets};
use std::alloc::Global;
use std::marker::Model;
use std::mem;

/// Octets in a buffer of fixed size. Contracts see the octets held and the room, which is the greatest number of
/// octets that the buffer can hold.
#[derive(Debug, Drop)]
pub struct Buffer {
    octets: Vec<u8>,
    room: usize,
}

impl Model for Buffer {
    ghost use Rattle.std.specs.Prelude.{◌≤◌, ℕ, List, vec_len, vec_capacity};
    ghost use Rattle.s7_outer.specs.Held.{Held};

    ghost Value = { Held };

    ghost view = { λ b. record { octets = b.octets.items; room = b.room } };

    ghost invariant = { λ b. (vec_len b.octets ≤ b.room) × (b.room ≤ vec_capacity b.octets) };
}

impl Buffer {
    ghost use Rattle.s7_outer.specs.Held.{with_octets};
    ghost use Rattle.s7_outer.specs.contracts.buffer.Buffer.{the_row};

    /// An empty buffer with room for `room` octets, all of it allocated here. Returns `Memory` if the allocation
    /// fails.
    pub fn new(alloc: Global, room: usize) -> Result<Buffer, Memory>
        ensures { IfOk result (λ b. (b.octets ≡ []) × (b.room ≡ room)) }
    {
        Ok(Buffer {
            octets: Vec::with_capacity(alloc, room)?,
            room,
        })
    }

    /// The octets held.
    pub fn as_slice(&self) -> &[u8]
        ensures octets { result.now ≡ self.now.octets }
        ensures fits { length self.now.octets ≤ self.now.room }
    {
        self.octets.as_slice()
    }

    /// The octets held, writable in place. The buffer then holds what was written here; its length and its room
    /// stay.
    pub fn as_mut_slice(&mut self) -> &mut [u8]
        ensures* writes_back { sem 𝓛 (Lends the_row (Array octet 0) self.entry result (with_octets self.old)) }
        ensures octets { result.now ≡ self.old.octets }
        ensures same_length { (octets : List ℕ) → length octets ≡ length self.old.octets
            → with_octets self.old octets ≡ record self.old { octets = octets } }
    {
        self.octets.as_mut_slice()
    }

    /// The greatest number of octets that the buffer can hold.
    pub fn room(&self) -> usize
        ensures room { result ≡ self.now.room }
        ensures fits { length self.now.octets ≤ self.now.room }
    {
        self.room
    }

    /// Drops the octets held. The room stays.
    pub fn clear(&mut self)
        ensures octets { self.new.octets ≡ [] }
        ensures room { self.new.room ≡ self.old.room }
    {
        self.octets.clear();
    }

    /// Appends octets. The caller ensures that they fit into the room that is left.
    pub fn add(&mut self, octets: &[u8])
        requires { length self.old.octets + length octets.now ≤ self.old.room }
        ensures octets { self.new.octets ≡ self.old.octets ++ octets.now }
        ensures room { self.new.room ≡ self.old.room }
    {
        match self.octets.extend_from_slice(octets) {
            Ok(()) => {}
            Err(_) => unreachable!(),
        }
    }

    /// Takes the octets held out of the buffer, and leaves it empty and without room.
    pub fn take(&mut self) -> Octets
        ensures taken { result ≡ self.old.octets }
        ensures octets { self.new.octets ≡ [] }
        ensures room { self.new.room ≡ 0 }
    {
        let empty = Vec::new(*self.octets.allocator());
        self.room = 0;
        Octets::of_vec(mem::replace(&mut self.octets, empty))
    }
}
