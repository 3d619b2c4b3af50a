//! Two pipes between a client and a server.
ghost use Rattle.std.specs.Prelude.{◌≡◌, ◌+◌, ◌-◌, ◌≤◌, ◌++◌, min, length, take, drop, IfOk};
ghost use Rattle.s7_outer.specs.Count.{Rose, raised};
ghost use Rattle.s7_memory.specs.Pipes.{across, waiting_for, with_waiting, space_of, empty_pipes};

use circular_buffer::HeapCircularBuffer;
use s7_outer::{Memory, raise};
use std::alloc::Global;
use std::marker::Model;

/// An end of the pipes.
#[derive(Clone, Copy, Debug, PartialEq, Eq)]
pub enum Side {
    /// The client's end.
    Client,
    /// The server's end.
    Server,
}

/// A pipe in each direction, both with the same room for octets, and a clock that always gives the same time. Each
/// pipe is a ring buffer. Contracts see the octets that wait for each side, the room, the counts of waits and of
/// looks at the clock, and the time.
#[derive(Drop)]
pub struct Pipes {
    to_client: HeapCircularBuffer<u8>,
    to_server: HeapCircularBuffer<u8>,
    waits: u64,
    moment: u64,
    looks: u64,
}

impl Model for Pipes {
    ghost use Rattle.std.specs.Prelude.{◌≡◌, ◌≤◌, length};
    ghost use Rattle.s7_memory.specs.PipesHeld.{PipesHeld};

    ghost Value = { PipesHeld };

    ghost view = { λ p. record {
      to_client = p.to_client.items;
      to_server = p.to_server.items;
      room = p.to_client.capacity;
      waits = p.waits;
      moment = p.moment;
      looks = p.looks;
    } };

    ghost invariant = { λ p. p.to_server.capacity ≡ p.to_client.capacity };
}

impl Pipes {
    /// Empty pipes with room for `room` octets each, allocated here. Their clock always gives `moment`, in
    /// milliseconds since 1970. Returns `Memory` if the allocation fails.
    pub fn new(alloc: Global, room: usize, moment: u64) -> Result<Pipes, Memory>
        ensures { IfOk result (λ pipes. pipes ≡ empty_pipes room moment) }
    {
        Ok(Pipes {
            to_client: HeapCircularBuffer::with_capacity(alloc, room)?,
            to_server: HeapCircularBuffer::with_capacity(alloc, room)?,
            waits: 0,
            moment,
            looks: 0,
        })
    }

    /// How many octets wait for this side.
    pub fn held(&self, side: Side) -> usize
        ensures count { result ≡ length (waiting_for self.now side) }
        ensures fits { result ≤ self.now.room }
    {
        match side {
            Side::Client => self.to_client.len(),
            Side::Server => self.to_server.len(),
        }
    }

    /// The time that the clock always gives. The look is counted.
    pub(crate) fn look(&mut self) -> u64
        ensures moment { result ≡ self.old.moment }
        ensures rose { Rose self.old.looks self.new.looks }
        ensures once { self.new.looks ≤ self.old.looks + 1 }
        ensures same { self.new ≡ record self.old { looks = self.new.looks } }
    {
        raise(&mut self.looks);
        self.moment
    }

    /// Takes the first octets that wait for the side out of its pipe, as many as `into` has room for.
    pub(crate) fn take_out(&mut self, side: Side, into: &mut [u8]) -> usize
        ensures count { result ≡ min (length into.old) (length (waiting_for self.old side)) }
        ensures octets { into.new ≡ take result (waiting_for self.old side) ++ drop result into.old }
        ensures left { self.new ≡ with_waiting self.old side (drop result (waiting_for self.old side)) }
    {
        match side {
            Side::Client => self.to_client.read_into(into),
            Side::Server => self.to_server.read_into(into),
        }
    }

    /// Puts the first octets of the piece into the pipe to the other side, as many as fit.
    pub(crate) fn put_in(&mut self, side: Side, piece: &[u8]) -> usize
        ensures count { result ≡ min (length piece.now) (space_of self.old side) }
        ensures octets { self.new
            ≡ with_waiting self.old (across side) (waiting_for self.old (across side) ++ take result piece.now) }
    {
        match side {
            Side::Client => self.to_server.fill_from_slice(piece),
            Side::Server => self.to_client.fill_from_slice(piece),
        }
    }

    /// Counts a call that found nothing to receive, or no room.
    pub(crate) fn wait(&mut self)
        ensures raised { self.new.waits ≡ raised self.old.waits }
        ensures rose { Rose self.old.waits self.new.waits }
        ensures kept { self.old.waits ≤ self.new.waits }
        ensures same { self.new ≡ record self.old { waits = self.new.waits } }
    {
        raise(&mut self.waits);
    }
}
