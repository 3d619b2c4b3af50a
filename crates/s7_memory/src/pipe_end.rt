//! An end of two pipes.
ghost use Rattle.std.specs.Prelude.{◌≡◌, ◌≢◌, ◌<◌, length};
ghost use Rattle.s7_outer.specs.Calls.{IsReceive, IsTransmit};
ghost use Rattle.s7_outer.specs.Count.{raised};
ghost use Rattle.s7_outer.specs.Link.{GotCount, SentCount};

use crate::{Pipes, Side};
use s7_outer::{Clock, Got, Link, Sent, Tick};

/// One side of the pipes, as a link. It receives what waits for its side, and what it transmits waits for the other
/// side; the other end changes both between two calls. A call moves as many octets as are asked for and fit. The
/// link never fails and never ends. Its clock is the clock of the pipes.
#[derive(Drop)]
pub struct PipeEnd<'a> {
    /// The pipes of which this is an end.
    pub pipes: &'a mut Pipes,
    /// The side that this end serves.
    pub side: Side,
}

impl Link for PipeEnd<'_> {
    ghost use Rattle.s7_memory.specs.Pipes.{end_of, receives, transmits};

    ghost shows = { λ e. end_of e.pipes.ghost_name e.pipes.now e.side };

    /// Receives the octets that wait for this side, as many as `into` has room for. `NotYet` is returned exactly if
    /// none waits.
    fn receive(&mut self, into: &mut [u8]) -> Got
        requires { 0 < length into.old }

        ensures call { IsReceive (end_of self.old.pipes.ghost_name self.old.pipes.now self.old.side)
            (end_of self.new.pipes.ghost_name self.new.pipes.now self.new.side) into.old into.new result }
        ensures count { GotCount Got.NotYet (receives self.old.pipes.now self.old.side (length into.old)) result }
        ensures waited { result ≡ Got.NotYet → self.new.pipes.now.waits ≡ raised self.old.pipes.now.waits }
        ensures waited_no_other { result ≢ Got.NotYet → self.new.pipes.now.waits ≡ self.old.pipes.now.waits }
    {
        let count = self.pipes.take_out(self.side, into);
        if count == 0 {
            self.pipes.wait();
            return Got::NotYet;
        }
        Got::Bytes(count)
    }

    /// Puts the first octets of the piece into the pipe to the other side, as many as there is space for. `NotYet`
    /// is returned exactly if there is no space.
    fn transmit(&mut self, piece: &[u8]) -> Sent
        requires { 0 < length piece.now }

        ensures call { IsTransmit (end_of self.old.pipes.ghost_name self.old.pipes.now self.old.side)
            (end_of self.new.pipes.ghost_name self.new.pipes.now self.new.side) piece.now result }
        ensures count { SentCount Sent.NotYet (transmits self.old.pipes.now self.old.side (length piece.now)) result }
        ensures waited { result ≡ Sent.NotYet → self.new.pipes.now.waits ≡ raised self.old.pipes.now.waits }
        ensures waited_no_other { result ≢ Sent.NotYet → self.new.pipes.now.waits ≡ self.old.pipes.now.waits }
    {
        let count = self.pipes.put_in(self.side, piece);
        if count == 0 {
            self.pipes.wait();
            return Sent::NotYet;
        }
        Sent::Bytes(count)
    }

    /// Does nothing, since pipes have no end of stream.
    fn shutdown(&mut self)
        ensures shut { end_of self.new.pipes.ghost_name self.new.pipes.now self.new.side
            ≡ end_of self.old.pipes.ghost_name self.old.pipes.now self.old.side }
        ensures side { self.new.side ≡ self.old.side }
    {}
}

impl Clock for PipeEnd<'_> {
    fn now(&mut self) -> Tick {
        Tick::At(self.pipes.look())
    }
}
