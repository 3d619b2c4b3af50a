//! The octets to be sent.
ghost use Rattle.std.specs.Prelude.{◌≡◌, ◌≢◌, ◌==◌, ◌↔◌, ℕ, ◌+◌, ◌-◌, ◌<◌, ◌≤◌, [], ◌++◌, length, drop, IfSome};
ghost use Rattle.std.specs.Prelude.{option_map};
ghost use Rattle.std.specs.Io.KnownBytes.{append_known};
ghost use Rattle.s7_outer.specs.Count.{Rose};
ghost use Rattle.s7_outer.specs.Link.{octets_sent};
ghost use Rattle.s7_wire.specs.Bounds.{most_waiting};

use s7_outer::{Link, Sent};
use s7_tpkt::write_packet;
use std::marker::Model;

/// The greatest number of octets that may wait to be sent.
const OUTGOING: usize = 4_096;

/// The octets still to be sent, and the room for more.
#[derive(Drop)]
pub struct Outbox {
    /// Octets that were sent, then those still to be sent, then room.
    octets: [u8; OUTGOING],
    /// The offset of the first octet still to be sent.
    from: usize,
    /// The offset after the last octet to be sent.
    upto: usize,
}

impl Model for Outbox {
    ghost use Rattle.std.specs.Prelude.{◌≤◌, ◌-◌, ℕ, List, take, drop};
    ghost use Rattle.s7_wire.specs.Bounds.{most_waiting};
    ghost use Rattle.s7_wire.specs.Outgoing.{Outgoing};

    ghost Value = { Outgoing };

    ghost view = { λ o. record { unsent = drop o.from (take o.upto o.octets); room = most_waiting - o.upto } };

    ghost invariant = { λ o. (o.from ≤ o.upto) × (o.upto ≤ most_waiting) };
}

impl Outbox {
    ghost use Rattle.s7_tpkt.specs.Packets.{packet_of};

    /// An outbox without octets.
    pub fn new() -> Outbox
        ensures { result ≡ record { unsent = []; room = most_waiting } }
    {
        Outbox {
            octets: [0; OUTGOING],
            from: 0,
            upto: 0,
        }
    }

    /// Whether every octet was sent.
    pub fn is_empty(&self) -> bool
        ensures { result ≡ (length self.now.unsent == 0) }
    {
        self.from == self.upto
    }

    /// The number of octets that can still be queued: those of packets, with their headers.
    pub fn room(&self) -> usize
        ensures { result ≡ self.now.room }
    {
        OUTGOING - self.upto
    }

    /// The octets still to be sent.
    fn as_slice(&self) -> &[u8]
        ensures { result.now ≡ self.now.unsent }
    {
        let octets = &self.octets[..self.upto];
        &octets[self.from..]
    }

    /// Makes all room free again. The caller ensures that every octet was sent.
    pub fn clear(&mut self)
        requires { self.old.unsent ≡ [] }
        ensures { self.new ≡ record { unsent = []; room = most_waiting } }
    {
        self.from = 0;
        self.upto = 0;
    }

    /// Queues the packet with this body after what is to be sent.
    pub fn put(&mut self, body: &[u8])
        requires least { 3 ≤ length body.now }
        requires room { length body.now + 4 ≤ self.old.room }
        ensures unsent { self.new.unsent ≡ self.old.unsent ++ packet_of body.now }
        ensures room { self.new.room + length body.now + 4 ≡ self.old.room }
    {
        self.upto += write_packet(body, &mut self.octets[self.upto..]);
    }

    /// Sends octets by one transmit of all octets left.
    ///
    /// `NotYet` raises the link's `waits`, and `Failed` raises its `faults`; neither sends an octet. A link that
    /// shows its space returns `NotYet` exactly if its space is 0. The room stays: only `clear` makes it free
    /// again.
    pub fn flush<L: Link>(&mut self, line: &mut L) -> Sent
        requires { 0 < length self.old.unsent }
        ensures sent { self.old.unsent ≡ octets_sent result self.old.unsent ++ self.new.unsent }
        ensures room { self.new.room ≡ self.old.room }
        ensures wrote { (L.shows line.new).written
            ≡ append_known (L.shows line.old).written (octets_sent result self.old.unsent) }
        ensures some { (n : ℕ) → result ≡ Sent.Bytes n
            → (length (octets_sent result self.old.unsent) ≡ n)
            × (0 < length (octets_sent result self.old.unsent)) }
        ensures failed { result ≡ Sent.Failed → Rose (L.shows line.old).faults (L.shows line.new).faults }
        ensures not_yet { result ≡ Sent.NotYet → Rose (L.shows line.old).waits (L.shows line.new).waits }
        ensures no_space { IfSome (L.shows line.old).space (λ space. (result ≡ Sent.NotYet) ↔ (space ≡ 0)) }
        ensures fits { IfSome (L.shows line.old).space (λ space. length (octets_sent result self.old.unsent) ≤ space) }
        ensures space { (L.shows line.new).space
            ≡ option_map (λ space. space - length (octets_sent result self.old.unsent)) (L.shows line.old).space }
        ensures faults { (L.shows line.old).faults ≤ (L.shows line.new).faults }
        ensures waits { (L.shows line.old).waits ≤ (L.shows line.new).waits }

        // The link is called once.
        ensures faults_once { (L.shows line.new).faults ≤ (L.shows line.old).faults + 1 }
        ensures waits_once { (L.shows line.new).waits ≤ (L.shows line.old).waits + 1 }
        ensures failed_no_other { result ≢ Sent.Failed → (L.shows line.new).faults ≡ (L.shows line.old).faults }
        ensures waited_no_other { result ≢ Sent.NotYet → (L.shows line.new).waits ≡ (L.shows line.old).waits }

        // Nothing else of the link changes.
        ensures same { L.shows line.new ≡ record (L.shows line.old) {
          written = (L.shows line.new).written;
          faults = (L.shows line.new).faults;
          waits = (L.shows line.new).waits;
          space = (L.shows line.new).space;
        } }
    {
        let sent = line.transmit(self.as_slice());
        if let Sent::Bytes(count) = sent {
            self.advance(count);
        }
        sent
    }

    /// Drops the first `count` octets, which were sent.
    fn advance(&mut self, count: usize)
        requires { count ≤ length self.old.unsent }
        ensures unsent { self.new.unsent ≡ drop count self.old.unsent }
        ensures room { self.new.room ≡ self.old.room }
    {
        self.from += count;
    }
}
