//! The octets that were received and not used yet.
ghost use Rattle.std.specs.Prelude.{◌≡◌, ◌≢◌, ◌==◌, ◌↔◌, ℕ, ◌+◌, ◌<◌, ◌≤◌, [], length, drop, Some, IsTrue, IsSome};
ghost use Rattle.std.specs.Io.KnownBytes.{prepend_known, IsAtEnd};
ghost use Rattle.s7_outer.specs.Count.{Rose};
ghost use Rattle.s7_wire.specs.Bounds.{most_received};

use s7_outer::{Got, Link};
use std::marker::Model;

/// The greatest number of octets of one receive.
pub const PIECE: usize = 8_192;

/// The octets that were received and not used yet.
#[derive(Drop)]
pub struct Inbox {
    /// Octets that were used, then those not used yet.
    octets: [u8; PIECE],
    /// The offset of the first octet not used yet.
    from: usize,
    /// The offset after the last octet received.
    upto: usize,
}

impl Model for Inbox {
    ghost use Rattle.std.specs.Prelude.{◌≤◌, ℕ, List, take, drop};
    ghost use Rattle.s7_wire.specs.Bounds.{most_received};

    ghost Value = { List ℕ };

    ghost view = { λ i. drop i.from (take i.upto i.octets) };

    ghost invariant = { λ i. (i.from ≤ i.upto) × (i.upto ≤ most_received) };
}

impl Inbox {
    /// An inbox without octets.
    pub fn new() -> Inbox
        ensures { result ≡ [] }
    {
        Inbox {
            octets: [0; PIECE],
            from: 0,
            upto: 0,
        }
    }

    /// Whether every octet that was received is used.
    pub fn is_empty(&self) -> bool
        ensures { result ≡ (length self.now == 0) }
    {
        self.from == self.upto
    }

    /// The octets that were received and not used yet, at most 8,192.
    pub fn as_slice(&self) -> &[u8]
        ensures octets { result.now ≡ self.now }
        ensures fits { length self.now ≤ most_received }
    {
        let read = &self.octets[..self.upto];
        &read[self.from..]
    }

    /// Uses up the first `count` octets.
    pub fn advance(&mut self, count: usize)
        requires { count ≤ length self.old }
        ensures { self.new ≡ drop count self.old }
    {
        self.from += count;
    }

    /// Receives at most `most` octets by one receive. The inbox is empty before the call.
    ///
    /// Afterwards it holds exactly the octets of `Bytes`. `End` is returned only if the link has ended. `NotYet`
    /// raises the link's `waits`, and `Failed` raises its `faults`. A link that shows its space returns `NotYet`
    /// exactly if no octet is left on it.
    pub fn refill<L: Link>(&mut self, line: &mut L, most: usize) -> Got
        requires empty { self.old ≡ [] }
        requires some { 0 < most }
        ensures took { (L.shows line.old).left ≡ prepend_known self.new (L.shows line.new).left }
        ensures some { (n : ℕ) → result ≡ Got.Bytes n
            → (length self.new ≡ n) × (0 < length self.new) × (length self.new ≤ most) }
        ensures end { result ≡ Got.End
            → (self.new ≡ []) × IsAtEnd (L.shows line.new).left × IsTrue (L.shows line.new).has_ended }
        ensures ended { IsTrue (L.shows line.old).has_ended → (self.new ≡ []) × IsTrue (L.shows line.new).has_ended }
        ensures stays_open { result ≢ Got.End → (L.shows line.new).has_ended ≡ (L.shows line.old).has_ended }
        ensures failed { result ≡ Got.Failed
            → (self.new ≡ []) × Rose (L.shows line.old).faults (L.shows line.new).faults }
        ensures not_yet { result ≡ Got.NotYet
            → (self.new ≡ []) × Rose (L.shows line.old).waits (L.shows line.new).waits }
        ensures nothing_left { IsSome (L.shows line.old).space
            → (result ≡ Got.NotYet) ↔ ((L.shows line.old).left ≡ Some []) }
        ensures faults { (L.shows line.old).faults ≤ (L.shows line.new).faults }
        ensures waits { (L.shows line.old).waits ≤ (L.shows line.new).waits }

        // The link is called once.
        ensures faults_once { (L.shows line.new).faults ≤ (L.shows line.old).faults + 1 }
        ensures waits_once { (L.shows line.new).waits ≤ (L.shows line.old).waits + 1 }
        ensures failed_no_other { result ≢ Got.Failed → (L.shows line.new).faults ≡ (L.shows line.old).faults }
        ensures waited_no_other { result ≢ Got.NotYet → (L.shows line.new).waits ≡ (L.shows line.old).waits }

        // Nothing else of the link changes.
        ensures same { L.shows line.new ≡ record (L.shows line.old) {
          left = (L.shows line.new).left;
          has_ended = (L.shows line.new).has_ended;
          faults = (L.shows line.new).faults;
          waits = (L.shows line.new).waits;
        } }
    {
        let room = most.min(PIECE);
        let got = line.receive(&mut self.octets[..room]);
        self.from = 0;
        self.upto = match got {
            Got::Bytes(count) => count,
            Got::End | Got::NotYet | Got::Failed => 0,
        };
        got
    }
}
