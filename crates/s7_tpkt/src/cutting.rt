//! The cutter: it takes a stream in pieces and gives its packets one at a time.

ghost use Rattle.std.specs.Prelude.{◌≡◌, ◌≢◌, ℕ, ◌+◌, ◌<◌, ◌≤◌, List, [], ◌++◌, length, take, if◌then◌else◌};
ghost use Rattle.s7_tpkt.specs.Packets.{state_of, is_whole, IsPacket, body_of, HoldsRest, GoesOn, EndsPacket};
ghost use Rattle.s7_tpkt.specs.Front.{IsShownAt};

use crate::front::{HEADER, state_of, wanted};
use crate::state::{Fed, FedState};
use std::marker::Model;

/// The greatest number of octets that a cutter holds; also its first limit.
const MOST: usize = 8_199;

/// Cuts a stream of octets into the packets of RFC 1006, section 6. It holds the octets of one packet in an array
/// of its own, and never allocates.
#[derive(Drop)]
pub struct Cutter {
    /// The octets of the current packet, at the beginning.
    octets: [u8; MOST],
    /// The number of octets held.
    len: usize,
    /// The greatest length of a packet.
    limit: usize,
}

impl Model for Cutter {
    ghost use Rattle.std.specs.Prelude.{◌≡◌, ◌≤◌, ℕ, take};
    ghost use Rattle.s7_tpkt.specs.Cut.{Cut};

    ghost Value = { Cut };

    ghost use Rattle.s7_tpkt.specs.Packets.{state_of, IsPacket};
    ghost use Rattle.s7_tpkt.specs.declared.state.FedState.TheVariants.{Whole};

    ghost view = { λ c. record { held = take c.len c.octets; limit = c.limit } };

    ghost invariant = { λ c. (c.len ≤ 8199) × (7 ≤ c.limit) × (c.limit ≤ 8199) ×
        (state_of c.limit (take c.len c.octets) ≡ Whole → IsPacket c.limit (take c.len c.octets)) };
}

impl Cutter {
    /// A cutter that holds no octet, with the limit 8,199.
    pub fn new() -> Cutter
        ensures held { result.held ≡ [] }
        ensures limit { result.limit ≡ 8199 }
    {
        Cutter {
            octets: [0; MOST],
            len: 0,
            limit: MOST,
        }
    }

    /// Sets the limit: the greatest length of a packet, header included, for this packet and all later ones. The
    /// cutter holds no octet yet.
    pub fn set_limit(&mut self, limit: u16)
        requires least { 7 ≤ limit }
        requires most { limit ≤ 8199 }
        requires empty { self.old.held ≡ [] }
        ensures held { self.new.held ≡ [] }
        ensures limit { self.new.limit ≡ limit }
    {
        self.limit = usize::from(limit);
    }

    /// Takes octets from the piece until a packet is whole, a fault shows or the piece is used up.
    ///
    /// The state is `BadVersion` if a packet's first octet isn't 03, `BadLength` if its length field is below 7,
    /// and `TooLong` if its length field exceeds the limit. The octet that shows a fault is the last one taken.
    pub fn feed(&mut self, piece: &[u8]) -> Fed
        // No octet that was held or taken is lost, so it doesn't matter how a stream is cut into pieces.
        ensures taken { result.taken ≤ length piece.now }
        ensures held { self.new.held ≡ self.old.held ++ take result.taken piece.now }
        ensures limit { self.new.limit ≡ self.old.limit }
        ensures goes_on { (limits : List (List ℕ) → ℕ) (b : List ℕ) → HoldsRest limits b self.old
            → result.state ≢ FedState.Whole → GoesOn limits b (take result.taken piece.now) }
        ensures ends_packet { (limits : List (List ℕ) → ℕ) (b : List ℕ) → HoldsRest limits b self.old
            → result.state ≡ FedState.Whole
            → EndsPacket limits b (take result.taken piece.now) (body_of self.new.held) }

        // The state is that of the octets held. Octets are taken only while the state is `More`.
        ensures state { result.state ≡ state_of self.new.limit self.new.held }
        ensures whole { result.state ≡ FedState.Whole → IsPacket self.new.limit self.new.held }
        ensures used_up { result.state ≡ FedState.More → result.taken ≡ length piece.now }
        ensures earliest { (k : ℕ) → k < result.taken
            → state_of self.old.limit (self.old.held ++ take k piece.now) ≡ FedState.More }
        ensures shown { 0 < result.taken → IsShownAt result.state (length self.new.held) }

        // Once a packet is whole or a fault has shown, nothing is taken and nothing changes.
        ensures stays { state_of self.old.limit self.old.held ≢ FedState.More
            → (result.taken ≡ 0) × (result.state ≡ state_of self.old.limit self.old.held) × (self.new ≡ self.old) }
    {
        let mut taken = 0;
        while taken < piece.len() && self.state() == FedState::More {
            taken += self.fill(&piece[taken..]);
        }
        Fed {
            taken,
            state: self.state(),
        }
    }

    /// The body of the whole packet: what follows its four header octets.
    pub fn body(&self) -> &[u8]
        requires { state_of self.now.limit self.now.held ≡ FedState.Whole }
        ensures body { result.now ≡ body_of self.now.held }
        ensures least { 3 ≤ length result.now }
        ensures most { length result.now + 4 ≤ self.now.limit }
    {
        let held = &self.octets[..self.len];
        &held[HEADER..]
    }

    /// Drops the whole packet, so that the next one can begin.
    pub fn clear(&mut self)
        requires { state_of self.old.limit self.old.held ≡ FedState.Whole }
        ensures held { self.new.held ≡ [] }
        ensures limit { self.new.limit ≡ self.old.limit }
    {
        self.len = 0;
    }

    /// The number of octets held of a packet that isn't whole; 0 if a packet is whole.
    pub fn held(&self) -> usize
        ensures held { result ≡ (if is_whole (state_of self.now.limit self.now.held) then 0 else length self.now.held) }
        ensures most { result ≤ 8199 }
    {
        match self.state() {
            FedState::Whole => 0,
            _ => self.len,
        }
    }

    /// The state of the octets held.
    fn state(&self) -> FedState
        ensures state { result ≡ state_of self.now.limit self.now.held }
        ensures whole { result ≡ FedState.Whole → IsPacket self.now.limit self.now.held }
    {
        state_of(self.limit, &self.octets[..self.len])
    }

    /// Takes the octets up to the next point where a state may show, or the whole piece if it is shorter.
    fn fill(&mut self, piece: &[u8]) -> usize
        requires more { state_of self.old.limit self.old.held ≡ FedState.More }
        requires some { 0 < length piece.now }
        ensures some { 0 < result }
        ensures taken { result ≤ length piece.now }
        ensures held { self.new.held ≡ self.old.held ++ take result piece.now }
        ensures limit { self.new.limit ≡ self.old.limit }
        ensures earliest { (k : ℕ) → k < result
            → state_of self.old.limit (self.old.held ++ take k piece.now) ≡ FedState.More }
    {
        let taken = wanted(&self.octets[..self.len]).min(piece.len());
        let end = self.len + taken;
        self.octets[self.len..end].copy_from_slice(&piece[..taken]);
        self.len = end;
        taken
    }
}
