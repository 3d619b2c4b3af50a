//! The reader of a link's octets.
ghost use Rattle.std.specs.Prelude.{◌≡◌, None};
ghost use Rattle.s7_tpkt.specs.Packets.{state_of};
ghost use Rattle.s7_tpkt.specs.declared.state.FedState.TheVariants.{More};

use crate::found::{Found, Opening, ReadFault, Taken};
use crate::transport::Transport;
use s7_outer::Memory;
use s7_tpkt::{Cutter, FedState};
use std::alloc::Global;

/// Reads the octets of one link, in pieces of any size. It reads packets (RFC 1006, section 6), TPDUs of class 0
/// (ISO 8073, section 13), and the messages that data TPDUs carry in fragments.
///
/// The first TPDU opens the link. Before it a packet has at most 8,199 octets, and after it at most 7 more than the
/// TPDU size. A message has at most 64 fragments and 8,192 octets. All buffers are allocated when the reader is
/// made.
#[derive(Drop)]
pub struct Reader {
    cutter: Cutter,
    transport: Transport,
    ghost more: { transport.ended ≡ None → state_of cutter.limit cutter.held ≡ More },
}

impl Reader {
    ghost use Rattle.std.specs.Prelude.{◌≡◌, ◌≢◌, ℕ, ◌<◌, ◌≤◌, List, [], ◌++◌, length, take, IfOk, None, Some};
    ghost use Rattle.std.specs.Option.{ForSome};
    ghost use Rattle.s7_wire.specs.declared.found.Ended.{Ended};
    ghost use Rattle.s7_tpkt.specs.Packets.{rest_of};
    ghost use Rattle.s7_cotp.specs.declared.tpdu.Connection.{Connection};
    ghost use Rattle.s7_cotp.specs.Told.{CanBeWritten, IsPaddedConnection};
    ghost use Rattle.s7_wire.specs.Reading.{torn_of, reading, limits, open_packet};
    ghost use Rattle.s7_wire.specs.Reads.{HasRead, HasFound, HasMessage, message_at, opens_by};
    ghost use Rattle.s7_wire.specs.Reads.{ended_with, size_at, place_at, held_by, limit_at, found_by};

    /// A reader that has read no octet. Returns `Memory` if the allocation of its buffers fails.
    pub fn new(alloc: Global, opening: Opening) -> Result<Reader, Memory>
        ensures read { IfOk result (λ r. HasRead r []) }
        ensures opening { IfOk result (λ r. opens_by r ≡ opening) }
        ensures going { IfOk result (λ r. ended_with r ≡ None) }
        ensures place { IfOk result (λ r. place_at r ≡ 0) }
    {
        Ok(Reader {
            cutter: Cutter::new(),
            transport: Transport::new(alloc, opening)?,
        })
    }

    /// Begins anew, as a reader that has read no octet. The buffers stay, and nothing is allocated.
    pub fn restart(&mut self)
        ensures read { HasRead self.new [] }
        ensures opening { opens_by self.new ≡ opens_by self.old }
        ensures going { ended_with self.new ≡ None }
        ensures place { place_at self.new ≡ 0 }
    {
        self.cutter = Cutter::new();
        self.transport.restart();
    }

    /// Takes octets up to the end of one packet or of the piece, and returns what they have ended.
    ///
    /// `Message` is returned for the packet that ends a message; `message` then gives it. `Disconnected` and
    /// `Fault` end the link: from then on no octet is taken, and each call returns the same.
    pub fn read(&mut self, piece: &[u8]) -> Taken
        ensures taken { result.octets ≤ length piece.now }
        ensures opening { opens_by self.new ≡ opens_by self.old }

        // Whatever octets were read before, these are read after them.
        ensures found { (b : List ℕ) → HasRead self.old b
            → HasFound self.new b (take result.octets piece.now) result.found }
        ensures message { result.found ≡ Found.Message → HasMessage self.new }
        ensures writable { (c : Connection) → result.found ≡ Found.Opened c → CanBeWritten c }
        ensures padded { (c : Connection) → result.found ≡ Found.Opened c → IsPaddedConnection c }

        // Octets are taken until the link has ended, and are left over only at the end of a packet.
        ensures some { ended_with self.old ≡ None → 0 < length piece.now → 0 < result.octets }
        ensures left_over { result.found ≡ Found.More → result.octets < length piece.now
            → held_by self.new ≡ [] }

        // Only the last octet taken ends a packet or shows a fault.
        ensures earliest { (k : ℕ) → k < result.octets
            → state_of (limit_at self.old) (held_by self.old ++ take k piece.now) ≡ FedState.More }
        ensures ended { (end : Ended) → ended_with self.old ≡ Some end
            → (result ≡ record { octets = 0; found = found_by end }) × (self.new ≡ self.old) }
    {
        if let Some(ended) = self.transport.ended {
            return Taken {
                octets: 0,
                found: ended.found(),
            };
        }
        let fed = self.cutter.feed(piece);
        let found = match fed.state {
            FedState::More => Found::More,
            FedState::Whole => {
                let found = self.transport.packet(self.cutter.body());
                self.cutter.clear();
                self.cutter.set_limit(self.transport.limit());
                found
            }
            FedState::BadVersion | FedState::BadLength => self.transport.fault(ReadFault::BadFrame),
            FedState::TooLong => self.transport.fault(ReadFault::FrameTooLong),
        };
        Taken {
            octets: fed.taken,
            found,
        }
    }

    /// The message that was found last. It stays until the next call of `read`.
    pub fn message(&self) -> &[u8]
        requires { HasMessage self.now }
        ensures { result.now ≡ message_at self.now }
    {
        self.transport.joiner.message()
    }

    /// The number of octets before the packet that ended what was found last; after `Message` that is the packet of
    /// its last fragment. 0 if nothing was read; after `More` it has no meaning.
    pub fn place(&self) -> u64
        ensures { result ≡ place_at self.now }
    {
        self.transport.place
    }

    /// The TPDU size in octets, from 128 to 8,192; `None` before the opening.
    pub fn size(&self) -> Option<u16>
        ensures size { result ≡ size_at self.now }
        ensures least { ForSome result (λ n. 128 ≤ n) }
        ensures most { ForSome result (λ n. n ≤ 8192) }
    {
        self.transport.size
    }

    /// The number of octets of a packet and a message that aren't whole, or `None` if there is neither. A message
    /// with only empty fragments counts too. Once the link has ended only the message counts.
    pub fn torn(&self) -> Option<usize>
        ensures { (b : List ℕ) → HasRead self.now b → result ≡ torn_of (opens_by self.now) b }
    {
        self.transport.torn(self.held())
    }

    /// The number of octets of a packet that isn't whole; 0 once the link has ended.
    fn held(&self) -> usize
        ensures held { (b : List ℕ) → HasRead self.now b
            → result ≡ length (open_packet (reading (opens_by self.now) b).ending
            (rest_of (limits (opens_by self.now)) b)) }
        ensures most { result ≤ 8199 }
    {
        match self.transport.ended {
            None => self.cutter.held(),
            Some(_) => 0,
        }
    }
}
