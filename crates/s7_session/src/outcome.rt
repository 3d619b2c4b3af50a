//! How a link ends, and what one turn does.
ghost use Rattle.std.specs.Prelude.{◌≡◌};
ghost use Rattle.s7_session.specs.Owed.{outcome_of, torn_or_ended};

use s7_wire::ReadFault;

/// How a link ended. `at` is the offset of the packet in question: the number of octets taken before it.
#[derive(Clone, Copy, Debug, PartialEq, Eq)]
pub enum Outcome {
    /// The client ended the link between two messages.
    Ended,
    /// The client ended the link within a packet or message, of which this number of octets came.
    Torn(usize),
    /// A packet has another version than 03, or a length below 7 (RFC 1006, section 6).
    BadFrame { at: u64 },
    /// A packet is longer than the TPDU size allows.
    FrameTooLong { at: u64 },
    /// The body of a packet is no TPDU of class 0 (ISO 8073, section 13).
    BadTpdu { at: u64 },
    /// The first TPDU isn't a connect request, or a later one is a connect request, a confirm or an error.
    Unexpected { at: u64 },
    /// A message has a 65th fragment.
    TooManyFragments { at: u64 },
    /// A fragment makes a message longer than 8,192 octets.
    TooLong { at: u64 },
    /// A message has fewer than ten octets, or doesn't begin with 32.
    NotS7 { at: u64 },
    /// The link failed to receive.
    ReadFault,
    /// The link failed to transmit.
    WriteFault,
    /// The session used 4,294,967,295 octets, the most that it takes from a link.
    Spent,
    /// An allocation failed for the session, or for a telegram, which wasn't accepted.
    Memory,
}

impl Outcome {
    /// The outcome of a link on which the packet at this offset can't be read.
    pub(crate) fn of_fault(fault: ReadFault, at: u64) -> Outcome
        ensures { result ≡ outcome_of fault at }
    {
        match fault {
            ReadFault::BadFrame => Outcome::BadFrame { at },
            ReadFault::FrameTooLong => Outcome::FrameTooLong { at },
            ReadFault::BadTpdu => Outcome::BadTpdu { at },
            ReadFault::Unexpected => Outcome::Unexpected { at },
            ReadFault::TooManyFragments => Outcome::TooManyFragments { at },
            ReadFault::TooLong => Outcome::TooLong { at },
        }
    }

    /// The outcome of a link that the client ended: between two messages, or within a packet or message of which this
    /// number of octets came.
    pub(crate) fn of_torn(torn: Option<usize>) -> Outcome
        ensures { result ≡ torn_or_ended torn }
    {
        match torn {
            None => Outcome::Ended,
            Some(octets) => Outcome::Torn(octets),
        }
    }
}

/// What one turn did.
#[derive(Clone, Copy, Debug, PartialEq, Eq)]
pub enum Turn {
    /// It moved octets on the link, or used octets that were read.
    Went,
    /// The link wasn't ready: it had nothing to give, or no room.
    NotYet,
    /// The link is closed, with this outcome, now and for all later turns.
    Closed(Outcome),
}
