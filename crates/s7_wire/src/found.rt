//! What a reader finds in the octets of a link.
use s7_cotp::{Connection, Tpdu};

/// Which TPDU opens the link (ISO 8073, 13.3 and 13.4).
#[derive(Clone, Copy, Debug, PartialEq, Eq)]
pub enum Opening {
    /// A connection request: this side is called.
    Request,
    /// A connection confirm: this side calls.
    Confirm,
}

impl Opening {
    ghost use Rattle.std.specs.Prelude.{◌≡◌, option_map, IfSome};
    ghost use Rattle.s7_cotp.specs.Told.{told_of, connection_of, CanBeWritten, CanBeWrittenAgain};
    ghost use Rattle.s7_cotp.specs.Told.{IsPaddedConnection, IsPaddedTpdu};
    ghost use Rattle.s7_wire.specs.Reading.{opening_of};

    /// The connection of the TPDU, if this TPDU opens the link; else `None`.
    pub(crate) fn connection(self, tpdu: &Tpdu<'_>) -> Option<Connection>
        requires writable { CanBeWrittenAgain tpdu.now }
        requires padded { IsPaddedTpdu tpdu.now }
        ensures connection { option_map connection_of result ≡ opening_of self (told_of tpdu.now) }
        ensures writable { IfSome result CanBeWritten }
        ensures padded { IfSome result IsPaddedConnection }
    {
        match (self, tpdu) {
            (Opening::Request, Tpdu::Connect(connection)) => Some(*connection),
            (Opening::Confirm, Tpdu::Confirm(connection)) => Some(*connection),
            _ => None,
        }
    }
}

/// Why a packet was refused.
#[derive(Clone, Copy, Debug, PartialEq, Eq)]
pub enum ReadFault {
    /// Its version isn't 03, or its length is below 7 (RFC 1006, section 6).
    BadFrame,
    /// Its length exceeds the limit: the TPDU size plus 7, or 8,199 before the opening.
    FrameTooLong,
    /// Its body isn't a TPDU of class 0 (ISO 8073, section 13).
    BadTpdu,
    /// Its TPDU isn't allowed here: before the opening, any TPDU but the one that opens; after it, a CR, a CC or an
    /// error (ER).
    Unexpected,
    /// It has the 65th fragment of a message.
    TooManyFragments,
    /// With its fragment the message has more than 8,192 octets.
    TooLong,
}

/// What the octets taken have ended.
#[derive(Clone, Copy, Debug, PartialEq, Eq)]
pub enum Found {
    /// Nothing is complete yet: a packet is open, or the packet that ended carried a fragment that isn't its
    /// message's last.
    More,
    /// The link was opened.
    Opened(Connection),
    /// A message is whole.
    Message,
    /// The other side has disconnected (ISO 8073, 13.5). Nothing is read from now on.
    Disconnected,
    /// A packet was refused. Nothing is read from now on.
    Fault(ReadFault),
}

/// The outcome of one call of `Reader::read`.
#[derive(Clone, Copy, Debug, PartialEq, Eq)]
pub struct Taken {
    /// The number of octets taken from the piece.
    pub octets: usize,
    /// What these octets have ended.
    pub found: Found,
}

/// Why nothing more is read.
#[derive(Clone, Copy, Debug, PartialEq, Eq)]
pub(crate) enum Ended {
    /// The other side has disconnected.
    Disconnected,
    /// A packet was refused.
    Faulted(ReadFault),
}

impl Ended {
    ghost use Rattle.std.specs.Prelude.{◌≡◌};
    ghost use Rattle.s7_wire.specs.Reads.{found_by};

    /// What every later call finds.
    pub(crate) fn found(self) -> Found
        ensures { result ≡ found_by self }
    {
        match self {
            Ended::Disconnected => Found::Disconnected,
            Ended::Faulted(fault) => Found::Fault(fault),
        }
    }
}
