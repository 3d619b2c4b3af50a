//! The configuration of a client.
ghost use Rattle.std.specs.Prelude.{◌≡◌, ◌+◌, ◌*◌, ◌≤◌};

/// The usual calling TSAP.
const CALLING: u16 = 0x0100;

/// How a client connects and what it negotiates.
#[derive(Clone, Copy, Debug, PartialEq, Eq)]
pub struct Config {
    /// The calling TSAP.
    pub calling: u16,
    /// The called TSAP: the connection type in the high octet, and rack times 32 plus slot in the low octet.
    pub called: u16,
    /// The PDU to ask for, from 64 to 1,920 octets.
    pub pdu: u16,
    /// The number of parallel jobs to ask for, from 1 to 8: how many telegrams may be unanswered at a time.
    pub jobs: u16,
    /// A job times out after this many polls that found the link not ready; at least 1.
    pub polls: u32,
}

impl Config {
    /// The usual configuration for a controller in this rack (0 to 7) and slot (0 to 31), with a connection of this
    /// kind (1 PG, 2 OP, 3 basic): PDU 480, one telegram at a time, 50 polls.
    pub fn new(kind: u8, rack: u8, slot: u8) -> Config
        requires rack { rack ≤ 7 }
        requires slot { slot ≤ 31 }
        ensures { result
            ≡ record { calling = 0x0100; called = kind * 256 + rack * 32 + slot; pdu = 480; jobs = 1; polls = 50 } }
    {
        Config {
            calling: CALLING,
            called: u16::from(kind) * 256 + u16::from(rack) * 32 + u16::from(slot),
            pdu: 480,
            jobs: 1,
            polls: 50,
        }
    }
}
