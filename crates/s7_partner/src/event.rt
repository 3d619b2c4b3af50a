//! The outcomes of a partner's calls.
use s7_outer::Octets;

/// The outcome of a poll.
#[derive(Debug, Drop)]
pub enum PartnerEvent {
    /// The block that was being sent has arrived whole at the other side, which acknowledged it.
    Sent,
    /// A block has arrived whole.
    Received {
        /// The identifier by which the two partners know the block (R_ID).
        rid: u32,
        body: Octets,
    },
    /// The link wasn't ready, and a send or the opening is outstanding.
    Pending,
    /// The link wasn't ready, and nothing is outstanding.
    Idle,
    /// The link is closed, with an error number: one of `s7_client::codes`. It stays closed.
    Closed(u32),
}

/// Why a block isn't accepted for sending.
#[derive(Clone, Copy, Debug, PartialEq, Eq)]
pub enum SendFault {
    /// The partner is closed.
    Closed,
    /// Another block is being sent and isn't acknowledged yet.
    Busy,
    /// The block doesn't have 1 to 65,535 octets.
    Size,
}
