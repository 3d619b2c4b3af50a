//! Limits of packets and messages, for either side of a link.

/// The greatest number of octets of a message that is joined from fragments.
pub const MESSAGE_LIMIT: usize = 8_192;

/// The greatest length of a packet in octets before a TPDU size is agreed.
pub const FIRST_LIMIT: u16 = 8_199;

/// How many octets a packet may have beyond the TPDU size: four of its header, and three for senders that count
/// only user data in the TPDU size.
pub const HEADERS: u16 = 7;
