//! The error numbers with which a job ends, as in the Snap7 1.4 sources (`s7_isotcp.h`, `s7_micro_client.h`,
//! `snap7.h`).

/// The job succeeded.
pub const GOOD: u32 = 0;

/// The client isn't connected, or its connection request was answered by something other than a confirm.
pub const NOT_CONNECTED: u32 = 0x0001_0000;

/// The server ended the link before it gave the last outstanding answer, or before a job of its own that was
/// awaited.
pub const LINK_ENDED: u32 = 0x0002_0000;

/// A packet or a TPDU can't be read, or isn't allowed there.
pub const BAD_PACKET: u32 = 0x0003_0000;

/// A message has fewer than ten octets.
pub const SHORT_MESSAGE: u32 = 0x0006_0000;

/// A message has more than 64 fragments.
pub const TOO_MANY_FRAGMENTS: u32 = 0x0007_0000;

/// A packet or a message is too long.
pub const TOO_LONG: u32 = 0x0008_0000;

/// A transmit of the link failed.
pub const SEND_FAILED: u32 = 0x0009_0000;

/// A receive of the link failed.
pub const RECEIVE_FAILED: u32 = 0x000A_0000;

/// The negotiation was refused, or the PDU granted is below 64 or above the one asked for.
pub const NEGOTIATION_FAILED: u32 = 0x0010_0000;

/// The job has parameters that no telegram can have.
pub const INVALID_PARAMETERS: u32 = 0x0020_0000;

/// The job has more than twenty items.
pub const TOO_MANY_ITEMS: u32 = 0x0040_0000;

/// A word length is unknown.
pub const INVALID_WORD: u32 = 0x0050_0000;

/// A write of several parts was refused after its first part.
pub const PARTLY_WRITTEN: u32 = 0x0060_0000;

/// An item doesn't fit any telegram, or the server found a telegram too long.
pub const OVER_PDU: u32 = 0x0070_0000;

/// A message answers no outstanding telegram, and isn't a job of the server's that was awaited.
pub const INVALID_ANSWER: u32 = 0x0080_0000;

/// The item's range isn't inside the area.
pub const OUT_OF_RANGE: u32 = 0x0090_0000;

/// The word length doesn't fit the area.
pub const INVALID_TRANSPORT: u32 = 0x00A0_0000;

/// The data don't have the item's number of octets.
pub const SIZE_MISMATCH: u32 = 0x00B0_0000;

/// There is no such area or block.
pub const NOT_AVAILABLE: u32 = 0x00C0_0000;

/// The server doesn't accept a value.
pub const INVALID_VALUE: u32 = 0x00D0_0000;

/// The controller is running already.
pub const ALREADY_RUNS: u32 = 0x00F0_0000;

/// The controller is stopped already.
pub const ALREADY_STOPPED: u32 = 0x0130_0000;

/// The server doesn't have the function.
pub const NO_SUCH_FUNCTION: u32 = 0x0140_0000;

/// A password is needed.
pub const PASSWORD_NEEDED: u32 = 0x01D0_0000;

/// The password is wrong.
pub const WRONG_PASSWORD: u32 = 0x01E0_0000;

/// There is no password to set or to clear.
pub const NO_PASSWORD: u32 = 0x01F0_0000;

/// The job had too many polls that found the link not ready.
pub const TIMED_OUT: u32 = 0x0200_0000;

/// The server refused for a reason without a number of its own.
pub const REFUSED: u32 = 0x0230_0000;
