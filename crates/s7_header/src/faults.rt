//! Why octets are refused.

/// Why a message has no header.
#[derive(Clone, Copy, Debug, PartialEq, Eq)]
pub enum HeaderFault {
    /// The message has fewer than 10 octets, or is an acknowledgement of fewer than 12.
    Short,
    /// The first octet isn't 32.
    BadId,
    /// The second octet isn't 01, 02, 03 or 07.
    BadType,
    /// The lengths of header, parameters and data don't add up to the message.
    Lengths,
}

/// The parameters don't have the form.
#[derive(Clone, Copy, Debug, PartialEq, Eq)]
pub struct BadParams;

/// The requested PDU is below the least that is granted.
#[derive(Clone, Copy, Debug, PartialEq, Eq)]
pub struct TooSmall;
