//! TPDUs and their fields.

/// A transport selector (TSAP ID) of 1 to 16 octets, or none.
#[derive(Clone, Copy, Debug, PartialEq, Eq)]
pub struct Tsap {
    /// The first `len` octets are the TSAP. If the TSAP was read, the others are 00.
    pub octets: [u8; 16],
    /// The number of octets of the TSAP, from 1 to 16; 0 if it is absent.
    pub len: u8,
}

/// The fields of a connection request or confirm (ISO 8073, 13.3 and 13.4).
#[derive(Clone, Copy, Debug, PartialEq, Eq)]
pub struct Connection {
    /// The destination reference.
    pub dst_ref: u16,
    /// The source reference.
    pub src_ref: u16,
    /// The octet of the class and the options.
    pub class: u8,
    /// The TPDU size as a power of two, from 07 (128 octets) to 0D (8,192 octets). The size includes the header.
    pub size_code: u8,
    /// The TSAP of the calling side.
    pub calling: Tsap,
    /// The TSAP of the called side.
    pub called: Tsap,
}

/// A TPDU.
#[derive(Clone, Copy, Debug, PartialEq, Eq)]
pub enum Tpdu<'a> {
    /// CR, a connection request.
    Connect(Connection),
    /// CC, a connection confirm.
    Confirm(Connection),
    /// DT, a fragment of a message.
    Fragment {
        /// The end bit: this is the last fragment of its message.
        last: bool,
        /// The user data.
        user: &'a [u8],
    },
    /// DR, a disconnect request.
    Disconnect {
        /// The reason of the disconnect.
        reason: u8,
    },
    /// ER, an error.
    Reject {
        /// The cause of the error.
        cause: u8,
    },
}

/// Why octets aren't a TPDU; the first fault in this order is reported.
#[derive(Clone, Copy, Debug, PartialEq, Eq)]
pub enum CotpFault {
    /// There are fewer than two octets, or the code isn't that of a CR, CC, DT, DR or ER.
    BadCode,
    /// The length octet exceeds the octets present, or isn't one that the code allows.
    ShortHeader,
    /// A parameter of a CR or CC exceeds the header, or has a value that its code doesn't allow.
    BadParameter,
}
