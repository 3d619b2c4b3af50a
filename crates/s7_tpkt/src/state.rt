//! What a cutter reports.

/// What the octets held by a cutter show.
#[derive(Clone, Copy, Debug, PartialEq, Eq)]
pub enum FedState {
    /// The octets are one whole packet.
    Whole,
    /// The octets may be the beginning of a packet.
    More,
    /// The first octet isn't the version 03.
    BadVersion,
    /// The length field is below 7.
    BadLength,
    /// The length field exceeds the limit.
    TooLong,
}

/// The outcome of one call of `Cutter::feed`.
#[derive(Clone, Copy, Debug, PartialEq, Eq)]
pub struct Fed {
    /// The number of octets taken from the piece.
    pub taken: usize,
    /// The state of all octets held.
    pub state: FedState,
}
