//! What a server granted, and how a job ends.

/// What a server granted in the negotiation.
#[derive(Clone, Copy, Debug, PartialEq, Eq)]
pub struct Grant {
    /// The greatest length of a telegram, in octets.
    pub pdu: u16,
    /// The number of parallel jobs: how many telegrams may be unanswered at a time.
    pub jobs: u16,
}

/// The state in which the end of a job leaves the client.
#[derive(Clone, Copy, Debug, PartialEq, Eq)]
pub enum Leaves {
    /// As it was before the job.
    AsItWas,
    /// Connected, with this grant.
    Connected(Grant),
    /// Not connected.
    Disconnected,
    /// Closed until the next connect.
    Closed,
}

/// How a job ends.
#[derive(Clone, Copy, Debug, PartialEq, Eq)]
pub struct Ending {
    /// 0, or an error number: one of the constants of the module `codes`.
    pub code: u32,
    /// The state in which the client is left.
    pub leaves: Leaves,
}
