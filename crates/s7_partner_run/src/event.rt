//! The news of partners.
use s7_outer::Octets;
use s7_partner::Role;

/// A piece of news that a partner reported.
#[derive(Debug, Drop)]
pub enum News {
    /// A block that the partner was given came whole to the other side, which acknowledged it.
    Sent,
    /// A block came whole from the other side.
    Received {
        /// The number that identifies the block for the two partners (R_ID).
        rid: u32,
        /// The octets of the block.
        body: Octets,
    },
    /// The partner closed, with the number of an error, one of `s7_client::codes`.
    Closed(u32),
}

/// News of one of two partners.
#[derive(Debug, Drop)]
pub struct PairEvent {
    /// Which of the two partners.
    pub role: Role,
    /// The news.
    pub news: News,
}
