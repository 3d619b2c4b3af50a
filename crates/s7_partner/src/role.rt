//! The roles of the two partners.

/// Which of two partners opens the link.
#[derive(Clone, Copy, Debug, PartialEq, Eq)]
pub enum Role {
    /// It sends the connection request and the negotiation.
    Active,
    /// It confirms the request and answers the negotiation.
    Passive,
}
