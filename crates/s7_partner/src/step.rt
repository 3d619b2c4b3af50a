//! The outcome of a step of a poll.

/// The outcome of one step.
#[derive(Clone, Copy, Debug, PartialEq, Eq)]
pub(crate) enum Step {
    /// The step moved octets or used some; a block may be whole now.
    Went,
    /// The link wasn't ready.
    NotYet,
    /// The last fragment of the block that was being sent was acknowledged.
    Sent,
    /// The partner is closed, with this error number.
    Closed(u32),
}
