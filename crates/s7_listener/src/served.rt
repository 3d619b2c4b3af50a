//! The result of serving a link.
use s7_session::Outcome;

/// A link that was served.
#[derive(Drop)]
pub struct Served<L> {
    /// The number of the link.
    pub link: u32,
    /// The link itself, which is shut down by now.
    pub line: L,
    /// Why the link ended.
    pub outcome: Outcome,
    /// How many of the link's telegrams were entered.
    pub entries: u64,
    /// The number of the newest of these entries, `None` if there is none.
    pub last: Option<u64>,
}
