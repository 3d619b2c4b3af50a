//! What the program leaves.
use s7_outer::Link;
use s7_relay::RelayDoer;
use s7_session::Outcome;

/// How the program ended, if the words are a command line.
#[derive(Clone, Copy, Debug, PartialEq, Eq)]
pub(crate) enum Ended {
    /// The report was printed.
    Done,
    /// The windows can't be read.
    Windows,
    /// The windows file failed.
    File,
    /// The output failed at the report.
    Output,
    /// An allocation failed.
    Memory,
}

/// What relaying leaves: how it ended, the near link, and the outcome and the doer if the session began.
#[derive(Drop)]
pub(crate) struct RunEnd<L: Link + Drop, K, M> {
    pub ended: Ended,
    pub line: L,
    pub outcome: Option<Outcome>,
    pub doer: Option<RelayDoer<K, M>>,
}

/// What the program leaves: the status and the near link, and how the link ended and the doer if the session began.
#[derive(Drop)]
pub struct RelayEnd<L: Link + Drop, K, M> {
    /// The exit status.
    pub status: u8,
    /// The near link. It was shut if the session began.
    pub line: L,
    /// How the near link ended; `None` if the session didn't begin.
    pub outcome: Option<Outcome>,
    /// The doer with the telegrams that it kept; `None` if the session didn't begin.
    pub doer: Option<RelayDoer<K, M>>,
}
