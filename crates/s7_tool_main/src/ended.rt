//! What a command leaves.
use s7_client::JobResult;
use s7_outer::Link;
use s7_rig::RigEnd;

/// How a command ended.
#[derive(Clone, Copy, Debug, PartialEq, Eq)]
pub enum Ended {
    /// Everything was done, and all went well.
    Done,
    /// The tags, a script, a sends file or the areas can't be read.
    Refused,
    /// A file failed.
    File,
    /// The dial failed.
    Dial,
    /// The output failed.
    Output,
    /// Everything was done, and a result's code isn't 0, a client of a rig isn't finished, or a block of a partner
    /// wasn't acknowledged.
    Jobs,
    /// An allocation failed.
    Memory,
}

/// A script that was run: the link as the run left it, and the results in order.
#[derive(Drop)]
pub struct RunEnd<L: Link + Drop> {
    /// The link as the run left it.
    pub line: L,
    /// The results of the jobs that were done, in order.
    pub results: Vec<JobResult>,
}

/// What the program leaves: the status, the rig if one ran, the run if a link was dialled, and the completion that was
/// handed in.
#[derive(Drop)]
pub struct ToolEnd<L: Link + Drop, C> {
    /// The exit status.
    pub status: u8,
    /// What a rig left; `None` if none ran to its end.
    pub rig: Option<RigEnd>,
    /// What a run left; `None` if no link was dialled.
    pub run: Option<RunEnd<L>>,
    /// The completion that was handed in.
    pub done: Option<C>,
}
