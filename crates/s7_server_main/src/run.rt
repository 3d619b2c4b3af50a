//! What a command leaves.
use s7_listener::Served;
use s7_outer::Link;
use s7_plant::Book;

/// What serving leaves: the book with its observers, the links that were served in the order of their numbers, and
/// whether the door failed after the first link.
#[derive(Drop)]
pub struct Run<L: Link + Drop, O> {
    /// The book with its observers, after all entries.
    pub book: Book<O>,
    /// The links that were served, in the order of their numbers.
    pub links: Vec<Served<L>>,
    /// Whether the door failed after the first link.
    pub door_failed: bool,
}

/// How a command ended.
#[derive(Clone, Copy, Debug, PartialEq, Eq)]
pub(crate) enum Ended {
    /// The report was printed.
    Done,
    /// The areas can't be read.
    Areas,
    /// A file failed.
    File,
    /// The door can't listen, or failed before a link came.
    Door,
    /// The output failed at the report.
    Output,
    /// An allocation failed.
    Memory,
}

/// What a command leaves: how it ended, and either the run or the link that wasn't served.
#[derive(Drop)]
pub(crate) struct CommandEnd<L: Link + Drop, O> {
    pub ended: Ended,
    pub run: Option<Run<L, O>>,
    pub pipe: Option<L>,
}

/// What the program leaves: the status, the run if links were served, and the link on standard input and output if it
/// wasn't served.
#[derive(Drop)]
pub struct ServerEnd<L: Link + Drop, O> {
    /// The exit status.
    pub status: u8,
    /// What serving left, also if the door ended before a link came; `None` if no serving began.
    pub run: Option<Run<L, O>>,
    /// The link on standard input and output; `None` if it was served.
    pub pipe: Option<L>,
}
