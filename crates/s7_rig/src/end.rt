//! The end of a rig's run.
use crate::places::Places;
use s7_client::JobResult;
use s7_plant::{Book, Tail};

/// A client of a rig: the number of its link; the results of its finished jobs, in order; and, for each of these jobs,
/// the numbers of the entries that the link's session made while the job was under way. When a job that didn't time out
/// ends, all its telegrams have been answered.
#[derive(Drop)]
pub struct RigClient {
    /// The number of the client's link.
    pub link: u32,
    /// The results of the finished jobs, in order.
    pub results: Vec<JobResult>,
    /// For each result, the numbers of its entries.
    pub places: Vec<Places>,
}

/// The end of a run: the book, and the clients in the order of their links' numbers.
#[derive(Drop)]
pub struct RigEnd {
    /// The book, after all entries.
    pub book: Book<Tail>,
    /// The clients, in the order of their links' numbers.
    pub clients: Vec<RigClient>,
}
