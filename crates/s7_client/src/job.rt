//! The outcomes of starting and of polling a job.

use s7_dialogue::{Job, JobResult};

/// Why a job wasn't started.
#[derive(Clone, Copy, Debug, PartialEq, Eq)]
pub enum StartCause {
    /// Another job is outstanding.
    Pending,
    /// An allocation for the job failed.
    Memory,
}

/// A job that wasn't started, and the cause.
#[derive(Debug, Drop)]
pub struct StartFault {
    /// Why it wasn't started.
    pub cause: StartCause,
    /// The job, handed back.
    pub job: Job,
}

/// The outcome of a poll.
#[derive(Debug, Drop)]
pub enum Polled {
    /// The job is done.
    Done(JobResult),
    /// The link wasn't ready, and the job isn't done.
    Pending,
    /// No job is outstanding.
    Idle,
}
