//! A job that has been started.
ghost use Rattle.std.specs.Prelude.{length, IsTrue};
ghost use Rattle.s7_dialogue.specs.Stages.{is_ready};

use crate::answers::codes_list::Codes;
use crate::grant::Leaves;
use crate::job::Job;
use crate::stages::asking::Asking;
use crate::stages::single::Single;

/// What a job waits for.
#[derive(Drop)]
pub enum Stage {
    /// The confirm of its connection request.
    Opening,
    /// Answers to its questions, of which several may be in flight.
    Asking(Asking),
    /// The answer to its one question.
    Single(Single),
    /// The transmission of its disconnect request.
    Leaving,
    /// Nothing: the job is over. `code` is 0 or its error number, and `leaves` is the state in which it leaves the
    /// client.
    Over { code: u32, leaves: Leaves },
}

/// A job that has been started, and what it has read so far.
#[derive(Drop)]
pub struct Running {
    /// The job as it was given.
    pub job: Job,
    /// What the job waits for.
    pub stage: Stage,
    /// The octets read so far, each at its offset. Octets that haven't come, and those of refused items, are 00.
    /// Octets of user data and of an upload are at its beginning.
    pub(crate) found: Vec<u8>,
    /// The return codes of several items, each at its item's index.
    pub(crate) codes: Codes,
    ghost ready: { IsTrue (is_ready job (length found.items) stage) },
}
