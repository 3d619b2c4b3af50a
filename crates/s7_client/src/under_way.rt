//! A job that was started and isn't done yet.
ghost use Rattle.std.specs.Prelude.{◌≡◌, ◌<◌, is_none, IfSome};
ghost use Rattle.s7_dialogue.specs.Running.{IsEnding};
ghost use Rattle.s7_client.specs.Polling.{Waits, grant_after, closed_after};

use s7_dialogue::codes::TIMED_OUT;
use s7_dialogue::{Ending, Grant, Leaves, Running};
use s7_outer::Buffer;

/// A job with what it has read so far, and the number of its polls in which the link wasn't ready.
#[derive(Drop)]
pub(crate) struct UnderWay {
    /// The job, and what it has read so far.
    pub(crate) running: Running,
    /// The message that isn't an answer, if one came. It has room for 8,192 octets.
    pub(crate) carried: Buffer,
    /// The number of polls in which the link wasn't ready.
    pub(crate) waited: u32,
}

impl UnderWay {
    /// Counts a poll in which the link wasn't ready. If it is the last one allowed, the job times out, and its end
    /// is returned.
    pub(crate) fn wait(&mut self, polls: u32) -> Option<Ending>
        requires { self.old.waited < polls }
        ensures waits { Waits self.old self.new polls (is_none result) }
        ensures ended { IfSome result (IsEnding self.new.running) }
    {
        self.waited += 1;
        if self.waited < polls {
            return None;
        }
        self.running.fail(TIMED_OUT);
        self.running.ending()
    }
}

/// The grant after the end of a job.
pub(crate) fn grant_after(leaves: Leaves, granted: Option<Grant>) -> Option<Grant>
    ensures { result ≡ grant_after leaves granted }
{
    match leaves {
        Leaves::AsItWas => granted,
        Leaves::Connected(grant) => Some(grant),
        Leaves::Disconnected | Leaves::Closed => None,
    }
}

/// Whether the client is closed after the end of a job.
pub(crate) fn closed_after(leaves: Leaves, closed: bool) -> bool
    ensures { result ≡ closed_after leaves closed }
{
    match leaves {
        Leaves::AsItWas | Leaves::Disconnected => closed,
        Leaves::Connected(_) => false,
        Leaves::Closed => true,
    }
}
