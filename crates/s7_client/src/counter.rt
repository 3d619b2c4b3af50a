//! A completion that counts.
ghost use Rattle.std.specs.Prelude.{◌≡◌, None};
ghost use Rattle.s7_client.specs.Completions.{told_one};

use crate::completion::Completion;
use std::marker::Model;

/// Counts notifications of finished jobs, up to 2^64 - 1, and keeps the number and the code of the last one.
/// Contracts see both.
#[derive(Clone, Copy, Debug, PartialEq, Eq)]
pub struct Counter {
    /// The number of notifications.
    calls: u64,
    /// The number and the code of the last job.
    last: Option<(u8, u32)>,
}

impl Model for Counter {
    ghost use Rattle.s7_client.specs.Completions.{Told};

    ghost Value = { Told };

    ghost view = { λ c. record { calls = c.calls; last = c.last } };

    ghost inverse = { λ t. record { calls = t.calls; last = t.last } };
}

impl Counter {
    /// A counter without notifications.
    pub fn new() -> Counter
        ensures { result ≡ record { calls = 0; last = None } }
    {
        Counter {
            calls: 0,
            last: None,
        }
    }

    /// The number of notifications.
    pub fn calls(&self) -> u64
        ensures { result ≡ self.now.calls }
    {
        self.calls
    }

    /// The number of the last job and the code of its result, if there was a notification.
    pub fn last(&self) -> Option<(u8, u32)>
        ensures { result ≡ self.now.last }
    {
        self.last
    }
}

impl Completion for Counter {
    ghost told = { λ c. c };

    fn finished(&mut self, op: u8, code: u32)
        ensures { self.new ≡ told_one self.old op code }
    {
        self.calls = self.calls.saturating_add(1);
        self.last = Some((op, code));
    }
}
