//! Notifications of finished jobs.
ghost use Rattle.std.specs.Prelude.{◌≡◌};
ghost use Rattle.s7_client.specs.Completions.{Told, told_one};

/// Receives a notification of each finished job.
pub trait Completion: Drop {
    /// The number of notifications, which stays at 2^64 - 1, and the last one.
    ghost told: { Self → Told };

    /// A job is done: its number as in `op_of`, and the code of its result, which is 0 if it succeeded.
    fn finished(&mut self, op: u8, code: u32)
        ensures { told self.new ≡ told_one (told self.old) op code };
}

impl Completion for Box<dyn Completion> {
    ghost told = { λ b. (Completion-box b).told b.value };

    fn finished(&mut self, op: u8, code: u32) {
        (**self).finished(op, code);
    }
}
