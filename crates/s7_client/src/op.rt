//! The numbers of jobs, and the notification of a completion.
ghost use Rattle.std.specs.Prelude.{◌≡◌, option_map};
ghost use Rattle.s7_client.specs.Completions.{op_of, told_of_result};

use crate::completion::Completion;
use s7_dialogue::{Job, JobResult};

/// The number of a job: 1 for `Connect` to 25 for `Disconnect`, in the order of `Job`, except that `DbGet` and
/// `DbFill` come after `PasswordClear`, as 23 and 24.
pub fn op_of(job: &Job) -> u8
    ensures { result ≡ op_of job.now }
{
    match job {
        Job::Connect => 1,
        Job::ReadArea { .. } => 2,
        Job::WriteArea { .. } => 3,
        Job::ReadMany { .. } => 4,
        Job::WriteMany { .. } => 5,
        Job::List => 6,
        Job::ListOf { .. } => 7,
        Job::Info { .. } => 8,
        Job::Upload { .. } => 9,
        Job::Download { .. } => 10,
        Job::Delete { .. } => 11,
        Job::Szl { .. } => 12,
        Job::ClockRead => 13,
        Job::ClockSet { .. } => 14,
        Job::Start => 15,
        Job::ColdStart => 16,
        Job::Stop => 17,
        Job::Compress => 18,
        Job::CopyRam => 19,
        Job::Status => 20,
        Job::PasswordSet { .. } => 21,
        Job::PasswordClear => 22,
        Job::DbGet { .. } => 23,
        Job::DbFill { .. } => 24,
        Job::Disconnect => 25,
    }
}

/// Notifies the completion, if there is one, of a finished job.
pub fn tell<C: Completion>(done: &mut Option<C>, told: &JobResult)
    ensures { option_map C.told done.new ≡ option_map (λ t. told_of_result t told.now) (option_map C.told done.old) }
{
    match done {
        Some(done) => done.finished(op_of(&told.job), told.code),
        None => {}
    }
}
