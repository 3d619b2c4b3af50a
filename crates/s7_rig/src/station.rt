//! A client and the session that serves it.
ghost use Rattle.std.specs.Prelude.{◌≡◌, ◌+◌, ◌≤◌, None, length, vec_capacity, IsSome};
ghost use Rattle.s7_client.specs.Polling.{job_of};
ghost use Rattle.s7_rig.specs.Standing.{HasStood, room_for};

use crate::places::Places;
use s7_client::{Connection, Job, JobResult};
use s7_memory::Pipes;
use s7_session::Session;
use std::collections::VecDeque;

/// A client with its jobs, and the session that serves it, over two pipes.
#[derive(Drop)]
pub struct Station {
    pub(crate) link: u32,
    /// The jobs that weren't started yet.
    pub(crate) rest: VecDeque<Job>,
    /// Whether only the last of these jobs is left after a read of several items that failed.
    pub(crate) halts: bool,
    pub(crate) client: Connection,
    pub(crate) session: Session,
    pub(crate) pipes: Pipes,
    pub(crate) results: Vec<JobResult>,
    /// For each job that is done, the numbers of its entries.
    pub(crate) places: Vec<Places>,
    /// The numbers of the entries that the job under way has made so far; `None` if no job is under way.
    pub(crate) noted: Option<Places>,
    ghost idle: { noted ≡ None → job_of client ≡ None },
    ghost busy: { IsSome noted → IsSome (job_of client) },
    ghost results_fit: { length results.items + length rest.items + room_for noted ≤ vec_capacity results },
    ghost places_fit: { length places.items + length rest.items + room_for noted ≤ vec_capacity places },
    ghost stands: { ∥ HasStood session ∥₁ },
}
