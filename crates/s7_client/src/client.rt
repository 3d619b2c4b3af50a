//! A client that reports each finished job to a completion.
ghost use Rattle.s7_client.specs.Polling.{IsFresh, IsStarted, IsPoll, granted_pdu, closed_of};
ghost use Rattle.s7_client.specs.Polling.{config_of, job_of};

use crate::completion::Completion;
use crate::connection::Connection;
use crate::job::{Polled, StartCause, StartFault};
use crate::op::tell;
use s7_dialogue::{Config, Job, JobResult};
use s7_outer::{Link, Memory};
use std::alloc::Global;
use std::mem;

/// The client's side of one link, with or without a completion. The completion is notified of each finished job
/// once, when `poll` or `carry_out` returns its result. The client isn't connected at first.
#[derive(Drop)]
pub struct Client<C> {
    connection: Connection,
    /// The completion, if there is one.
    done: Option<C>,
}

impl<C: Completion> Client<C> {
    ghost use Rattle.std.specs.Prelude.{◌≡◌, ◌≤◌, None, IsSome, IfOk, OnOk, IfErr, OnErr, option_map};
    ghost use Rattle.s7_header.specs.Negotiation.{most_pdu};
    ghost use Rattle.s7_client.specs.Completions.{connection_of, completion_of, told_by, told_of_result};
    ghost use Rattle.s7_client.specs.Runs.{between_of, JobRun};

    /// A client that isn't connected and has no job. The PDU of `config` is from 64 to 1,920, its jobs from 1 to 8,
    /// its polls at least 1. Returns `Memory` if the allocation of its buffers fails; the completion is dropped
    /// then.
    pub fn new(alloc: Global, config: Config, done: Option<C>) -> Result<Client<C>, Memory>
        requires least_pdu { 64 ≤ config.pdu }
        requires most_pdu { config.pdu ≤ most_pdu }
        requires least_jobs { 1 ≤ config.jobs }
        requires most_jobs { config.jobs ≤ 8 }
        requires polls { 1 ≤ config.polls }
        ensures fresh { IfOk result (λ client. IsFresh (connection_of client) config) }
        ensures done { IfOk result (λ client. completion_of client ≡ done) }
    {
        Ok(Client {
            connection: Connection::new(alloc, config)?,
            done,
        })
    }

    /// The PDU that was granted: the greatest length of a telegram in octets. `None` exactly while the client isn't
    /// connected.
    pub fn granted(&self) -> Option<u16>
        ensures { result ≡ granted_pdu (connection_of self.now) }
    {
        self.connection.granted()
    }

    /// Whether the client was closed by an error, and no connect was started since.
    pub fn closed(&self) -> bool
        ensures { result ≡ closed_of (connection_of self.now) }
    {
        self.connection.closed()
    }

    /// Replaces the completion, and hands out the one before, which gets no further notification. `None` removes
    /// it.
    pub fn set_completion(&mut self, done: Option<C>) -> Option<C>
        ensures out { result ≡ completion_of self.old }
        ensures done { completion_of self.new ≡ done }
        ensures connection { connection_of self.new ≡ connection_of self.old }
    {
        mem::replace(&mut self.done, done)
    }

    /// Starts a job, as `Connection::start` does. The completion isn't notified.
    pub fn start(&mut self, alloc: Global, job: Job) -> Result<(), StartFault>
        ensures started { OnOk result (IsStarted (connection_of self.old) (connection_of self.new) job) }
        ensures idle { OnOk result (job_of (connection_of self.old) ≡ None) }
        ensures pending { IsSome (job_of (connection_of self.old))
            → IfErr result (λ fault. fault.cause ≡ StartCause.Pending) }
        ensures only_pending { IfErr result (λ fault.
            fault.cause ≡ StartCause.Pending → IsSome (job_of (connection_of self.old))) }
        ensures handed_back { IfErr result (λ fault. fault.job ≡ job) }
        ensures unchanged { OnErr result (self.new ≡ self.old) }
        ensures untold { completion_of self.new ≡ completion_of self.old }
    {
        self.connection.start(alloc, job)
    }

    /// Goes on with the job, as `Connection::poll` does. If the job is done, the completion is notified of it,
    /// once; otherwise it isn't notified.
    pub fn poll<L: Link>(&mut self, link: &mut L) -> Polled
        ensures poll { IsPoll (connection_of self.old) (L.shows link.old)
            (connection_of self.new) (L.shows link.new) result }
        ensures told { option_map C.told (completion_of self.new)
            ≡ option_map (told_by result) (option_map C.told (completion_of self.old)) }
    {
        let polled = self.connection.poll(link);
        if let Polled::Done(told) = &polled {
            tell(&mut self.done, told);
        }
        polled
    }

    /// Starts a job and polls until it is done, as `Connection::carry_out` does. The completion is notified of the
    /// job, once, when it is done.
    pub fn carry_out<L: Link>(
        &mut self,
        alloc: Global,
        job: Job,
        link: &mut L,
    ) -> Result<JobResult, StartFault>
        requires idle { job_of (connection_of self.old) ≡ None }
        ensures run { IfOk result (λ told. JobRun (config_of (connection_of self.old))
            (between_of (connection_of self.old)) job (L.shows link.old) (L.shows link.new) told
            (between_of (connection_of self.new))) }
        ensures told { IfOk result (λ told. option_map C.told (completion_of self.new)
            ≡ option_map (λ t. told_of_result t told) (option_map C.told (completion_of self.old))) }
        ensures idle { job_of (connection_of self.new) ≡ None }
        ensures config { config_of (connection_of self.new) ≡ config_of (connection_of self.old) }
        ensures refused { OnErr result (L.shows link.new ≡ L.shows link.old) }
        ensures unchanged { OnErr result (self.new ≡ self.old) }
        ensures memory { IfErr result (λ fault. fault.cause ≡ StartCause.Memory) }
        ensures handed_back { IfErr result (λ fault. fault.job ≡ job) }
    {
        let told = self.connection.carry_out(alloc, job, link)?;
        tell(&mut self.done, &told);
        Ok(told)
    }
}
