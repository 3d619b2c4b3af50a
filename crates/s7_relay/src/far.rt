//! The far side: a dial, the link that it gave last, and a client over that link.
ghost use Rattle.std.specs.Prelude.{◌≡◌, IfOk, IsSome, None, OnErr};
ghost use Rattle.s7_client.specs.Polling.{grant_of, job_of};

use crate::errors::is_failure;
use crate::far_job::fits_one;
use crate::passage::Passage;
use s7_client::codes::GOOD;
use s7_client::{Connection, Job, JobResult};
use s7_outer::{Dial, Dialled, Link, Memory, raise};
use std::alloc::Global;

/// A far server: the dial that calls it, where it is, and a client over the link that was dialled last.
#[derive(Drop)]
pub struct Far<K, M> {
    pub(crate) dial: K,
    /// The host of the server.
    pub(crate) host: String,
    pub(crate) port: u16,
    /// The link that was dialled last; `None` if none was dialled.
    pub(crate) link: Option<M>,
    pub(crate) client: Connection,
    /// The number of connects and jobs in which a link failed, held at 2^64 - 1.
    pub(crate) failures: u64,
    ghost idle: { job_of client ≡ None },
    ghost linked: { IsSome (grant_of client) → IsSome link },
}

/// What came of an attempt to reach the far server.
#[derive(Drop)]
pub(crate) enum Reach {
    /// The client is connected. The field has the result of the connect; `None` if the client was connected before.
    Connected(Option<JobResult>),
    /// The dial or the connect failed.
    Not(Passage),
}

impl<K: Dial<M> + Drop, M: Link + Drop> Far<K, M> {
    ghost use Rattle.s7_relay.specs.Acts.{GetsTo};
    ghost use Rattle.s7_relay.specs.Far.{Does, Lacks, far_model, server_of};
    ghost use Rattle.s7_relay.specs.Reaching.{HasReached, ReachesOrNot};

    /// Carries out a far job, in one telegram, and returns how far it got. If the client isn't connected, the server
    /// is dialled and the client connected first. A job that doesn't fit into one telegram isn't begun. Returns
    /// `Memory` if an allocation fails; the job wasn't begun then.
    pub(crate) fn ask(&mut self, alloc: Global, job: Job) -> Result<Passage, Memory>
        ensures gets { IfOk result (λ passage. GetsTo M.shows (server_of self.old) job
            (far_model K.shows M.shows self.old) (far_model K.shows M.shows self.new) passage) }
        ensures lacks { OnErr result (Lacks M.shows (server_of self.old)
            (far_model K.shows M.shows self.old) (far_model K.shows M.shows self.new)) }
        ensures server { server_of self.new ≡ server_of self.old }
    {
        let connect = match self.reach(alloc)? {
            Reach::Connected(connect) => connect,
            Reach::Not(passage) => return Ok(passage),
        };
        if !fits_one(&job, self.client.granted()) {
            return Ok(Passage::Unpacked { connect });
        }
        let told = self.carry_out(alloc, job)?;
        Ok(Passage::Asked { connect, job: told })
    }

    /// If the client isn't connected, dials the server and connects the client. Returns `Memory` if an allocation
    /// fails.
    fn reach(&mut self, alloc: Global) -> Result<Reach, Memory>
        ensures reaches { IfOk result (ReachesOrNot M.shows (server_of self.old)
            (far_model K.shows M.shows self.old) (far_model K.shows M.shows self.new)) }
        ensures lacks { OnErr result (Lacks M.shows (server_of self.old)
            (far_model K.shows M.shows self.old) (far_model K.shows M.shows self.new)) }
        ensures server { server_of self.new ≡ server_of self.old }
        ensures linked { IfOk result (λ r. HasReached r → IsSome self.new.link) }
    {
        if self.client.granted().is_some() {
            return Ok(Reach::Connected(None));
        }
        match self.dial.call(self.host.as_str(), self.port) {
            Dialled::Link(link) => self.link = Some(link),
            Dialled::Failed => return Ok(Reach::Not(Passage::Undialled)),
        }
        let connect = self.carry_out(alloc, Job::Connect)?;
        if connect.code == GOOD {
            Ok(Reach::Connected(Some(connect)))
        } else {
            Ok(Reach::Not(Passage::Unconnected { connect }))
        }
    }

    /// Carries out a job over the link, and shuts the link if the client isn't connected afterwards. Returns `Memory`
    /// if an allocation fails; the job wasn't begun then.
    fn carry_out(&mut self, alloc: Global, job: Job) -> Result<JobResult, Memory>
        requires linked { IsSome self.old.link }
        ensures does { IfOk result (λ told. Does (server_of self.old) job
            (far_model K.shows M.shows self.old) (far_model K.shows M.shows self.new) told) }
        ensures lacks { OnErr result (far_model K.shows M.shows self.new ≡ far_model K.shows M.shows self.old) }
        ensures server { server_of self.new ≡ server_of self.old }
        ensures linked { IsSome self.new.link }
    {
        let Some(link) = &mut self.link else {
            unreachable!()
        };
        let Ok(told) = self.client.carry_out(alloc, job, link) else {
            return Err(Memory);
        };
        if self.client.granted().is_none() {
            link.shutdown();
        }
        if is_failure(told.code) {
            raise(&mut self.failures);
        }
        Ok(told)
    }
}
