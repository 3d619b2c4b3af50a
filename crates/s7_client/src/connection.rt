//! A connection: it starts jobs, polls them, and carries them out whole.
ghost use Rattle.std.specs.Prelude.{◌≡◌, ◌<◌, ◌≤◌, [], true, false, None, Some, IsSome, IfOk, OnOk, IfErr, OnErr};
ghost use Rattle.std.specs.Option.{ForSome};
ghost use Rattle.s7_header.specs.Negotiation.{most_pdu};
ghost use Rattle.s7_dialogue.specs.Course.{begins_anew, for_nothing};
ghost use Rattle.s7_dialogue.specs.Dialogue.{End};
ghost use Rattle.s7_dialogue.specs.Running.{awaited_in, Begins, IsResult};
ghost use Rattle.s7_dialogue.specs.Stages.{IsGrant};
ghost use Rattle.s7_client.specs.At.{LeavesLink};
ghost use Rattle.s7_client.specs.Standing.{Fits, IsBetween, unsent};

use crate::channel::Channel;
use crate::job::{Polled, StartCause, StartFault};
use crate::under_way::{UnderWay, closed_after, grant_after};
use s7_dialogue::{Config, Grant, Job, JobResult, Leaves, Running};
use s7_outer::{Buffer, Link, Memory, Octets};
use s7_wire::{MESSAGE_LIMIT, Outbox};
use std::alloc::Global;

/// The client's side of one link, without a completion. Jobs are started one at a time, and polled over the link
/// until they are done. The client isn't connected at first.
#[derive(Drop)]
pub struct Connection {
    pub(crate) config: Config,
    /// What the server granted; `None` on a client that isn't connected.
    pub(crate) granted: Option<Grant>,
    /// Whether an error closed the client, and no connect was started since.
    pub(crate) is_closed: bool,
    /// The client's side of the link.
    pub(crate) channel: Channel,
    /// The job that is outstanding, if there is one.
    pub(crate) job: Option<UnderWay>,
    ghost fits: { ForSome job (λ u. Fits channel u) },
    ghost waits: { ForSome job (λ u. u.waited < config.polls) },
    ghost grants: { ForSome granted IsGrant },
    ghost between: { job ≡ None → IsSome granted → IsBetween channel },
    ghost quiet: { job ≡ None → unsent channel ≡ [] },
    ghost most_pdu: { config.pdu ≤ most_pdu },
    ghost most_jobs: { config.jobs ≤ 8 },
    ghost least_polls: { 1 ≤ config.polls },
}

impl Connection {
    ghost use Rattle.s7_client.specs.Polling.{IsFresh, IsStarted, IsPoll, IsNew, IsBlank};
    ghost use Rattle.s7_client.specs.Polling.{job_of, config_of, waited_of, granted_pdu, closed_of};
    ghost use Rattle.s7_client.specs.Runs.{between_of, JobRun, Completes};

    /// A client that isn't connected and has no job. The PDU of `config` is from 64 to 1,920, its jobs from 1 to 8,
    /// its polls at least 1. Returns `Memory` if the allocation of its buffers fails.
    pub fn new(alloc: Global, config: Config) -> Result<Connection, Memory>
        requires least_pdu { 64 ≤ config.pdu }
        requires most_pdu { config.pdu ≤ most_pdu }
        requires least_jobs { 1 ≤ config.jobs }
        requires most_jobs { config.jobs ≤ 8 }
        requires polls { 1 ≤ config.polls }
        ensures { IfOk result (λ client. IsFresh client config) }
    {
        Ok(Connection {
            config,
            granted: None,
            is_closed: false,
            channel: Channel::new(alloc)?,
            job: None,
        })
    }

    /// The PDU that was granted: the greatest length of a telegram in octets. `None` exactly while the client isn't
    /// connected.
    pub fn granted(&self) -> Option<u16>
        ensures { result ≡ granted_pdu self.now }
    {
        match self.granted {
            Some(grant) => Some(grant.pdu),
            None => None,
        }
    }

    /// Whether the client was closed by an error, and no connect was started since.
    pub fn closed(&self) -> bool
        ensures { result ≡ closed_of self.now }
    {
        self.is_closed
    }

    /// Starts a job and polls until it is done. The job times out once the link wasn't ready in as many polls as
    /// the configuration allows. No job is outstanding before the call. The code of the result is 0 or the number
    /// of an error. Returns `Memory` if an allocation for the job fails; the job is handed back then, and the client
    /// and the link are as before.
    pub fn carry_out<L: Link>(
        &mut self,
        alloc: Global,
        job: Job,
        link: &mut L,
    ) -> Result<JobResult, StartFault>
        requires idle { job_of self.old ≡ None }
        ensures run { IfOk result (λ told. JobRun (config_of self.old) (between_of self.old) job
            (L.shows link.old) (L.shows link.new) told (between_of self.new)) }
        ensures idle { job_of self.new ≡ None }
        ensures config { config_of self.new ≡ config_of self.old }
        ensures refused { OnErr result (L.shows link.new ≡ L.shows link.old) }
        ensures unchanged { OnErr result (self.new ≡ self.old) }
        ensures memory { IfErr result (λ fault. fault.cause ≡ StartCause.Memory) }
        ensures handed_back { IfErr result (λ fault. fault.job ≡ job) }
    {
        match self.start(alloc, job) {
            Ok(()) => Ok(self.complete(link)),
            Err(fault) => Err(fault),
        }
    }

    /// Polls until the job is done.
    fn complete<L: Link>(&mut self, link: &mut L) -> JobResult
        requires { waited_of self.old ≡ Some 0 }
        ensures { Completes self.old (L.shows link.old) self.new (L.shows link.new) result }
    {
        loop {
            if let Polled::Done(result) = self.poll(link) {
                return result;
            }
        }
    }

    /// Starts a job. All memory of the job is allocated here. Returns `Pending` exactly if another job is
    /// outstanding, and `Memory` if an allocation for the job fails. Both hand the job back and change nothing.
    pub fn start(&mut self, alloc: Global, job: Job) -> Result<(), StartFault>
        ensures started { OnOk result (IsStarted self.old self.new job) }
        ensures idle { OnOk result (job_of self.old ≡ None) }
        ensures pending { IsSome (job_of self.old) → IfErr result (λ fault. fault.cause ≡ StartCause.Pending) }
        ensures only_pending { IfErr result (λ fault. fault.cause ≡ StartCause.Pending → IsSome (job_of self.old)) }
        ensures handed_back { IfErr result (λ fault. fault.job ≡ job) }
        ensures unchanged { OnErr result (self.new ≡ self.old) }
    {
        if self.job.is_some() {
            return Err(StartFault {
                cause: StartCause::Pending,
                job,
            });
        }
        let anew = begins_anew(self.granted, &job);
        let running = match Running::begin(alloc, self.granted, job) {
            Ok(running) => running,
            Err(job) => return Err(wants_memory(job)),
        };
        let Ok(carried) = Buffer::new(alloc, MESSAGE_LIMIT) else {
            return Err(wants_memory(running.job));
        };
        let job = UnderWay {
            running,
            carried,
            waited: 0,
        };
        if anew {
            let Ok(channel) = Channel::new(alloc) else {
                return Err(wants_memory(job.running.job));
            };
            self.set_out_anew(channel, job);
            return Ok(());
        }
        if self.granted.is_some() {
            self.set_out(job);
            return Ok(());
        }
        self.turn_down(job);
        Ok(())
    }

    /// Starts a job on a client that is connected.
    fn set_out(&mut self, mut job: UnderWay)
        requires idle { self.old.job ≡ None }
        requires connected { IsSome self.old.granted }
        requires blank { IsBlank job }
        requires begins { Begins job.running self.old.config self.old.granted }
        ensures { IsStarted self.old self.new job.running.job }
    {
        self.channel.talk.begin(&mut job.running, &self.config);
        self.job = Some(job);
    }

    /// Starts a connect on a link that begins anew.
    fn set_out_anew(&mut self, channel: Channel, mut job: UnderWay)
        requires idle { self.old.job ≡ None }
        requires anew { begins_anew self.old.granted job.running.job ≡ true }
        requires channel { IsNew channel }
        requires blank { IsBlank job }
        requires begins { Begins job.running self.old.config self.old.granted }
        ensures { IsStarted self.old self.new job.running.job }
    {
        self.channel = channel;
        self.is_closed = false;
        self.channel.talk.begin(&mut job.running, &self.config);
        self.job = Some(job);
    }

    /// Starts a job that is over at once, since the client isn't connected. Nothing is sent for it.
    fn turn_down(&mut self, mut job: UnderWay)
        requires idle { self.old.job ≡ None }
        requires unconnected { self.old.granted ≡ None }
        requires not_anew { begins_anew self.old.granted job.running.job ≡ false }
        requires blank { IsBlank job }
        requires begins { Begins job.running self.old.config self.old.granted }
        ensures { IsStarted self.old self.new job.running.job }
    {
        self.channel.talk.begin(&mut job.running, &self.config);
        self.job = Some(job);
    }

    /// Goes on with the job over the link until it is done or the link isn't ready.
    ///
    /// All that may be sent is sent before the next octet is used, and octets are received only if all was sent and
    /// used. `Done` has what follows from the octets used, or a cause by its error number. `Pending` is returned
    /// only if the link's `waits` rose in this poll, and `Idle` exactly if no job is outstanding.
    pub fn poll<L: Link>(&mut self, link: &mut L) -> Polled
        ensures { IsPoll self.old (L.shows link.old) self.new (L.shows link.new) result }
    {
        let Some(mut job) = self.job.take() else {
            return Polled::Idle;
        };
        let ended = self
            .channel
            .round(&mut job, &self.config, self.granted, link);
        let Some(ending) = ended else {
            self.job = Some(job);
            return Polled::Pending;
        };
        self.granted = grant_after(ending.leaves, self.granted);
        self.is_closed = closed_after(ending.leaves, self.is_closed);
        let_go(&mut self.channel.talk.outbox, ending.leaves);
        Polled::Done(done(job, ending.code))
    }
}

/// The result of a job that ended with this number.
fn done(job: UnderWay, code: u32) -> JobResult
    ensures { (end : End) → awaited_in job.running [] ≡ for_nothing end [] → code ≡ end.code
        → IsResult result job.running.job end job.carried.octets }
{
    let UnderWay {
        running,
        mut carried,
        ..
    } = job;
    let mut carried = carried.take().into_vec();
    // the result keeps no memory beyond the octets that it has
    carried.shrink_to_fit();
    running.into_result(code, Octets::of_vec(carried))
}

/// Drops what is left to send, unless the next job goes on with the link.
fn let_go(outbox: &mut Outbox, leaves: Leaves)
    ensures kept { LeavesLink leaves → outbox.new ≡ outbox.old }
    ensures cleared { (LeavesLink leaves → ⊥) → outbox.new.unsent ≡ [] }
{
    match leaves {
        Leaves::AsItWas | Leaves::Connected(_) => {}
        Leaves::Disconnected | Leaves::Closed => *outbox = Outbox::new(),
    }
}

/// The fault of a job for which an allocation failed.
fn wants_memory(job: Job) -> StartFault
    ensures cause { result.cause ≡ StartCause.Memory }
    ensures job { result.job ≡ job }
{
    StartFault {
        cause: StartCause::Memory,
        job,
    }
}

/// Whether the job is a connect on a client that isn't connected, which begins the link anew.
fn begins_anew(granted: Option<Grant>, job: &Job) -> bool
    ensures { result ≡ begins_anew granted job.now }
{
    match (granted, job) {
        (None, Job::Connect) => true,
        _ => false,
    }
}
