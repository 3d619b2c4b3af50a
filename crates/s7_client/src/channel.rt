//! The client's side of its link, and the steps of a poll.
ghost use Rattle.std.specs.Prelude.{◌≡◌, ℕ, ◌<◌, ◌≤◌, [], length, is_none, IfSome, IfOk};
ghost use Rattle.s7_header.specs.Negotiation.{most_pdu};
ghost use Rattle.s7_dialogue.specs.Running.{unput_of, IsEnding};
ghost use Rattle.s7_client.specs.At.{IsAwaiting, code_at};
ghost use Rattle.s7_client.specs.Polling.{IsNew, Round};
ghost use Rattle.s7_client.specs.Standing.{Fits, IsStep, CountsStep, Consumes, unread, unsent};

use crate::talk::Talk;
use crate::under_way::UnderWay;
use s7_dialogue::codes::{
    BAD_PACKET, LINK_ENDED, NOT_CONNECTED, RECEIVE_FAILED, SEND_FAILED, TOO_LONG,
    TOO_MANY_FRAGMENTS,
};
use s7_dialogue::{Config, Ending, Grant, MOST_MESSAGE, Stage};
use s7_outer::{Buffer, Got, Link, Memory, Sent};
use s7_wire::{Found, Inbox, Opening, Outbox, PIECE, ReadFault, Reader};
use std::alloc::Global;

/// The octets that were received and not used yet, and the messages of the link.
#[derive(Drop)]
pub(crate) struct Channel {
    /// The octets that were received and not used yet.
    pub(crate) inbox: Inbox,
    /// The messages of the link.
    pub(crate) talk: Talk,
}

/// The outcome of one step.
#[derive(Clone, Copy, Debug, PartialEq, Eq)]
enum Step {
    /// The step moved octets or used some.
    Went,
    /// The link wasn't ready.
    NotYet,
    /// The job is over.
    Over,
}

impl Channel {
    /// A link on which nothing was sent or received. Returns `Memory` if the allocation of its buffers fails.
    pub(crate) fn new(alloc: Global) -> Result<Channel, Memory>
        ensures { IfOk result IsNew }
    {
        Ok(Channel {
            inbox: Inbox::new(),
            talk: Talk {
                reader: Reader::new(alloc, Opening::Confirm)?,
                sequence: 0,
                message: Buffer::new(alloc, MOST_MESSAGE)?,
                outbox: Outbox::new(),
            },
        })
    }

    /// Goes on with a job until the link isn't ready or the job is over. Returns how it ended, if it is over.
    pub(crate) fn round<L: Link>(
        &mut self,
        job: &mut UnderWay,
        config: &Config,
        granted: Option<Grant>,
        link: &mut L,
    ) -> Option<Ending>
        requires fits { Fits self.old job.old }
        requires pdu { config.now.pdu ≤ most_pdu }
        requires jobs { config.now.jobs ≤ 8 }
        requires waited { job.old.waited < config.now.polls }
        ensures round { Round self.old job.old (L.shows link.old) self.new job.new
            (L.shows link.new) config.now granted (is_none result) }
        ensures ended { IfSome result (IsEnding job.new.running) }
    {
        loop {
            match self.step(job, config, granted, link) {
                Step::Went => {}
                Step::NotYet => return job.wait(config.polls),
                Step::Over => return job.running.ending(),
            }
        }
    }

    /// Sends what may be sent. If all was sent, uses octets that were received; if all were used, receives some.
    /// Octets are used up to the end of one packet.
    fn step<L: Link>(
        &mut self,
        job: &mut UnderWay,
        config: &Config,
        granted: Option<Grant>,
        link: &mut L,
    ) -> Step
        requires fits { Fits self.old job.old }
        requires pdu { config.now.pdu ≤ most_pdu }
        requires jobs { config.now.jobs ≤ 8 }
        ensures counts { CountsStep result job.new.running (L.shows link.old) (L.shows link.new) }
        ensures step { IsStep self.old job.old (L.shows link.old) self.new job.new
            (L.shows link.new) config.now granted result }
    {
        self.talk.put_next(&mut job.running, config);
        if !self.talk.outbox.is_empty() {
            return match self.talk.outbox.flush(link) {
                Sent::Bytes(_) => Step::Went,
                Sent::NotYet => Step::NotYet,
                Sent::Failed => {
                    job.running.fail(SEND_FAILED);
                    Step::Over
                }
            };
        }
        match &job.running.stage {
            Stage::Over { .. } => Step::Over,
            Stage::Leaving => {
                job.running.depart();
                Step::Over
            }
            Stage::Opening => self.go_on(job, config, granted, link),
            Stage::Asking(_) => self.go_on(job, config, granted, link),
            Stage::Single(_) => self.go_on(job, config, granted, link),
        }
    }

    /// Uses octets, receiving some if there are none. All was sent, and octets are awaited.
    fn go_on<L: Link>(
        &mut self,
        job: &mut UnderWay,
        config: &Config,
        granted: Option<Grant>,
        link: &mut L,
    ) -> Step
        requires fits { Fits self.old job.old }
        requires pdu { config.now.pdu ≤ most_pdu }
        requires jobs { config.now.jobs ≤ 8 }
        requires sent { unsent self.old ≡ [] }
        requires unput { (size : ℕ) → unput_of config.now size job.old.running ≡ [] }
        requires awaiting { IsAwaiting job.old.running.stage }
        ensures counts { CountsStep result job.new.running (L.shows link.old) (L.shows link.new) }
        ensures step { IsStep self.old job.old (L.shows link.old) self.new job.new
            (L.shows link.new) config.now granted result }
    {
        if !self.inbox.is_empty() {
            self.consume(job, config, granted);
            return Step::Went;
        }
        match self.inbox.refill(link, PIECE) {
            Got::Bytes(_) => {
                self.consume(job, config, granted);
                Step::Went
            }
            Got::NotYet => Step::NotYet,
            Got::Failed => {
                job.running.fail(RECEIVE_FAILED);
                Step::Over
            }
            Got::End => {
                job.running.fail(LINK_ENDED);
                Step::Over
            }
        }
    }

    /// Uses octets that were received, up to the end of one packet.
    fn consume(&mut self, job: &mut UnderWay, config: &Config, granted: Option<Grant>)
        requires fits { Fits self.old job.old }
        requires pdu { config.now.pdu ≤ most_pdu }
        requires jobs { config.now.jobs ≤ 8 }
        requires sent { unsent self.old ≡ [] }
        requires unput { (size : ℕ) → unput_of config.now size job.old.running ≡ [] }
        requires awaiting { IsAwaiting job.old.running.stage }
        requires read { 0 < length (unread self.old) }
        ensures { Consumes self.old job.old self.new job.new config.now granted }
    {
        let taken = self.talk.read(self.inbox.as_slice());
        self.inbox.advance(taken.octets);
        match taken.found {
            Found::More => {}
            Found::Opened(_) => self.talk.open(job),
            Found::Message => self.talk.message(job, config, granted),
            Found::Disconnected => job.running.fail(LINK_ENDED),
            Found::Fault(fault) => {
                let code = code_of(fault, &job.running.stage);
                job.running.fail(code);
            }
        }
    }
}

/// The error number of a packet at fault. While the confirm is awaited any other TPDU has the number of a failed
/// connect.
fn code_of(fault: ReadFault, stage: &Stage) -> u32
    ensures { result ≡ code_at stage.now fault }
{
    match (fault, stage) {
        (ReadFault::Unexpected, Stage::Opening) => NOT_CONNECTED,
        (ReadFault::BadFrame | ReadFault::BadTpdu | ReadFault::Unexpected, _) => BAD_PACKET,
        (ReadFault::FrameTooLong | ReadFault::TooLong, _) => TOO_LONG,
        (ReadFault::TooManyFragments, _) => TOO_MANY_FRAGMENTS,
    }
}
