//! A partner that is given the blocks of a list, one after another.
ghost use Rattle.std.specs.Prelude.{◌≡◌, All};
ghost use Rattle.s7_script.specs.Sends.{IsSized};
ghost use Rattle.s7_partner_run.specs.Events.{is_idle_by, news_by};

use crate::event::News;
use s7_client::Config;
use s7_outer::{Link, Memory};
use s7_partner::{Partner, PartnerEvent, Role};
use s7_script::{SendLine, Sends};
use std::alloc::Global;
use std::collections::VecDeque;

/// A partner, and the blocks that weren't given to it yet.
#[derive(Drop)]
pub struct Talker {
    pub(crate) rest: VecDeque<SendLine>,
    pub(crate) partner: Partner,
    /// Whether its last poll reported that nothing is outstanding.
    pub(crate) is_idle: bool,
    ghost sized: { All IsSized rest.items },
}

impl Talker {
    ghost use Rattle.std.specs.Prelude.{◌⊎◌, ◌≤◌, false, IfOk};
    ghost use Rattle.s7_partner_run.specs.Talking.{GivesNext, GivesNone, IsFresh, IsTurn, PollsOnce};
    ghost use Rattle.s7_partner_run.specs.Talking.{is_acknowledged, is_closed, is_done, is_over, post_of};

    /// A partner that has done nothing, and will be given the blocks of these lines in order. The configuration must be
    /// one that `Client::new` takes. Returns `Memory` if an allocation fails.
    pub fn new(alloc: Global, role: Role, config: Config, sends: Sends) -> Result<Talker, Memory>
        requires least_pdu { 64 ≤ config.pdu }
        requires most_pdu { config.pdu ≤ 1920 }
        requires least_jobs { 1 ≤ config.jobs }
        requires most_jobs { config.jobs ≤ 8 }
        requires polls { 1 ≤ config.polls }
        requires sized { All IsSized sends }
        ensures { IfOk result (λ t. IsFresh role config sends (post_of t)) }
    {
        Ok(Talker {
            rest: VecDeque::from_vec(sends.into_vec()),
            partner: Partner::new(alloc, role, config)?,
            is_idle: false,
        })
    }

    /// Whether every block was given and acknowledged.
    pub fn is_acknowledged(&self) -> bool
        ensures { result ≡ is_acknowledged (post_of self.now) }
    {
        self.rest.is_empty() && !self.partner.is_sending()
    }

    /// Whether the partner is closed.
    pub fn is_closed(&self) -> bool
        ensures { result ≡ is_closed (post_of self.now) }
    {
        self.partner.closed().is_some()
    }

    /// Whether every block was given and acknowledged, or the partner is closed.
    pub(crate) fn is_over(&self) -> bool
        ensures { result ≡ is_over (post_of self.now) }
    {
        self.is_closed() || self.is_acknowledged()
    }

    /// Whether every block was given and acknowledged, and the last turn left nothing outstanding.
    pub(crate) fn is_done(&self) -> bool
        ensures { result ≡ is_done (post_of self.now) }
    {
        self.is_idle && self.is_acknowledged()
    }

    /// Takes the partner's turn: unless it is closed, it is given its next block if none is unacknowledged, and polls
    /// once. Returns the news, if there is one. Returns `Memory` if an allocation to hand a block out fails; the next
    /// turn hands it out.
    pub fn turn<L: Link>(&mut self, alloc: Global, link: &mut L) -> Result<Option<News>, Memory>
        ensures { IsTurn (post_of self.old) (L.shows link.old) (post_of self.new) (L.shows link.new) result }
    {
        if self.is_closed() {
            return Ok(None);
        }
        self.give_next();
        self.poll_once(alloc, link)
    }

    /// Gives the partner its next block, if none is unacknowledged and one is left.
    fn give_next(&mut self)
        requires opened { is_closed (post_of self.old) ≡ false }
        ensures { GivesNext (post_of self.old) (post_of self.new) ⊎ GivesNone (post_of self.old) (post_of self.new) }
    {
        if self.partner.is_sending() {
            return;
        }
        let Some(line) = self.rest.pop_front() else {
            return;
        };
        if self.partner.b_send(line.rid, line.body).is_err() {
            unreachable!()
        }
    }

    /// Polls once.
    fn poll_once<L: Link>(&mut self, alloc: Global, link: &mut L) -> Result<Option<News>, Memory>
        ensures { PollsOnce (post_of self.old) (L.shows link.old) (post_of self.new) (L.shows link.new) result }
    {
        let told = self.partner.poll(alloc, link);
        self.is_idle = tells_idle(&told);
        news_by(told)
    }
}

/// Whether a poll reported that nothing is outstanding.
fn tells_idle(told: &Result<PartnerEvent, Memory>) -> bool
    ensures { result ≡ is_idle_by told.now }
{
    match told {
        Ok(PartnerEvent::Idle) => true,
        Ok(_) | Err(_) => false,
    }
}

/// The news in what a poll reported.
fn news_by(told: Result<PartnerEvent, Memory>) -> Result<Option<News>, Memory>
    ensures { result ≡ news_by told }
{
    Ok(match told? {
        PartnerEvent::Sent => Some(News::Sent),
        PartnerEvent::Received { rid, body } => Some(News::Received { rid, body }),
        PartnerEvent::Pending | PartnerEvent::Idle => None,
        PartnerEvent::Closed(code) => Some(News::Closed(code)),
    })
}
