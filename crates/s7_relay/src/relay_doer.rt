//! A doer that asks another server, as its client, what a link asks of windows.
ghost use Rattle.std.specs.Prelude.{◌≡◌, ◌≤◌, [], length, IfOk, OnOk, OnErr, IsTrue, ◌↔◌, option_map, vec_len};
ghost use Rattle.std.specs.Str.{IsUtf8};
ghost use Rattle.std.specs.Vec.{vec_capacity};
ghost use Rattle.s7_header.specs.Negotiation.{most_pdu};
ghost use Rattle.s7_plant.specs.Replies.{said, said_of};
ghost use Rattle.s7_relay.specs.Replies.{most_body};

use crate::far::Far;
use crate::far_job::{far_job, request_codes, travels};
use crate::passage::{Passage, Relayed, entry_of};
use crate::reply::say;
use crate::windows::Windows;
use s7_client::{Config, Connection};
use s7_outer::{Dial, Link, Memory, Octets};
use s7_plant::{Ask, Reply, Request};
use s7_session::{Doer, NotDone};
use std::alloc::Global;

/// Asks another server, as its client, what a link asks of windows on that server's areas. It keeps the telegrams that
/// it answered, up to a limit, and is full exactly at the limit.
#[derive(Drop)]
pub struct RelayDoer<K, M> {
    windows: Windows,
    far: Far<K, M>,
    limit: u64,
    /// The telegrams that were relayed, in order.
    kept: Vec<Relayed>,
    ghost few: { vec_len kept ≤ limit },
    ghost room: { limit ≤ vec_capacity kept },
}

impl<K: Dial<M> + Drop, M: Link + Drop> RelayDoer<K, M> {
    ghost use Rattle.s7_plant.specs.Replies.{IsReadyReply, said_of};
    ghost use Rattle.s7_plant.specs.Requests.{Fits, IsReady};
    ghost use Rattle.s7_relay.specs.Acts.{Passes};
    ghost use Rattle.s7_relay.specs.Doer.{begins, doer_model};
    ghost use Rattle.s7_relay.specs.Far.{Lacks, far_model, server_of};
    ghost use Rattle.s7_relay.specs.Replies.{reply_of};
    ghost use Rattle.s7_relay.specs.Travel.{request_codes};

    /// A doer for these windows on the server that the dial reaches at this host and port. It has relayed nothing. The
    /// host is UTF-8, and the limit is from 1 to 262,144. `config` has a PDU from 64 to 1,920, 1 to 8 jobs, and at
    /// least 1 poll. The list of the telegrams that are kept is allocated here. Returns `Memory` if an allocation
    /// fails.
    pub fn new(
        alloc: Global,
        windows: Windows,
        dial: K,
        host: Octets,
        port: u16,
        config: Config,
        limit: u64,
    ) -> Result<RelayDoer<K, M>, Memory>
        requires host { IsUtf8 host }
        requires least_pdu { 64 ≤ config.pdu }
        requires most_pdu { config.pdu ≤ most_pdu }
        requires least_jobs { 1 ≤ config.jobs }
        requires most_jobs { config.jobs ≤ 8 }
        requires polls { 1 ≤ config.polls }
        requires some { 1 ≤ limit }
        requires few { limit ≤ 262144 }
        ensures { IfOk result (λ doer. doer_model K.shows M.shows doer
            ≡ begins windows host port config limit (K.shows dial)) }
    {
        let host = String::from_utf8(host.into_vec()).unwrap();
        Ok(RelayDoer {
            windows,
            far: Far {
                dial,
                host,
                port,
                link: None,
                client: Connection::new(alloc, config)?,
                failures: 0,
            },
            limit,
            kept: Vec::with_capacity(alloc, limit as usize)?,
        })
    }

    /// The telegrams that were relayed, in order.
    pub fn kept(&self) -> &[Relayed]
        ensures { result.now ≡ (doer_model K.shows M.shows self.now).kept }
    {
        self.kept.as_slice()
    }

    /// The far link that was dialled last, borrowed; `None` if none was dialled.
    pub fn far_link(&self) -> Option<&M>
        ensures { option_map (λ link. M.shows link.now) result ≡ (doer_model K.shows M.shows self.now).far.link }
    {
        self.far.link.as_ref()
    }

    /// Whether the limit is reached.
    fn is_full(&self) -> bool
        ensures { IsTrue result ↔ (length self.now.kept.items ≡ self.now.limit) }
    {
        self.kept.len() as u64 == self.limit
    }

    /// Asks the far server for the items of a request that aren't refused near, and puts the answer to the request
    /// into the reply. Returns a copy of the answer, and how far the request got. All memory that is needed after the
    /// far job is allocated before it. Returns `Memory` if an allocation fails; the far job wasn't begun then.
    fn relay(
        &mut self,
        alloc: Global,
        request: &Request,
        reply: &mut Reply,
    ) -> Result<(Reply, Passage), Memory>
        requires ready { IsReady request.now }
        requires reply { IsReadyReply reply.old }
        ensures passes { IfOk result (λ r. Passes M.shows (server_of self.old.far) self.old.windows request.now
            (far_model K.shows M.shows self.old.far) (far_model K.shows M.shows self.new.far) r.1) }
        ensures said { IfOk result (λ r. said_of reply.new
            ≡ reply_of request.now (request_codes self.old.windows request.now) r.1) }
        ensures copied { IfOk result (λ r. said_of r.0 ≡ said_of reply.new) }
        ensures fits { OnOk result (Fits request.now (said_of reply.new)) }
        ensures ready { IsReadyReply reply.new }
        ensures lacks { OnErr result (Lacks M.shows (server_of self.old.far)
            (far_model K.shows M.shows self.old.far) (far_model K.shows M.shows self.new.far)) }
        ensures reply { OnErr result (reply.new ≡ reply.old) }
        ensures server { server_of self.new.far ≡ server_of self.old.far }
        ensures windows { self.new.windows ≡ self.old.windows }
        ensures limit { self.new.limit ≡ self.old.limit }
        ensures kept { self.new.kept ≡ self.old.kept }
    {
        let near = request_codes(&self.windows, request);
        let mut kept = room_for(alloc, request)?;
        let passage = self.pass(alloc, request, near.as_slice())?;
        say(request, near.as_slice(), &passage, reply);
        kept.error = reply.error;
        kept.params.add(reply.params.as_slice());
        kept.body.add(reply.body.as_slice());
        Ok((kept, passage))
    }

    /// Asks the far server for the items of a request that have the near code FF, and returns how far the request got.
    /// `near` has the near codes of its items. Returns `Memory` if an allocation fails; the far job wasn't begun then.
    fn pass(&mut self, alloc: Global, request: &Request, near: &[u8]) -> Result<Passage, Memory>
        requires ready { IsReady request.now }
        requires near { near.now ≡ request_codes self.old.windows request.now }
        ensures passes { IfOk result (λ passage. Passes M.shows (server_of self.old.far) self.old.windows request.now
            (far_model K.shows M.shows self.old.far) (far_model K.shows M.shows self.new.far) passage) }
        ensures lacks { OnErr result (Lacks M.shows (server_of self.old.far)
            (far_model K.shows M.shows self.old.far) (far_model K.shows M.shows self.new.far)) }
        ensures server { server_of self.new.far ≡ server_of self.old.far }
        ensures windows { self.new.windows ≡ self.old.windows }
        ensures limit { self.new.limit ≡ self.old.limit }
        ensures kept { self.new.kept ≡ self.old.kept }
    {
        if !travels(near) {
            return Ok(Passage::Near);
        }
        match far_job(alloc, &self.windows, request, near)? {
            Some(job) => self.far.ask(alloc, job),
            None => Ok(Passage::Near),
        }
    }
}

/// An empty reply with room for the longest answer to a request. Returns `Memory` if an allocation fails.
fn room_for(alloc: Global, request: &Request) -> Result<Reply, Memory>
    ensures empty { IfOk result (λ reply. said_of reply ≡ said 0 [] []) }
    ensures params { IfOk result (λ reply. reply.params.room ≡ 16) }
    ensures body { IfOk result (λ reply. reply.body.room ≡ most_body request.now) }
{
    match request {
        Request::Read { items } => Reply::new(alloc, s7_item::answer_size(items) as usize),
        Request::Write { items, .. } => Reply::new(alloc, items.len()),
        _ => Reply::new(alloc, 0),
    }
}

impl<K: Dial<M> + Drop, M: Link + Drop> Doer for RelayDoer<K, M> {
    ghost use Rattle.std.proofs.Common.{refl};
    ghost use Rattle.s7_relay.specs.Doer.{Did, GoesOn, doer_model, entries_of};
    ghost use Rattle.s7_relay.specs.DoerLaws.{goes_on_both, goes_on_same};

    ghost stands = { λ d entries. entries ≡ entries_of d.kept.items };

    ghost is_full = { λ d _. length d.kept.items ≡ d.limit };

    ghost may_lack = { λ d _. length d.kept.items ≡ d.limit → ⊥ };

    ghost keeps = { λ d e. GoesOn M.shows (doer_model K.shows M.shows d) (doer_model K.shows M.shows e) };

    ghost did = { λ d ask done e. Did M.shows (doer_model K.shows M.shows d) ask done (doer_model K.shows M.shows e) };

    ghost keeps_same = { λ d. goes_on_same M.shows (doer_model K.shows M.shows d) };

    ghost keeps_both = { λ a b c p q. goes_on_both M.shows (doer_model K.shows M.shows a) (doer_model K.shows M.shows b)
        (doer_model K.shows M.shows c) p q };

    /// Relays a telegram and keeps it. `Memory` is returned only before the far job began. By then a far link may have
    /// been dialled, and the client connected.
    fn act(&mut self, alloc: Global, ask: Ask, reply: &mut Reply) -> Result<u64, NotDone> {
        if self.is_full() {
            return Err(NotDone::Full(ask));
        }
        let Ok((kept, passage)) = self.relay(alloc, &ask.request, reply) else {
            return Err(NotDone::Memory(ask));
        };
        let number = self.kept.len() as u64;
        self.kept.push_reserved(entry_of(ask, kept, passage));
        Ok(number)
    }
}
