//! The state that a link's messages leave, and the octets to send.
ghost use Rattle.std.specs.Prelude.{◌≡◌, ◌≤◌, length, IfOk};
ghost use Rattle.s7_plant.specs.declared.request.Request.TheVariants.{Write};
ghost use Rattle.s7_session.specs.Events.{is_s7};
ghost use Rattle.s7_plant.specs.Requests.{kept_request};

use crate::doer::{Doer, NotDone};
use crate::handled::Handled;
use crate::held::Held;
use crate::judge::{Judgement, Refusal, judge};
use crate::judge_transfer::sequence_of;
use crate::judge_user::SECURITY;
use crate::query::Query;
use crate::sender::Sender;
use crate::size::TpduSize;
use crate::slices::{AnswerId, slice_room};
use s7_area::Guard;
use s7_cotp::Connection;
use s7_item::{BoxedDataItems, DataItems, Items};
use s7_outer::{Clock, Link, Memory, Octets};
use s7_plant::{Ask, BODY_ROOM, Reply, Request};
use std::alloc::Global;

/// The server's reference in a connect confirm.
const REFERENCE: u16 = 1;

/// The error word of a refusal because the history is full.
pub(crate) const FULL: u16 = 0x8F01;

/// The error word of a refusal because the clock failed.
const CLOCK_FAILED: u16 = 0x8F02;

/// The conversation on one link: what its earlier messages left, and what is still to be sent.
#[derive(Drop)]
pub(crate) struct Conversation {
    /// The TPDU size of the connect request, `None` before it.
    pub(crate) size: Option<TpduSize>,
    pub(crate) held: Held,
    pub(crate) reply: Reply,
    pub(crate) sender: Sender,
    ghost params_room: { reply.params.room ≡ 16 },
    ghost body_room: { reply.body.room ≡ 65572 },
}

impl Conversation {
    ghost use Rattle.std.specs.Prelude.{◌≡◌, ℕ, [], IfOk, None, Some};
    ghost use Rattle.s7_cotp.specs.Told.{connection_of, CanBeWritten};
    ghost use Rattle.s7_header.specs.Negotiation.{least_pdu, most_pdu};
    ghost use Rattle.s7_outer.specs.Shown.{Shown};
    ghost use Rattle.s7_plant.specs.Replies.{Said, said_of};
    ghost use Rattle.s7_plant.specs.Requests.{CanBeDone, Fits, HasAtMost, HasBody};
    ghost use Rattle.s7_wire.specs.Bounds.{most_waiting};
    ghost use Rattle.s7_wire.specs.Sent.{sent_message};
    ghost use Rattle.s7_wire.specs.Reading.{opened, message};
    ghost use Rattle.s7_session.specs.Answers.{Answers};
    ghost use Rattle.s7_session.specs.Conversing.{link_of, tpdu_size_of, sends};
    ghost use Rattle.s7_session.specs.Errors.{error_of};
    ghost use Rattle.s7_session.specs.Events.{made, settled, by_judgement, asks, refusal_sent};
    ghost use Rattle.s7_session.specs.Judged.{judgement_of, IsWithin, queries};
    ghost use Rattle.s7_session.specs.Judgement.{plainly, user_octets, user_answer, secured, sequence_of};
    ghost use Rattle.s7_session.specs.Judgement.{user_reply, user_link, slice_octets, slices_left};
    ghost use Rattle.s7_session.specs.LinkState.{first_link, next_octet};
    ghost use Rattle.s7_session.specs.Passwords.{no_data};
    ghost use Rattle.s7_session.specs.Queries.{group_of, subfunction_of, IsReadyQuery};
    ghost use Rattle.s7_session.specs.Telegrams.{moment_of};

    /// A link on which nothing came, to areas with this guard. All its buffers are allocated here. Returns `Memory` if
    /// an allocation fails.
    pub(crate) fn new(alloc: Global, guard: Option<Guard>) -> Result<Conversation, Memory>
        ensures size { IfOk result (λ c. tpdu_size_of c.size ≡ None) }
        ensures link { IfOk result (λ c. link_of c.held ≡ first_link guard) }
        ensures sends { IfOk result (λ c. sends c ≡ []) }
    {
        Ok(Conversation {
            size: None,
            held: Held::new(alloc, guard)?,
            reply: Reply::new(alloc, BODY_ROOM)?,
            sender: Sender::new(alloc)?,
        })
    }

    /// Queues the confirm of a connect request. Nothing else may be waiting to be sent.
    pub(crate) fn open(&mut self, request: &Connection)
        requires sent { sends self.old ≡ [] }
        requires writable { CanBeWritten request.now }
        ensures { made (tpdu_size_of self.old.size) (link_of self.old.held) (opened (connection_of request.now)) []
            ≡ settled (tpdu_size_of self.new.size) (link_of self.new.held) (sends self.new) [] }
    {
        self.sender.outbox.clear();
        let confirm = Connection {
            dst_ref: request.src_ref,
            src_ref: REFERENCE,
            class: 0,
            size_code: request.size_code,
            calling: request.calling,
            called: request.called,
        };
        self.sender.put_confirm(&confirm);
        self.size = Some(TpduSize::of(request.size_code));
    }

    /// Handles a complete message: judges it, has the doer carry out what it asks, and queues the answer. Nothing else
    /// may be waiting to be sent.
    pub(crate) fn message<L: Link + Clock, D: Doer>(
        &mut self,
        alloc: Global,
        octets: &[u8],
        line: &mut L,
        doer: &mut D,
    ) -> Handled
        requires sent { sends self.old ≡ [] }
        ensures answers { (at : ℕ) → Answers D.stands D.is_full D.may_lack D.did D.keeps
            (L.shows line.old) doer.old (L.shows line.new) doer.new
            (made (tpdu_size_of self.old.size) (link_of self.old.held) (message octets.now at)) at
            (tpdu_size_of self.new.size) (link_of self.new.held) (sends self.new) result }
        ensures kept { D.keeps doer.old doer.new }
    {
        self.sender.outbox.clear();
        let Some(size) = self.size else {
            return Handled::Answered;
        };
        if !is_s7(octets) {
            return Handled::NotS7;
        }
        let judgement = judge(&self.held, octets);
        self.answer(alloc, size, sequence_of(octets), judgement, line, doer)
    }

    /// Answers a message of this sequence according to its judgement. The only octets that are copied are those of a
    /// write, and the image of a block that is inserted.
    fn answer<L: Link + Clock, D: Doer>(
        &mut self,
        alloc: Global,
        size: TpduSize,
        sequence: u16,
        judgement: Judgement<'_>,
        line: &mut L,
        doer: &mut D,
    ) -> Handled
        requires within { IsWithin self.old.held.granted judgement }
        requires size { self.old.size ≡ Some size }
        requires sent { sends self.old ≡ [] }
        requires room { self.old.sender.outbox.room ≡ most_waiting }
        ensures answers { (at : ℕ) → Answers D.stands D.is_full D.may_lack D.did D.keeps
            (L.shows line.old) doer.old (L.shows line.new) doer.new
            (λ verdicts. by_judgement size.octets (link_of self.old.held) sequence verdicts
            (judgement_of (link_of self.old.held) sequence judgement.entry)) at
            (tpdu_size_of self.new.size) (link_of self.new.held) (sends self.new) result }
        ensures kept { D.keeps doer.old doer.new }
    {
        match judgement {
            Judgement::Refuse(refusal) => {
                self.refuse(size, sequence, refusal);
                Handled::Answered
            }
            Judgement::Grant(granted) => {
                self.sender.put_grant(size, sequence, &granted);
                self.held.granted = Some(granted.pdu);
                Handled::Answered
            }
            Judgement::Security {
                subfunction,
                error,
                right,
            } => {
                self.secure(size, sequence, subfunction, error, right);
                Handled::Answered
            }
            Judgement::Ask(request) => self.ask(alloc, size, sequence, request, doer),
            Judgement::Write {
                items,
                places,
                body,
            } => match copied_write(alloc, items, places, body) {
                Ok(request) => self.ask(alloc, size, sequence, request, doer),
                Err(Memory) => Handled::NoMemory,
            },
            Judgement::Query { pdu, query } => {
                self.query(alloc, size, sequence, pdu, query, line, doer)
            }
            Judgement::Further { pdu, answer } => {
                self.put_slice(size, sequence, pdu, answer);
                Handled::Answered
            }
            Judgement::Insert(name) => self.insert(alloc, size, sequence, name, doer),
            Judgement::Upload(name) => self.start_upload(alloc, size, sequence, name, doer),
            Judgement::Slice { .. }
            | Judgement::End { .. }
            | Judgement::Download { .. }
            | Judgement::Piece { .. }
            | Judgement::Closed
            | Judgement::Dropped => {
                self.transfer(size, sequence, judgement);
                Handled::Answered
            }
        }
    }

    /// Queues the refusal of a message.
    pub(crate) fn refuse(&mut self, size: TpduSize, sequence: u16, refusal: Refusal)
        requires sent { sends self.old ≡ [] }
        requires room { self.old.sender.outbox.room ≡ most_waiting }
        ensures sends { sends self.new ≡ refusal_sent size.octets sequence (error_of refusal) }
        ensures held { self.new.held ≡ self.old.held }
        ensures size { self.new.size ≡ self.old.size }
    {
        self.sender.put_refusal(size, sequence, refusal.error());
    }

    /// Answers a telegram about a password. After it the link has the right that `right` says.
    fn secure(&mut self, size: TpduSize, sequence: u16, subfunction: u8, error: u16, right: bool)
        requires sent { sends self.old ≡ [] }
        requires room { self.old.sender.outbox.room ≡ most_waiting }
        ensures sends { sends self.new ≡ sent_message size.octets (user_octets sequence
            (user_answer 0x85 subfunction (next_octet (link_of self.old.held).user_sequence) error) no_data) }
        ensures link { link_of self.new.held ≡ secured (link_of self.old.held) right }
        ensures size { self.new.size ≡ self.old.size }
    {
        self.held.secure(right);
        let answer = AnswerId {
            group: SECURITY,
            subfunction,
            sequence: self.held.user_sequence,
        };
        self.sender
            .put_user(size, sequence, &answer.params(0, error), &[]);
    }

    /// Carries out a request that needs no clock, with the link's right, and queues the answer; queues a refusal if the
    /// doer has no room for it.
    pub(crate) fn ask<D: Doer>(
        &mut self,
        alloc: Global,
        size: TpduSize,
        sequence: u16,
        request: Request,
        doer: &mut D,
    ) -> Handled
        requires request { CanBeDone request }
        requires untimed { moment_of request ≡ None }
        requires fits { (said : Said) → Fits request said → HasAtMost most_pdu said }
        requires sent { sends self.old ≡ [] }
        requires room { self.old.sender.outbox.room ≡ most_waiting }
        ensures answers { (line : Shown) (at : ℕ) → Answers D.stands D.is_full D.may_lack D.did D.keeps
            line doer.old line doer.new
            (asks size.octets (link_of self.old.held) sequence
            (plainly (link_of self.old.held) sequence (kept_request request))) at
            (Some size.octets) (link_of self.new.held) (sends self.new) result }
        ensures size { self.new.size ≡ self.old.size }
        ensures kept { D.keeps doer.old doer.new }
    {
        let ask = Ask {
            right: self.held.right,
            request,
        };
        match doer.act(alloc, ask, &mut self.reply) {
            Ok(number) => {
                self.sender.put_reply(size, sequence, &self.reply);
                Handled::Entered(number)
            }
            Err(NotDone::Full(_back)) => {
                self.sender.put_refusal(size, sequence, FULL);
                Handled::Answered
            }
            Err(NotDone::Memory(_)) => Handled::NoMemory,
        }
    }

    /// Carries out what user data asks, with the link's right, and queues the answer. Queues a refusal if the clock
    /// failed or the doer has no room for the request. The clock is read first.
    fn query<L: Link + Clock, D: Doer>(
        &mut self,
        alloc: Global,
        size: TpduSize,
        sequence: u16,
        pdu: u16,
        query: Query,
        line: &mut L,
        doer: &mut D,
    ) -> Handled
        requires ready { IsReadyQuery query }
        requires least { least_pdu ≤ pdu }
        requires most { pdu ≤ most_pdu }
        requires sent { sends self.old ≡ [] }
        requires room { self.old.sender.outbox.room ≡ most_waiting }
        ensures answers { (at : ℕ) → Answers D.stands D.is_full D.may_lack D.did D.keeps
            (L.shows line.old) doer.old (L.shows line.new) doer.new
            (asks size.octets (link_of self.old.held) sequence
            (queries (link_of self.old.held) pdu sequence query)) at
            (Some size.octets) (link_of self.new.held) (sends self.new) result }
        ensures size { self.new.size ≡ self.old.size }
        ensures kept { D.keeps doer.old doer.new }
    {
        let Some(request) = query.request(line) else {
            self.sender.put_refusal(size, sequence, CLOCK_FAILED);
            return Handled::Answered;
        };
        let ask = Ask {
            right: self.held.right,
            request,
        };
        match doer.act(alloc, ask, &mut self.reply) {
            Ok(number) => {
                self.put_user_reply(size, sequence, pdu, query);
                Handled::Entered(number)
            }
            Err(NotDone::Full(_)) => {
                self.sender.put_refusal(size, sequence, FULL);
                Handled::Answered
            }
            Err(NotDone::Memory(_)) => Handled::NoMemory,
        }
    }

    /// Queues the answer to user data that is made of the reply.
    fn put_user_reply(&mut self, size: TpduSize, sequence: u16, pdu: u16, query: Query)
        requires body { HasBody 8192 (said_of self.old.reply) }
        requires least { least_pdu ≤ pdu }
        requires most { pdu ≤ most_pdu }
        requires sent { sends self.old ≡ [] }
        requires room { self.old.sender.outbox.room ≡ most_waiting }
        ensures sends { sends self.new ≡ sent_message size.octets
            (user_reply (link_of self.old.held) pdu sequence (group_of query) (subfunction_of query)
            (said_of self.old.reply)) }
        ensures link { link_of self.new.held ≡ user_link (link_of self.old.held) pdu
            (group_of query) (subfunction_of query) (said_of self.old.reply) }
        ensures size { self.new.size ≡ self.old.size }
    {
        let answer = AnswerId {
            group: query.group(),
            subfunction: query.subfunction(),
            sequence: self.held.count_answer(),
        };
        if self.reply.error != 0 {
            self.sender
                .put_user(size, sequence, &answer.params(0, self.reply.error), &[]);
            return;
        }
        self.held.slices.hold(self.reply.body.as_slice());
        self.put_slice(size, sequence, pdu, answer);
    }

    /// Queues the next octets of an answer to user data. The octets left may be asked for under the answer's id.
    fn put_slice(&mut self, size: TpduSize, sequence: u16, pdu: u16, answer: AnswerId)
        requires least { least_pdu ≤ pdu }
        requires most { pdu ≤ most_pdu }
        requires sent { sends self.old ≡ [] }
        requires room { self.old.sender.outbox.room ≡ most_waiting }
        ensures sends { sends self.new ≡ sent_message size.octets (slice_octets sequence
            answer.group answer.subfunction answer.sequence pdu self.old.held.slices.rest) }
        ensures link { link_of self.new.held ≡ record (link_of self.old.held) {
          sliced = slices_left answer.group answer.subfunction answer.sequence pdu self.old.held.slices.rest;
        } }
        ensures size { self.new.size ≡ self.old.size }
    {
        self.sender
            .put_slice(size, sequence, pdu, answer, self.held.slices.rest());
        self.held.slices.advance(answer, slice_room(pdu));
    }
}

impl Refusal {
    ghost use Rattle.std.specs.Prelude.{◌≡◌};
    ghost use Rattle.s7_session.specs.Errors.{error_of};

    /// The error word of the refusal.
    fn error(self) -> u16
        ensures { result ≡ error_of self }
    {
        match self {
            Refusal::UnknownFunction => 0x8104,
            Refusal::NotNegotiated => 0x8403,
            Refusal::Unreadable => 0x8404,
            Refusal::OverPdu => 0x8500,
            Refusal::NotAllowed => 0x8F03,
        }
    }
}

/// Whether a message is one of S7: ten octets or more, the first of them 32.
fn is_s7(message: &[u8]) -> bool
    ensures { result ≡ is_s7 message.now }
{
    message.len() >= 10 && message[0] == 0x32
}

/// A write request with a copy of the octets that its ranges refer to. Returns `Memory` if an allocation fails.
fn copied_write(
    alloc: Global,
    items: Items,
    places: DataItems,
    body: &[u8],
) -> Result<Request, Memory>
    ensures { IfOk result (λ request. request ≡ Write items places body.now) }
{
    Ok(Request::Write {
        items,
        places: BoxedDataItems::new(alloc, places)?,
        octets: Octets::copy_of(alloc, body)?,
    })
}
