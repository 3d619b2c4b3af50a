//! Polling a partner.
ghost use Rattle.std.specs.Prelude.{◌≡◌};
ghost use Rattle.s7_partner.specs.Partners.{code_of_fault, is_opened};
ghost use Rattle.s7_partner.specs.Held.{stage_in};

use crate::event::PartnerEvent;
use crate::partner::{Arrived, Partner, Stage};
use crate::reading::read_octet;
use crate::step::Step;
use crate::telegrams::put_confirm;
use s7_client::codes::{
    BAD_PACKET, LINK_ENDED, NOT_CONNECTED, RECEIVE_FAILED, SEND_FAILED, SHORT_MESSAGE, TOO_LONG,
    TOO_MANY_FRAGMENTS,
};
use s7_outer::{Got, Link, Memory, Octets, Sent};
use s7_wire::{Found, PIECE, ReadFault};
use std::alloc::Global;

/// The least number of octets of a message.
const LEAST_MESSAGE: usize = 10;

impl Partner {
    ghost use Rattle.std.specs.Prelude.{◌<◌, [], None, Some, false, length, is_none};
    ghost use Rattle.s7_outer.specs.Shown.{Shown};
    ghost use Rattle.s7_wire.specs.Reads.{HasMessage, message_at, size_at};
    ghost use Rattle.s7_partner.specs.States.{State, with_message};
    ghost use Rattle.s7_partner.specs.Partners.{is_waiting};
    ghost use Rattle.s7_partner.specs.Held.{closed_of};
    ghost use Rattle.s7_partner.specs.Calls.{IsPoll};
    ghost use Rattle.s7_partner.specs.At.{Closes, Reaches, Does, IsIdle, HoldsState};
    ghost use Rattle.s7_partner.specs.Steps.{Runs, Acknowledges, Polls, work};

    /// Goes on over the link until there is something to report: a block was sent or has arrived whole, the partner
    /// is closed, or the link wasn't ready.
    ///
    /// A block that the poll before handed out is acknowledged first. All that may be sent is sent before the next
    /// octet is used, and octets are received only if all was sent and used. Returns `Memory` if the allocation for
    /// handing out a block fails; the next poll hands the block out.
    pub fn poll<L: Link>(&mut self, alloc: Global, link: &mut L) -> Result<PartnerEvent, Memory>
        ensures { IsPoll self.old (L.shows link.old) self.new (L.shows link.new) result }
    {
        if let Stage::Closed(code) = self.stage {
            return Ok(PartnerEvent::Closed(code));
        }
        self.acknowledge();
        self.advance(alloc, link)
    }

    /// Acknowledges the last fragment of the block that was handed out.
    fn acknowledge(&mut self)
        requires { closed_of self.old ≡ None }
        ensures acknowledges { (link : Shown) → Acknowledges self.old self.new link }
        ensures handed { self.new.handed ≡ None }
    {
        let Some(block) = self.handed else {
            return;
        };
        let size = self.size();
        self.handed = None;
        put_confirm(
            &mut self.outbox,
            &mut self.message,
            size,
            block.sequence,
            block.number,
        );
    }

    /// Hands out the block that has arrived whole. If the allocation fails, the block stays.
    fn hand_out(&mut self, alloc: Global, block: Arrived) -> Result<PartnerEvent, Memory>
        requires live { closed_of self.old ≡ None }
        requires whole { self.old.whole ≡ Some block }
        ensures { (link : Shown) → Polls self.old link self.new link result }
    {
        let Ok(body) = Octets::copy_of(alloc, self.octets.as_slice()) else {
            return Err(Memory);
        };
        self.whole = None;
        self.handed = Some(block);
        Ok(PartnerEvent::Received {
            rid: block.rid,
            body,
        })
    }

    /// Whether a send or the opening is outstanding.
    fn is_waiting(&self) -> bool
        ensures { (s : State) → HoldsState self.now s → result ≡ is_waiting s }
    {
        match self.stage {
            Stage::Opening | Stage::Negotiating => true,
            Stage::Going(_) | Stage::Closed(_) => self.sending.is_some(),
        }
    }

    /// Takes steps until there is something to report. A block that has arrived whole is handed out.
    fn advance<L: Link>(&mut self, alloc: Global, link: &mut L) -> Result<PartnerEvent, Memory>
        requires live { closed_of self.old ≡ None }
        requires none_handed { self.old.handed ≡ None }
        ensures { Polls self.old (L.shows link.old) self.new (L.shows link.new) result }
    {
        loop {
            if let Some(block) = self.whole {
                return self.hand_out(alloc, block);
            }
            match self.step(link) {
                Step::Went => {}
                Step::NotYet if self.is_waiting() => return Ok(PartnerEvent::Pending),
                Step::NotYet => return Ok(PartnerEvent::Idle),
                Step::Sent => return Ok(PartnerEvent::Sent),
                Step::Closed(code) => return Ok(PartnerEvent::Closed(code)),
            }
        }
    }

    /// Sends what is left to send. If all was sent, uses an octet that was received; if all were used, receives
    /// some and uses one.
    fn step<L: Link>(&mut self, link: &mut L) -> Step
        requires live { closed_of self.old ≡ None }
        requires none_whole { self.old.whole ≡ None }
        requires none_handed { self.old.handed ≡ None }
        ensures runs { Runs self.old (L.shows link.old) self.new (L.shows link.new) result }
        ensures none_handed { result ≡ Step.Went → self.new.handed ≡ None }
        ensures less { result ≡ Step.Went → self.new.whole ≡ None → work self.new < work self.old }
    {
        if !self.outbox.is_empty() {
            return match self.outbox.flush(link) {
                Sent::Bytes(_) => Step::Went,
                Sent::NotYet => Step::NotYet,
                Sent::Failed => self.close(SEND_FAILED),
            };
        }
        if !self.inbox.is_empty() {
            return self.consume();
        }
        match self.inbox.refill(link, PIECE) {
            Got::Bytes(_) => self.consume(),
            Got::NotYet => Step::NotYet,
            Got::Failed => self.close(RECEIVE_FAILED),
            Got::End => self.close(LINK_ENDED),
        }
    }

    /// Uses an octet that was received.
    fn consume(&mut self) -> Step
        requires live { closed_of self.old ≡ None }
        requires none_whole { self.old.whole ≡ None }
        requires none_handed { self.old.handed ≡ None }
        requires sent { self.old.outbox.unsent ≡ [] }
        requires read { 0 < length self.old.inbox }
        ensures runs { (link : Shown) → Runs self.old link self.new link result }
        ensures none_handed { result ≡ Step.Went → self.new.handed ≡ None }
        ensures less { result ≡ Step.Went → self.new.whole ≡ None → work self.new < work self.old }
    {
        self.outbox.clear();
        match read_octet(&mut self.reader, &mut self.inbox) {
            Found::More => Step::Went,
            Found::Opened(connection) => {
                self.stage = Stage::Negotiating;
                self.open(&connection);
                Step::Went
            }
            Found::Message => self.take_message(),
            Found::Disconnected => self.close(LINK_ENDED),
            Found::Fault(fault) => {
                let code = fault_code(&self.stage, fault);
                self.close(code)
            }
        }
    }

    /// Takes the message that was read whole.
    fn take_message(&mut self) -> Step
        requires live { closed_of self.old ≡ None }
        requires idle { IsIdle self.old }
        requires sized { is_none (size_at self.old.reader) ≡ false }
        requires whole { HasMessage self.old.reader }
        ensures reaches { Reaches self.old self.new
            (λ s. with_message self.old.role self.old.config s (message_at self.old.reader)) }
        ensures does { Does self.old self.new result }
    {
        if self.reader.message().len() < LEAST_MESSAGE {
            return self.close(SHORT_MESSAGE);
        }
        match self.stage {
            Stage::Negotiating => self.negotiate(),
            Stage::Going(pdu) => self.exchange(pdu),
            Stage::Opening | Stage::Closed(_) => unreachable!(),
        }
    }

    /// Closes the partner with this error number.
    pub(crate) fn close(&mut self, code: u32) -> Step
        ensures result { result ≡ Step.Closed code }
        ensures closes { Closes self.old self.new code }
    {
        self.stage = Stage::Closed(code);
        Step::Closed(code)
    }
}

/// The error number of a packet at fault.
fn fault_code(stage: &Stage, fault: ReadFault) -> u32
    ensures { result ≡ code_of_fault (is_opened (stage_in stage.now)) fault }
{
    match fault {
        ReadFault::BadFrame | ReadFault::BadTpdu => BAD_PACKET,
        ReadFault::Unexpected => unexpected_code(stage),
        ReadFault::TooManyFragments => TOO_MANY_FRAGMENTS,
        ReadFault::FrameTooLong | ReadFault::TooLong => TOO_LONG,
    }
}

/// The error number of a TPDU that isn't allowed. It is another one before the link was opened than after.
fn unexpected_code(stage: &Stage) -> u32
    ensures { result ≡ code_of_fault (is_opened (stage_in stage.now)) ReadFault.Unexpected }
{
    match stage {
        Stage::Opening => NOT_CONNECTED,
        Stage::Negotiating | Stage::Going(_) | Stage::Closed(_) => BAD_PACKET,
    }
}
