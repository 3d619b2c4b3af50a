//! One served link.
ghost use Rattle.std.specs.Prelude.{◌≡◌, ◌+◌, ◌≤◌, length};
ghost use Rattle.s7_wire.specs.Reads.{opens_by};
ghost use Rattle.s7_wire.specs.declared.found.Opening.TheVariants.{Request as OpensByRequest};
ghost use Rattle.s7_session.specs.Bounds.{spent};

use crate::conversation::Conversation;
use crate::doer::Doer;
use crate::handled::Handled;
use crate::outcome::{Outcome, Turn};
use s7_area::Guard;
use s7_outer::{Clock, Got, Link, Memory, Sent};
use s7_wire::{Found, Inbox, Opening, PIECE, Reader};
use std::alloc::Global;
use std::sync::Wait;
use std::thread;
use std::time::{self, Duration};

/// The most octets that are taken from a link.
const SPENT: u64 = 4_294_967_295;

/// The server's side of one link: packets of RFC 1006, TPDUs of class 0 (ISO 8073), and messages. It begins with a
/// connect request. It holds the octets that were read and not yet used, and those that are still to be sent.
#[derive(Drop)]
pub struct Session {
    link: u32,
    reader: Reader,
    inbox: Inbox,
    conversation: Conversation,
    /// The number of octets that were used.
    used: u64,
    /// The number of telegrams that were accepted.
    count: u64,
    /// The number of the newest entry.
    newest: Option<u64>,
    closed: Option<Outcome>,
    ghost opens: { opens_by reader ≡ OpensByRequest },
    ghost fits: { used + length inbox ≤ spent },
    ghost count_fits: { count ≤ used },
}

impl Session {
    ghost use Rattle.std.specs.Prelude.{◌≡◌, ℕ, ◌+◌, ◌<◌, ◌≤◌, List, [], Option, None, Some, length, IfOk};
    ghost use Rattle.s7_wire.specs.Reads.{HasRead, HasMessage, opens_by};
    ghost use Rattle.s7_wire.specs.Reading.{torn_of};
    ghost use Rattle.s7_wire.specs.declared.found.Opening.TheVariants.{Request as OpensByRequest};
    ghost use Rattle.s7_session.specs.LinkState.{LinkState, first_link};
    ghost use Rattle.s7_session.specs.Owed.{torn_or_ended};
    ghost use Rattle.s7_session.specs.Stands.{IsTurn, IsServed, Handles, Consumes, number_of, closed_with};
    ghost use Rattle.s7_session.specs.Stands.{entry_count, newest, used_of, unread, unsent};
    ghost use Rattle.s7_session.specs.LinkRun.{IsFresh, IsLinkRun};

    /// The session of the link of this number, to areas with this guard. It has taken no octets and has no right. All
    /// buffers of the link are allocated here. Returns `Memory` if an allocation fails.
    pub fn new(alloc: Global, link: u32, guard: Option<Guard>) -> Result<Session, Memory>
        ensures fresh { IfOk result (IsFresh (first_link guard)) }
        ensures number { IfOk result (λ s. number_of s ≡ link) }
    {
        Ok(Session {
            link,
            reader: Reader::new(alloc, Opening::Request)?,
            inbox: Inbox::new(),
            conversation: Conversation::new(alloc, guard)?,
            used: 0,
            count: 0,
            newest: None,
            closed: None,
        })
    }

    /// The number of telegrams that were accepted.
    pub fn entries(&self) -> u64
        ensures { result ≡ entry_count self.now }
    {
        self.count
    }

    /// The number of the newest entry, `None` before the first entry.
    pub fn last(&self) -> Option<u64>
        ensures { result ≡ newest self.now }
    {
        self.newest
    }

    /// The number of octets that were used.
    pub fn used(&self) -> u64
        ensures { result ≡ used_of self.now }
    {
        self.used
    }

    /// Takes turns until one closes the link, and returns its outcome. If the link is closed already, returns at once.
    /// The link's octets and the doer's entries together are then one run from beginning to end. After a turn that
    /// answered `NotYet` it sleeps for a millisecond, so that a link whose calls don't block leaves the processor to
    /// others.
    pub fn serve<R: Wait + time::Clock, L: Link + Clock, D: Doer>(
        &mut self,
        rt: &R,
        alloc: Global,
        line: &mut L,
        doer: &mut D,
    ) -> Outcome
        ensures served { IsServed D.stands D.is_full D.may_lack D.did D.keeps
            self.old (L.shows line.old) doer.old self.new (L.shows line.new) doer.new result }

        // A fresh session serves a link from its beginning.
        ensures run { (first : LinkState) → IsFresh first self.old
            → IsLinkRun D.stands D.is_full D.may_lack D.did D.keeps first
            (L.shows line.old) doer.old (L.shows line.new) doer.new result (entry_count self.new) (newest self.new) }
        ensures number { number_of self.new ≡ number_of self.old }
        ensures kept { D.keeps doer.old doer.new }
        ensures stays { (o : Outcome) → closed_with self.old ≡ Some o
            → (result ≡ o) × (self.new ≡ self.old) × (L.shows line.new ≡ L.shows line.old) × (doer.new ≡ doer.old) }
    {
        for _ in rt.forever() {
            match self.turn(alloc, line, doer) {
                Turn::Closed(outcome) => return outcome,
                Turn::NotYet => thread::sleep(rt, Duration::from_millis(1)),
                Turn::Went => {}
            }
        }
        unreachable!()
    }

    /// Sends octets that are left to send; if there are none, uses octets that were read; if there are none of these
    /// either, receives octets and uses them. It uses octets up to the end of one packet at most.
    ///
    /// Returns `Went` only if the turn moved an octet on the link or used one that was read, and `NotYet` only if it
    /// did neither and the link's `waits` rose. After `Closed` every later turn returns the same. The link is read only
    /// if the whole expected output was written and every octet that was read is used. Octets are used only if the
    /// whole expected output was written.
    pub fn turn<L: Link + Clock, D: Doer>(
        &mut self,
        alloc: Global,
        line: &mut L,
        doer: &mut D,
    ) -> Turn
        ensures turn { IsTurn D.stands D.is_full D.may_lack D.did D.keeps
            self.old (L.shows line.old) doer.old self.new (L.shows line.new) doer.new result }
        ensures number { number_of self.new ≡ number_of self.old }
        ensures kept { D.keeps doer.old doer.new }
        ensures stays { (o : Outcome) → closed_with self.old ≡ Some o
            → (result ≡ Turn.Closed o) × (self.new ≡ self.old)
            × (L.shows line.new ≡ L.shows line.old) × (doer.new ≡ doer.old) }
    {
        if let Some(outcome) = self.closed {
            return Turn::Closed(outcome);
        }
        if !self.conversation.sender.outbox.is_empty() {
            return match self.conversation.sender.outbox.flush(line) {
                Sent::Bytes(_) => Turn::Went,
                Sent::NotYet => Turn::NotYet,
                Sent::Failed => self.close(Outcome::WriteFault),
            };
        }
        if !self.inbox.is_empty() {
            return self.consume(alloc, line, doer);
        }
        if self.used == SPENT {
            return self.close(Outcome::Spent);
        }
        let most = PIECE.min((SPENT - self.used) as usize);
        match self.inbox.refill(line, most) {
            Got::Bytes(_) => self.consume(alloc, line, doer),
            Got::NotYet => Turn::NotYet,
            Got::Failed => self.close(Outcome::ReadFault),
            Got::End => {
                let outcome = self.end();
                self.close(outcome)
            }
        }
    }

    /// Uses octets that were read, up to the end of one packet.
    fn consume<L: Link + Clock, D: Doer>(
        &mut self,
        alloc: Global,
        line: &mut L,
        doer: &mut D,
    ) -> Turn
        requires going { closed_with self.old ≡ None }
        requires sent { unsent self.old ≡ [] }
        requires read { 0 < length (unread self.old) }
        ensures consumes { Consumes D.stands D.is_full D.may_lack D.did D.keeps
            self.old (L.shows line.old) doer.old self.new (L.shows line.new) doer.new result }
        ensures number { number_of self.new ≡ number_of self.old }
        ensures kept { D.keeps doer.old doer.new }
    {
        let taken = self.reader.read(self.inbox.as_slice());
        self.inbox.advance(taken.octets);
        self.used += taken.octets as u64;
        match taken.found {
            Found::More => Turn::Went,
            Found::Opened(request) => {
                self.conversation.open(&request);
                Turn::Went
            }
            Found::Message => self.handle(alloc, line, doer),
            Found::Disconnected => {
                let outcome = self.end();
                self.close(outcome)
            }
            Found::Fault(fault) => {
                let at = self.reader.place();
                self.close(Outcome::of_fault(fault, at))
            }
        }
    }

    /// Handles the message that is complete.
    fn handle<L: Link + Clock, D: Doer>(
        &mut self,
        alloc: Global,
        line: &mut L,
        doer: &mut D,
    ) -> Turn
        requires going { closed_with self.old ≡ None }
        requires sent { unsent self.old ≡ [] }
        requires whole { HasMessage self.old.reader }
        requires some { entry_count self.old < used_of self.old }
        ensures handles { Handles D.stands D.is_full D.may_lack D.did D.keeps
            self.old (L.shows line.old) doer.old self.new (L.shows line.new) doer.new result }
        ensures number { number_of self.new ≡ number_of self.old }
        ensures kept { D.keeps doer.old doer.new }
    {
        let at = self.reader.place();
        match self
            .conversation
            .message(alloc, self.reader.message(), line, doer)
        {
            Handled::Answered => Turn::Went,
            Handled::Entered(number) => {
                self.count += 1;
                self.newest = Some(number);
                Turn::Went
            }
            Handled::NoMemory => self.close(Outcome::Memory),
            Handled::NotS7 => self.close(Outcome::NotS7 { at }),
        }
    }

    /// The outcome if the client sends nothing more.
    fn end(&self) -> Outcome
        ensures torn { (b : List ℕ) → HasRead self.now.reader b → result ≡ torn_or_ended (torn_of OpensByRequest b) }
        ensures octets { (torn : Option ℕ) × (result ≡ torn_or_ended torn) }
    {
        Outcome::of_torn(self.reader.torn())
    }

    /// Closes the link with this outcome.
    fn close(&mut self, outcome: Outcome) -> Turn
        ensures result { result ≡ Turn.Closed outcome }
        ensures closed { closed_with self.new ≡ Some outcome }
        ensures number { number_of self.new ≡ number_of self.old }
        ensures reader { self.new.reader ≡ self.old.reader }
        ensures inbox { self.new.inbox ≡ self.old.inbox }
        ensures conversation { self.new.conversation ≡ self.old.conversation }
        ensures used { self.new.used ≡ self.old.used }
        ensures count { self.new.count ≡ self.old.count }
        ensures newest { self.new.newest ≡ self.old.newest }
    {
        self.closed = Some(outcome);
        Turn::Closed(outcome)
    }
}
