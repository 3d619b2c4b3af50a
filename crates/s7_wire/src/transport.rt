//! What the packets of a link give: the opening, the messages, and how the link ends.
ghost use Rattle.std.specs.Prelude.{◌≡◌, ◌≤◌, None, false};
ghost use Rattle.std.specs.Option.{ForSome};
ghost use Rattle.s7_cotp.specs.Gathered.{is_fault};
ghost use Rattle.s7_wire.specs.Bounds.{message_limit};

use crate::found::{Ended, Found, Opening, ReadFault};
use crate::limits::{FIRST_LIMIT, HEADERS, MESSAGE_LIMIT};
use crate::sizes::tpdu_size;
use s7_cotp::{Connection, Joined, Joiner, Tpdu, read_tpdu};
use s7_outer::Memory;
use std::alloc::Global;

/// The number of octets of a packet before its body.
const HEADER: usize = 4;

/// What was read from the packets so far.
#[derive(Drop)]
pub(crate) struct Transport {
    /// The TPDU that opens the link.
    pub(crate) opening: Opening,
    /// Holds the message that isn't whole, or the last one.
    pub(crate) joiner: Joiner,
    /// The TPDU size, from 128 to 8,192; `None` before the opening.
    pub(crate) size: Option<u16>,
    /// The number of octets of the packets so far.
    pub(crate) at: u64,
    /// The number of octets before the last packet, which was whole or at fault.
    pub(crate) place: u64,
    /// Why nothing more is read, if the link has ended.
    pub(crate) ended: Option<Ended>,
    ghost joins: { joiner.limit ≡ message_limit },
    ghost least_size: { ForSome size (λ n. 128 ≤ n) },
    ghost most_size: { ForSome size (λ n. n ≤ 8192) },
    ghost going: { ended ≡ None → is_fault joiner.state ≡ false },
}

impl Transport {
    ghost use Rattle.std.specs.Prelude.{◌≡◌, ◌≢◌, ◌+◌, ◌≤◌, ℕ, List, length, IfOk, None, Some};
    ghost use Rattle.s7_cotp.specs.declared.tpdu.Connection.{Connection};
    ghost use Rattle.s7_cotp.specs.Told.{told_of, connection_of, CanBeWrittenAgain, CanBeWritten, fragment};
    ghost use Rattle.s7_cotp.specs.Told.{IsPaddedConnection, IsPaddedTpdu};
    ghost use Rattle.s7_wire.specs.Reading.{Progress, start, limit_by, opening_of, with_body, with_opening, connected};
    ghost use Rattle.s7_wire.specs.Reading.{with_ending, with_fault, after_packet, torn_by};
    ghost use Rattle.s7_wire.specs.Reads.{IsAt, Finds, found_by, ending_at, counted, unfinished_in};

    /// A link without packets. The buffer for messages is allocated here; returns `Memory` if that fails.
    pub(crate) fn new(alloc: Global, opening: Opening) -> Result<Transport, Memory>
        ensures at { IfOk result (λ t. IsAt t start) }
        ensures opening { IfOk result (λ t. t.opening ≡ opening) }
        ensures going { IfOk result (λ t. t.ended ≡ None) }
        ensures place { IfOk result (λ t. t.place ≡ 0) }
    {
        Ok(Transport {
            opening,
            joiner: Joiner::new(alloc, MESSAGE_LIMIT)?,
            size: None,
            at: 0,
            place: 0,
            ended: None,
        })
    }

    /// Back to a link without packets. The buffer stays.
    pub(crate) fn restart(&mut self)
        ensures at { IsAt self.new start }
        ensures opening { self.new.opening ≡ self.old.opening }
        ensures going { self.new.ended ≡ None }
        ensures place { self.new.place ≡ 0 }
    {
        self.joiner.restart();
        self.size = None;
        self.at = 0;
        self.place = 0;
        self.ended = None;
    }

    /// The greatest length of the next packet, in octets.
    pub(crate) fn limit(&self) -> u16
        ensures limit { result ≡ limit_by self.now.size }
        ensures least { 7 ≤ result }
        ensures most { result ≤ 8199 }
    {
        match self.size {
            None => FIRST_LIMIT,
            Some(size) => size + HEADERS,
        }
    }

    /// The number of octets of an open packet and an open message, if `held` octets are held of the packet; `None`
    /// if neither is open.
    pub(crate) fn torn(&self, held: usize) -> Option<usize>
        requires { held ≤ 8199 }
        ensures { result ≡ torn_by held (unfinished_in self.now.joiner) }
    {
        if held == 0 && !self.joiner.is_open() {
            return None;
        }
        Some(held + self.joiner.held())
    }

    /// Takes a packet with this body.
    pub(crate) fn packet(&mut self, body: &[u8]) -> Found
        requires going { self.old.ended ≡ None }
        ensures finds { (p : Progress) → IsAt self.old p
            → Finds p (with_body self.old.opening p body.now) self.new result }
        ensures message { result ≡ Found.Message → self.new.joiner.state ≡ Joined.Whole }
        ensures writable { (c : Connection) → result ≡ Found.Opened c → CanBeWritten c }
        ensures padded { (c : Connection) → result ≡ Found.Opened c → IsPaddedConnection c }
        ensures opening { self.new.opening ≡ self.old.opening }
    {
        let octets = body.len() + HEADER;
        let Ok(tpdu) = read_tpdu(body) else {
            return self.fault(ReadFault::BadTpdu);
        };
        match self.size {
            None => self.open(&tpdu, octets),
            Some(_) => self.connected(&tpdu, octets),
        }
    }

    /// Takes the first TPDU of the link, in a packet of this number of octets.
    fn open(&mut self, tpdu: &Tpdu<'_>, octets: usize) -> Found
        requires going { self.old.ended ≡ None }
        requires writable { CanBeWrittenAgain tpdu.now }
        requires padded { IsPaddedTpdu tpdu.now }
        ensures finds { (p : Progress) (body : List ℕ) → IsAt self.old p → octets ≡ length body + 4
            → Finds p (with_opening p body (opening_of self.old.opening (told_of tpdu.now))) self.new result }
        ensures message { result ≢ Found.Message }
        ensures writable { (c : Connection) → result ≡ Found.Opened c → CanBeWritten c }
        ensures padded { (c : Connection) → result ≡ Found.Opened c → IsPaddedConnection c }
        ensures opening { self.new.opening ≡ self.old.opening }
    {
        let Some(connection) = self.opening.connection(tpdu) else {
            return self.fault(ReadFault::Unexpected);
        };
        self.size = Some(tpdu_size(connection.size_code));
        self.advance(octets);
        Found::Opened(connection)
    }

    /// Takes a TPDU after the opening, in a packet of this number of octets.
    fn connected(&mut self, tpdu: &Tpdu<'_>, octets: usize) -> Found
        requires going { self.old.ended ≡ None }
        ensures finds { (p : Progress) (body : List ℕ) → IsAt self.old p → octets ≡ length body + 4
            → Finds p (connected p body (told_of tpdu.now)) self.new result }
        ensures message { result ≡ Found.Message → self.new.joiner.state ≡ Joined.Whole }
        ensures connected { (c : Connection) → result ≢ Found.Opened c }
        ensures opening { self.new.opening ≡ self.old.opening }
    {
        match tpdu {
            Tpdu::Fragment { last, user } => self.fragment(user, *last, octets),
            Tpdu::Disconnect { .. } => self.end(Ended::Disconnected),
            Tpdu::Connect(_) | Tpdu::Confirm(_) | Tpdu::Reject { .. } => {
                self.fault(ReadFault::Unexpected)
            }
        }
    }

    /// Takes a fragment, in a packet of this number of octets.
    fn fragment(&mut self, user: &[u8], last: bool, octets: usize) -> Found
        requires going { self.old.ended ≡ None }
        ensures finds { (p : Progress) (body : List ℕ) → IsAt self.old p → octets ≡ length body + 4
            → Finds p (connected p body (fragment last user.now)) self.new result }
        ensures message { result ≡ Found.Message → self.new.joiner.state ≡ Joined.Whole }
        ensures connected { (c : Connection) → result ≢ Found.Opened c }
        ensures opening { self.new.opening ≡ self.old.opening }
    {
        match self.joiner.add(user, last) {
            Joined::More => {
                self.advance(octets);
                Found::More
            }
            Joined::Whole => {
                self.advance(octets);
                Found::Message
            }
            Joined::TooManyFragments => {
                self.place = self.at;
                self.ended = Some(Ended::Faulted(ReadFault::TooManyFragments));
                Found::Fault(ReadFault::TooManyFragments)
            }
            Joined::TooLong => {
                self.place = self.at;
                self.ended = Some(Ended::Faulted(ReadFault::TooLong));
                Found::Fault(ReadFault::TooLong)
            }
        }
    }

    /// Ends the link, since the next packet is at fault.
    pub(crate) fn fault(&mut self, fault: ReadFault) -> Found
        requires going { self.old.ended ≡ None }
        ensures finds { (p : Progress) → IsAt self.old p → Finds p (with_fault p fault) self.new result }
        ensures result { result ≡ Found.Fault fault }
        ensures ended { self.new.ended ≡ Some (Ended.Faulted fault) }
        ensures opening { self.new.opening ≡ self.old.opening }
    {
        self.end(Ended::Faulted(fault))
    }

    /// Ends the link with the current packet.
    fn end(&mut self, ended: Ended) -> Found
        ensures result { result ≡ found_by ended }
        ensures ended { self.new.ended ≡ Some ended }
        ensures place { self.new.place ≡ self.old.at }
        ensures opening { self.new.opening ≡ self.old.opening }
        ensures joiner { self.new.joiner ≡ self.old.joiner }
        ensures size { self.new.size ≡ self.old.size }
        ensures at { self.new.at ≡ self.old.at }
    {
        self.place = self.at;
        self.ended = Some(ended);
        ended.found()
    }

    /// Counts a packet of this number of octets.
    fn advance(&mut self, octets: usize)
        ensures new { self.new ≡ record self.old { place = self.old.at; at = counted (self.old.at + octets) } }
    {
        self.place = self.at;
        self.at = self.at.saturating_add(octets as u64);
    }
}
