//! An answer to user data that is sent in slices.
ghost use Rattle.std.specs.Prelude.{◌≡◌, ◌+◌, ◌<◌, ◌≤◌};
ghost use Rattle.s7_header.specs.Negotiation.{least_pdu};
ghost use Rattle.s7_session.specs.Judgement.{slice_room};

use s7_header::UserParams;
use s7_outer::{Buffer, Memory};
use std::alloc::Global;
use std::marker::Model;

/// The number of octets of the longest answer to user data.
const LONGEST: usize = 8_192;

/// The octets that an answer to user data has besides its data octets: its header, its parameters and the head of its
/// data.
const FRONT: usize = 26;

/// The difference between the group of an answer and the group of its request.
const ANSWER: u8 = 0x40;

/// Identifies an answer to user data.
#[derive(Clone, Copy, Debug, PartialEq, Eq)]
pub(crate) struct AnswerId {
    /// The group of the request.
    pub(crate) group: u8,
    /// The subfunction of the request.
    pub(crate) subfunction: u8,
    /// The sequence octet of the answer.
    pub(crate) sequence: u8,
    ghost fits: { group + 64 < 256 },
}

impl AnswerId {
    ghost use Rattle.std.specs.Prelude.{◌≡◌};
    ghost use Rattle.s7_session.specs.Judgement.{user_answer, group_of_answer};

    /// The parameters of the answer, with this last-unit octet and this error word.
    pub(crate) fn params(self, more: u8, error: u16) -> UserParams
        ensures { result ≡ record (user_answer (group_of_answer self.group) self.subfunction self.sequence error) {
          more = more;
        } }
    {
        UserParams {
            answer: true,
            group: self.group + ANSWER,
            sub: self.subfunction,
            sequence: self.sequence,
            unit: 0,
            more,
            error,
        }
    }
}

/// The octets of an answer. The first of them were sent, and the rest may be asked for. Contracts see the answer's id
/// and the rest.
#[derive(Drop)]
pub(crate) struct Slices {
    answer: AnswerId,
    octets: Buffer,
    /// The number of octets that were sent.
    sent: usize,
}

impl Model for Slices {
    ghost use Rattle.std.specs.Prelude.{◌≡◌, ◌≤◌, length, drop};
    ghost use Rattle.s7_session.specs.LinkState.{Sliced};

    ghost Value = { Sliced };

    ghost view = { λ s. record {
      group = s.answer.group;
      subfunction = s.answer.subfunction;
      sequence = s.answer.sequence;
      rest = drop s.sent s.octets.octets;
    } };

    ghost invariant = { λ s. (s.sent ≤ length s.octets.octets) × (s.octets.room ≡ 8192) };
}

impl Slices {
    ghost use Rattle.std.specs.Prelude.{◌≡◌, ◌≤◌, [], length, drop, IfOk};
    ghost use Rattle.s7_session.specs.Slices.{is_held};

    /// No octets, and room for the longest answer, which is allocated here. Returns `Memory` if the allocation fails.
    pub(crate) fn new(alloc: Global) -> Result<Slices, Memory>
        ensures { IfOk result (λ s. s.rest ≡ []) }
    {
        Ok(Slices {
            answer: AnswerId {
                group: 0,
                subfunction: 0,
                sequence: 0,
            },
            octets: Buffer::new(alloc, LONGEST)?,
            sent: 0,
        })
    }

    /// The octets that weren't sent yet.
    pub(crate) fn rest(&self) -> &[u8]
        ensures { result.now ≡ self.now.rest }
    {
        &self.octets.as_slice()[self.sent..]
    }

    /// Whether octets are left of the answer that is asked for.
    pub(crate) fn is_of(&self, asked: &UserParams) -> bool
        ensures { result ≡ is_held self.now asked.now }
    {
        !self.rest().is_empty()
            && self.answer.group == asked.group
            && self.answer.subfunction == asked.sub
            && self.answer.sequence == asked.sequence
    }

    /// Holds the octets of a new answer, at most 8,192, of which none was sent.
    pub(crate) fn hold(&mut self, octets: &[u8])
        requires { length octets.now ≤ 8192 }
        ensures { self.new.rest ≡ octets.now }
    {
        self.octets.clear();
        self.octets.add(octets);
        self.sent = 0;
    }

    /// Records that the next `count` octets were sent, or all that are left if there are fewer, as the answer of this
    /// id.
    pub(crate) fn advance(&mut self, answer: AnswerId, count: usize)
        ensures group { self.new.group ≡ answer.group }
        ensures subfunction { self.new.subfunction ≡ answer.subfunction }
        ensures sequence { self.new.sequence ≡ answer.sequence }
        ensures rest { self.new.rest ≡ drop count self.old.rest }
    {
        let left = self.octets.as_slice().len() - self.sent;
        self.answer = answer;
        self.sent += count.min(left);
    }

    /// Drops the octets.
    pub(crate) fn clear(&mut self)
        ensures { self.new.rest ≡ [] }
    {
        self.octets.clear();
        self.sent = 0;
    }
}

/// The greatest number of octets in one slice of an answer to user data, on a link with this PDU.
pub(crate) fn slice_room(pdu: u16) -> usize
    requires { least_pdu ≤ pdu }
    ensures { result ≡ slice_room pdu }
{
    usize::from(pdu) - FRONT
}
