//! One of two partners.
ghost use Rattle.std.specs.Prelude.{◌≡◌, ◌+◌, ◌<◌, ◌≤◌, ◌&&◌, ◌||◌, ℕ, List, true, length, is_none};
ghost use Rattle.s7_wire.specs.Reads.{HasRead, size_at};
ghost use Rattle.s7_partner.specs.Fits.{is_sound, total_in, kept_room};

use crate::event::SendFault;
use crate::message::MOST_MESSAGE;
use crate::opening::{opening_by, starting};
use crate::role::Role;
use crate::size::TpduSize;
use crate::telegrams::number_after;
use s7_client::Config;
use s7_outer::{Buffer, Memory, Octets};
use s7_wire::{Inbox, Outbox, Reader};
use std::alloc::Global;

/// The greatest number of octets of a block.
const MOST_BLOCK: usize = 65_535;

/// The state of the link.
#[derive(Drop)]
pub(crate) enum Stage {
    /// The TPDU that opens the link is awaited.
    Opening,
    /// The negotiation, or its answer, is awaited.
    Negotiating,
    /// Fragments are exchanged, with this PDU.
    Going(u16),
    /// The link is closed, with this error number.
    Closed(u32),
}

/// A block that is being sent.
#[derive(Drop)]
pub(crate) struct Sending {
    /// The number of the send, from 1 to 255.
    pub(crate) number: u8,
    /// The R_ID under which it is sent.
    pub(crate) rid: u32,
    /// The octets of the block.
    pub(crate) body: Octets,
    /// The offset of the fragment in flight, or of the next one.
    pub(crate) from: usize,
    /// The sequence of that fragment, once it was sent.
    pub(crate) sequence: Option<u16>,
    ghost within: { from < length body },
    ghost most: { length body ≤ 65535 },
}

/// A block of which fragments have come. The partner's buffer holds its octets so far.
#[derive(Clone, Copy, Drop)]
pub(crate) struct Receiving {
    /// The number of the send.
    pub(crate) number: u8,
    /// The R_ID under which it is sent.
    pub(crate) rid: u32,
    /// The number of octets of the whole block.
    pub(crate) total: u16,
}

/// A block that has arrived whole, and the sequence and number for the acknowledgement of its last fragment.
#[derive(Clone, Copy, Drop)]
pub(crate) struct Arrived {
    /// The R_ID under which it was sent.
    pub(crate) rid: u32,
    /// The sequence of its last fragment.
    pub(crate) sequence: u16,
    /// The number of the send.
    pub(crate) number: u8,
}

/// One of two partners. It is given blocks to send, one at a time, and it is polled over its link.
#[derive(Drop)]
pub struct Partner {
    pub(crate) role: Role,
    pub(crate) config: Config,
    pub(crate) reader: Reader,
    pub(crate) inbox: Inbox,
    pub(crate) outbox: Outbox,
    /// The message that is being written, with room for 1,920 octets.
    pub(crate) message: Buffer,
    /// The state of the link.
    pub(crate) stage: Stage,
    /// The sequence of the last telegram that this side numbered.
    pub(crate) sequence: u16,
    /// The number of the last send.
    pub(crate) number: u8,
    /// The block that is being sent and isn't acknowledged yet.
    pub(crate) sending: Option<Sending>,
    /// The block that is being received.
    pub(crate) receiving: Option<Receiving>,
    /// The octets of the block that is being received, or that has arrived and wasn't handed out yet. The buffer
    /// has room for 65,535.
    pub(crate) octets: Buffer,
    /// A block that has arrived whole and wasn't handed out yet.
    pub(crate) whole: Option<Arrived>,
    /// A block that was handed out and whose last fragment isn't acknowledged yet.
    pub(crate) handed: Option<Arrived>,
    ghost least_pdu: { 64 ≤ config.pdu },
    ghost most_pdu: { config.pdu ≤ 1920 },
    ghost message_room: { message.room ≡ 1920 },
    ghost block_room: { octets.room ≡ 65535 },
    ghost came: { length octets.octets ≤ total_in receiving },
    ghost sound: { is_sound stage (size_at reader) (is_none whole && is_none handed) ≡ true },
    ghost one: { (is_none whole || is_none handed) ≡ true },
    ghost kept: { kept_room (is_none sending) (is_none whole && is_none handed) ≤ outbox.room },
    ghost bounded: { length outbox.unsent + outbox.room ≤ 4096 },
    ghost reads: { ∥ ((b : List ℕ) × HasRead reader b) ∥₁ },
}

impl Partner {
    ghost use Rattle.std.specs.Prelude.{◌≡◌, None, Some, true, false, is_none, not, IfOk, OnOk, IfErr, OnErr};
    ghost use Rattle.s7_wire.specs.Reads.{size_at};
    ghost use Rattle.s7_partner.specs.Held.{closed_of, sending_of};
    ghost use Rattle.s7_partner.specs.Calls.{IsNew, IsRefused, IsGiven};

    /// A partner whose link isn't open yet. The PDU of `config` is from 64 to 1,920, its jobs from 1 to 8, its
    /// polls at least 1. An active partner has its connection request to send. Returns `Memory` if the allocation
    /// of its buffers fails.
    pub fn new(alloc: Global, role: Role, config: Config) -> Result<Partner, Memory>
        requires least_pdu { 64 ≤ config.pdu }
        requires most_pdu { config.pdu ≤ 1920 }
        requires least_jobs { 1 ≤ config.jobs }
        requires most_jobs { config.jobs ≤ 8 }
        requires polls { 1 ≤ config.polls }
        ensures { IfOk result (λ p. IsNew p role config) }
    {
        Ok(Partner {
            role,
            config,
            reader: Reader::new(alloc, opening_by(role))?,
            inbox: Inbox::new(),
            outbox: starting(role, &config),
            message: Buffer::new(alloc, MOST_MESSAGE)?,
            stage: Stage::Opening,
            sequence: 0,
            number: 0,
            sending: None,
            receiving: None,
            octets: Buffer::new(alloc, MOST_BLOCK)?,
            whole: None,
            handed: None,
        })
    }

    /// The error number with which the partner was closed; `None` if it isn't closed.
    pub fn closed(&self) -> Option<u32>
        ensures { result ≡ closed_of self.now }
    {
        match self.stage {
            Stage::Closed(code) => Some(code),
            Stage::Opening | Stage::Negotiating | Stage::Going(_) => None,
        }
    }

    /// Whether it was given a block that isn't acknowledged yet.
    pub fn is_sending(&self) -> bool
        ensures { result ≡ not (is_none (sending_of self.now)) }
    {
        self.sending.is_some()
    }

    /// Gives the partner a block of 1 to 65,535 octets to send with this R_ID, one at a time. A poll reports when
    /// the block has arrived whole at the other side. A block that isn't accepted is handed back with the first
    /// cause that applies, and nothing changes. Nothing is allocated.
    pub fn b_send(&mut self, rid: u32, body: Octets) -> Result<(), (SendFault, Octets)>
        ensures refused { IfErr result (λ e. IsRefused self.old body e.0 × (e.1 ≡ body)) }
        ensures unchanged { OnErr result (self.new ≡ self.old) }
        ensures given { OnOk result (IsGiven self.old self.new rid body) }
    {
        if self.closed().is_some() {
            return Err((SendFault::Closed, body));
        }
        if self.sending.is_some() {
            return Err((SendFault::Busy, body));
        }
        let len = body.as_slice().len();
        if len == 0 || len > MOST_BLOCK {
            return Err((SendFault::Size, body));
        }
        let number = number_after(self.number);
        self.number = number;
        self.sending = Some(Sending {
            number,
            rid,
            body,
            from: 0,
            sequence: None,
        });
        self.put_if_going();
        Ok(())
    }

    /// The TPDU size of the link, which is open.
    pub(crate) fn size(&self) -> TpduSize
        requires { is_none (size_at self.now.reader) ≡ false }
        ensures { size_at self.now.reader ≡ Some result.octets }
    {
        match self.reader.size() {
            Some(octets) => TpduSize { octets },
            None => unreachable!(),
        }
    }
}
