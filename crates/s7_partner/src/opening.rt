//! Opening a link: the connection request and its confirm, and the negotiation.
ghost use Rattle.std.specs.Prelude.{◌≡◌, ◌+◌, ◌==◌, ◌&&◌, ◌≤◌, [], length, if◌then◌else◌, Some, None, Err, Ok, IfOk};
ghost use Rattle.std.specs.Prelude.{IfSome};
ghost use Rattle.s7_outer.specs.Numbers.{two_octets};
ghost use Rattle.s7_cotp.specs.Told.{tsap_of, connection_of, CanBeWritten};
ghost use Rattle.s7_cotp.specs.Spelling.{spelling_of_confirm};
ghost use Rattle.s7_tpkt.specs.Packets.{packet_of};
ghost use Rattle.s7_header.specs.Header.{header_of, params_of, body_of};
ghost use Rattle.s7_header.specs.Negotiation.{negotiation_spelling, jobs_granted, least_pdu, most_pdu};
ghost use Rattle.s7_wire.specs.Bounds.{most_packets, most_waiting};
ghost use Rattle.s7_wire.specs.Sent.{sent_message};
ghost use Rattle.s7_dialogue.specs.Question.{message_octets, negotiates};
ghost use Rattle.s7_dialogue.specs.declared.config.Config.{Config as Asking};
ghost use Rattle.s7_dialogue.specs.Answer.{answer_of, acknowledged, refuses};
ghost use Rattle.s7_dialogue.specs.Dialogue.{asked_by, taken_grant};
ghost use Rattle.s7_dialogue.specs.Course.{connect_octets};
ghost use Rattle.s7_partner.specs.States.{starting_octets, confirmed, granted_by};
ghost use Rattle.s7_partner.specs.Partners.{opening_by};
ghost use Rattle.s7_partner.specs.Granting.{granted_pdu, pdu_of_answer, pdu_of_grant, asked_in};
ghost use Rattle.s7_partner.specs.Outboxes.{Puts};

use crate::message::begin_message;
use crate::partner::{Partner, Stage};
use crate::role::Role;
use crate::size::TpduSize;
use crate::step::Step;
use crate::telegrams::{put_piece, sequence_after};
use s7_client::Config;
use s7_client::codes::{INVALID_ANSWER, NEGOTIATION_FAILED};
use s7_cotp::{Connection, Tsap, write_confirm, write_connect};
use s7_header::{
    Header, Kind, LEAST_PDU, MOST_JOBS, Negotiation, parts, read_header, read_negotiate,
    write_negotiate,
};
use s7_outer::Buffer;
use s7_wire::{Opening, Outbox, put_message};

/// The code of the TPDU size to ask for: 1,024 octets.
const SIZE_CODE: u8 = 0x0A;

/// The reference of each side.
const REFERENCE: u16 = 1;

/// The greatest number of octets of a connection request or a confirm.
const CONNECTION: usize = 64;

/// The sequence of the negotiation.
const FIRST_SEQUENCE: u16 = 1;

/// The TPDU that opens the link for this partner: the confirm for an active one, the request for a passive one.
pub(crate) fn opening_by(role: Role) -> Opening
    ensures { result ≡ opening_by role }
{
    match role {
        Role::Active => Opening::Confirm,
        Role::Passive => Opening::Request,
    }
}

/// What is to be sent at the start: the connection request of an active partner, and nothing for a passive one.
pub(crate) fn starting(role: Role, config: &Config) -> Outbox
    ensures unsent { result.unsent ≡ starting_octets role config.now }
    ensures room { most_packets ≤ result.room }
    ensures bounded { length result.unsent + result.room ≤ most_waiting }
{
    let mut outbox = Outbox::new();
    match role {
        Role::Active => put_connect(&mut outbox, config),
        Role::Passive => {}
    }
    outbox
}

/// Queues the connection request.
fn put_connect(outbox: &mut Outbox, config: &Config)
    requires { outbox.old ≡ record { unsent = []; room = most_waiting } }
    ensures unsent { outbox.new.unsent ≡ connect_octets config.now }
    ensures room { outbox.new.room + length (connect_octets config.now) ≡ most_waiting }
    ensures few { length (connect_octets config.now) ≤ 64 }
{
    let request = Connection {
        dst_ref: 0,
        src_ref: REFERENCE,
        class: 0,
        size_code: SIZE_CODE,
        calling: tsap(config.calling),
        called: tsap(config.called),
    };
    let mut octets = [0u8; CONNECTION];
    let len = write_connect(&request, &mut octets);
    outbox.put(&octets[..len]);
}

/// A TSAP of two octets.
fn tsap(number: u16) -> Tsap
    ensures octets { tsap_of result ≡ two_octets number }
    ensures len { result.len ≡ 2 }
{
    let mut octets = [0; 16];
    octets[0] = (number / 256) as u8;
    octets[1] = (number % 256) as u8;
    Tsap { octets, len: 2 }
}

/// Queues the confirm of a connection request.
fn put_accept(outbox: &mut Outbox, request: &Connection)
    requires writable { CanBeWritten request.now }
    requires room { most_packets ≤ outbox.old.room }
    ensures { Puts outbox.old outbox.new (packet_of (spelling_of_confirm (confirmed (connection_of request.now)))) }
{
    let confirm = Connection {
        dst_ref: request.src_ref,
        src_ref: REFERENCE,
        class: 0,
        size_code: request.size_code,
        calling: request.calling,
        called: request.called,
    };
    let mut octets = [0u8; CONNECTION];
    let len = write_confirm(&confirm, &mut octets);
    outbox.put(&octets[..len]);
}

/// Queues a message with the parameters of a negotiation.
fn put_negotiation(
    outbox: &mut Outbox,
    message: &mut Buffer,
    size: TpduSize,
    kind: Kind,
    sequence: u16,
    negotiation: &Negotiation,
)
    requires message { message.old.room ≡ 1920 }
    requires room { most_packets ≤ outbox.old.room }
    ensures puts { Puts outbox.old outbox.new (sent_message size.octets
        (message_octets kind sequence (negotiation_spelling negotiation.now) [])) }
    ensures message { message.new.room ≡ 1920 }
{
    let mut params = [0u8; 8];
    write_negotiate(negotiation, &mut params);
    begin_message(message, kind, sequence, &params, 0);
    put_message(outbox, size.octets, message.as_slice());
}

/// The negotiation that an active partner asks for.
fn asked_by(config: &Config) -> Negotiation
    ensures { result ≡ asked_by config.now }
{
    Negotiation {
        calling: config.jobs,
        called: config.jobs,
        pdu: config.pdu,
    }
}

/// The PDU that the answer to the negotiation grants, or an error number.
#[tactic(auto, unfolding(s7_dialogue::specs::Answer::answer_of))]
fn read_grant(config: &Config, message: &[u8]) -> Result<u16, u32>
    ensures granted { result ≡ granted_pdu config.now message.now }
    ensures least { IfOk result (λ pdu. 64 ≤ pdu) }
    ensures most { IfOk result (λ pdu. pdu ≤ config.now.pdu) }
{
    let Ok(header) = read_header(message) else {
        return Err(INVALID_ANSWER);
    };
    if header.sequence != FIRST_SEQUENCE {
        return Err(INVALID_ANSWER);
    }
    let (params, body) = parts(message, &header);
    match header.kind {
        Kind::Ack => Err(refusal_code(&header)),
        Kind::AckData => read_granted(config, header.error, params, body),
        Kind::Job | Kind::User => Err(INVALID_ANSWER),
    }
}

/// The error number for an acknowledgement without data. It is a refusal only if nothing follows its header.
fn refusal_code(header: &Header) -> u32
    ensures { (config : Asking) → Err result ≡ pdu_of_answer config
        (if header.now.param_len == 0 && header.now.body_len == 0 then Some (refuses header.now.error) else None) }
{
    if header.param_len == 0 && header.body_len == 0 {
        NEGOTIATION_FAILED
    } else {
        INVALID_ANSWER
    }
}

/// The PDU that an acknowledgement with this error word, these parameters and these data grants, or an error
/// number.
fn read_granted(config: &Config, error: u16, params: &[u8], body: &[u8]) -> Result<u16, u32>
    ensures granted { result ≡ pdu_of_answer config.now
        (if error == 0 then acknowledged (negotiates (asked_by config.now)) params.now body.now else None) }
    ensures least { IfOk result (λ pdu. 64 ≤ pdu) }
    ensures most { IfOk result (λ pdu. pdu ≤ config.now.pdu) }
{
    if error != 0 || !body.is_empty() {
        return Err(INVALID_ANSWER);
    }
    let Ok(granted) = read_negotiate(params) else {
        return Err(INVALID_ANSWER);
    };
    if granted.pdu < LEAST_PDU || granted.pdu > config.pdu {
        return Err(NEGOTIATION_FAILED);
    }
    Ok(granted.pdu)
}

/// The negotiation that a message asks for, with its sequence; `None` if it isn't one that can be granted.
fn read_asked(message: &[u8]) -> Option<(u16, Negotiation)>
    ensures asked { result ≡ asked_in message.now }
    ensures least { IfSome result (λ asked. 64 ≤ asked.1.pdu) }
{
    let Ok(header) = read_header(message) else {
        return None;
    };
    if header.kind != Kind::Job {
        return None;
    }
    let (params, _) = parts(message, &header);
    match read_negotiate(params) {
        Ok(asked) if asked.pdu >= LEAST_PDU => Some((header.sequence, asked)),
        Ok(_) | Err(_) => None,
    }
}

/// What a passive partner grants of a negotiation.
fn granted_by(config: &Config, asked: &Negotiation) -> Negotiation
    ensures { result ≡ granted_by config.now asked.now }
{
    Negotiation {
        calling: jobs_granted(asked.calling),
        called: jobs_granted(asked.called),
        pdu: asked.pdu.min(config.pdu),
    }
}

/// The number of jobs granted.
fn jobs_granted(asked: u16) -> u16
    ensures { result ≡ jobs_granted asked }
{
    asked.min(MOST_JOBS).max(1)
}

impl Partner {
    ghost use Rattle.std.specs.Prelude.{false, is_none};
    ghost use Rattle.s7_wire.specs.Reads.{HasMessage, size_at, message_at};
    ghost use Rattle.s7_partner.specs.declared.partner.Stage.TheVariants.{Negotiating};
    ghost use Rattle.s7_partner.specs.States.{if_sending, goes, negotiated};
    ghost use Rattle.s7_partner.specs.Fits.{room_unless};
    ghost use Rattle.s7_partner.specs.Granting.{by_pdu, by_asked};
    ghost use Rattle.s7_partner.specs.At.{Reaches, KeepsLink, KeepsRest, GoesOut, IsIdle, Does, OpensBy};

    /// Opens the link by this connection request or confirm: an active partner asks for the negotiation, a passive
    /// one sends its confirm.
    pub(crate) fn open(&mut self, connection: &Connection)
        requires idle { IsIdle self.old }
        requires writable { CanBeWritten connection.now }
        ensures keeps { KeepsLink self.old self.new }
        ensures opens { OpensBy self.old self.new (connection_of connection.now) }
        ensures rest { KeepsRest self.old self.new }
    {
        match self.role {
            Role::Active => {
                self.sequence = FIRST_SEQUENCE;
                put_negotiation(
                    &mut self.outbox,
                    &mut self.message,
                    TpduSize::of(connection.size_code),
                    Kind::Job,
                    FIRST_SEQUENCE,
                    &asked_by(&self.config),
                );
            }
            Role::Passive => put_accept(&mut self.outbox, connection),
        }
    }

    /// Takes the message as the negotiation, or as its answer.
    pub(crate) fn negotiate(&mut self) -> Step
        requires negotiating { self.old.stage ≡ Negotiating }
        requires idle { IsIdle self.old }
        requires whole { HasMessage self.old.reader }
        ensures reaches { Reaches self.old self.new
            (λ s. negotiated self.old.role self.old.config s (message_at self.old.reader)) }
        ensures does { Does self.old self.new result }
    {
        match self.role {
            Role::Active => self.take_grant(),
            Role::Passive => self.grant(),
        }
    }

    /// Takes the message as the answer to the negotiation.
    fn take_grant(&mut self) -> Step
        requires negotiating { self.old.stage ≡ Negotiating }
        requires idle { IsIdle self.old }
        requires whole { HasMessage self.old.reader }
        ensures reaches { Reaches self.old self.new
            (λ s. by_pdu s (granted_pdu self.old.config (message_at self.old.reader))) }
        ensures does { Does self.old self.new result }
    {
        match read_grant(&self.config, self.reader.message()) {
            Ok(pdu) => self.set_out(pdu),
            Err(code) => self.close(code),
        }
    }

    /// Takes the message as the negotiation, and answers it.
    fn grant(&mut self) -> Step
        requires negotiating { self.old.stage ≡ Negotiating }
        requires idle { IsIdle self.old }
        requires whole { HasMessage self.old.reader }
        ensures reaches { Reaches self.old self.new
            (λ s. by_asked self.old.config s (asked_in (message_at self.old.reader))) }
        ensures does { Does self.old self.new result }
    {
        let Some((sequence, asked)) = read_asked(self.reader.message()) else {
            return self.close(NEGOTIATION_FAILED);
        };
        let granted = granted_by(&self.config, &asked);
        let size = self.size();
        put_negotiation(
            &mut self.outbox,
            &mut self.message,
            size,
            Kind::AckData,
            sequence,
            &granted,
        );
        self.set_out(granted.pdu)
    }

    /// Begins to exchange fragments with this PDU, and queues the first fragment of a block that was given before, if
    /// there is one.
    fn set_out(&mut self, pdu: u16) -> Step
        requires negotiating { self.old.stage ≡ Negotiating }
        requires least { 64 ≤ pdu }
        requires most { pdu ≤ 1920 }
        requires room { most_packets ≤ self.old.outbox.room }
        ensures reaches { Reaches self.old self.new (λ s. goes s pdu) }
        ensures does { Does self.old self.new result }
    {
        self.stage = Stage::Going(pdu);
        self.put_next(pdu);
        Step::Went
    }

    /// Queues the next fragment of the block being sent, if the link was negotiated.
    pub(crate) fn put_if_going(&mut self)
        requires { most_packets + room_unless (is_none self.old.whole && is_none self.old.handed)
            ≤ self.old.outbox.room }
        ensures keeps { KeepsLink self.old self.new }
        ensures goes { GoesOut self.old self.new }
        ensures rest { KeepsRest self.old self.new }
    {
        let Stage::Going(pdu) = self.stage else {
            return;
        };
        self.put_next(pdu);
    }

    /// Queues the next fragment of the block being sent, if there is one.
    pub(crate) fn put_next(&mut self, pdu: u16)
        requires least { 64 ≤ pdu }
        requires most { pdu ≤ 1920 }
        requires sized { is_none (size_at self.old.reader) ≡ false }
        requires room { most_packets + room_unless (is_none self.old.whole && is_none self.old.handed)
            ≤ self.old.outbox.room }
        ensures reaches { Reaches self.old self.new (λ s. if_sending s pdu s.sending) }
        ensures rest { KeepsRest self.old self.new }
    {
        let size = self.size();
        let Some(sending) = &mut self.sending else {
            return;
        };
        let sequence = sequence_after(self.sequence);
        put_piece(
            &mut self.outbox,
            &mut self.message,
            size,
            pdu,
            sequence,
            sending,
        );
        sending.sequence = Some(sequence);
        self.sequence = sequence;
    }
}
