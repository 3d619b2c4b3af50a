//! Messages and confirms that the server sends.
ghost use Rattle.std.specs.Prelude.{◌≡◌, ◌+◌, ◌<◌, ◌≤◌, [], ◌++◌, length, true, IfOk};
ghost use Rattle.s7_cotp.specs.Told.{connection_of};
ghost use Rattle.s7_cotp.specs.Spelling.{spelling_of_confirm};
ghost use Rattle.s7_tpkt.specs.Packets.{packet_of};
ghost use Rattle.s7_header.specs.Header.{IsHeader, spelling_of};
ghost use Rattle.s7_header.specs.Negotiation.{negotiation_spelling, least_pdu, most_pdu};
ghost use Rattle.s7_plant.specs.Requests.{HasAtMost};
ghost use Rattle.s7_plant.specs.Replies.{said_of};
ghost use Rattle.s7_session.specs.Judgement.{answer_octets, refusal_octets, reply_octets};
ghost use Rattle.s7_session.specs.Judgement.{user_octets, user_data, slice_octets, slice_answer};
ghost use Rattle.s7_session.specs.ServerJobs.{function_of};
ghost use Rattle.s7_session.specs.Transfers.{server_job_octets};
ghost use Rattle.s7_block.specs.Slices.{image_room};
ghost use Rattle.s7_wire.specs.Bounds.{most_packets, most_waiting};
ghost use Rattle.s7_wire.specs.Sent.{sent_message};

use crate::held::{ServerFunction, ServerJob};
use crate::password::NO_DATA;
use crate::size::TpduSize;
use crate::slices::{AnswerId, slice_room};
use s7_block::{BlockName, NAME, write_name};
use s7_cotp::{Connection, write_confirm};
use s7_header::{
    Header, Kind, MOST_PDU, Negotiation, UserParams, write_header, write_negotiate, write_refusal,
    write_user,
};
use s7_outer::{Buffer, Memory};
use s7_plant::Reply;
use s7_wire::{Outbox, put_message};
use std::alloc::Global;

/// The greatest number of octets of a message that the server sends.
const MOST: usize = MOST_PDU as usize;

/// The greatest number of octets of a confirm: its header, a size and two TSAPs.
const CONFIRM: usize = 64;

/// The function that announces a download.
pub(crate) const ANNOUNCE: u8 = 0x1A;

/// The function that asks for a piece of a download.
pub(crate) const SEND_PIECE: u8 = 0x1B;

/// The function that closes a download.
pub(crate) const CLOSE: u8 = 0x1C;

/// The function that starts an upload.
pub(crate) const START: u8 = 0x1D;

/// The function that asks for a slice of an upload.
pub(crate) const SLICE: u8 = 0x1E;

/// The function that ends an upload.
pub(crate) const END: u8 = 0x1F;

/// The length of a block's name in parameters.
pub(crate) const NAME_LENGTH: u8 = 0x09;

/// The octet with which a block's name begins.
pub(crate) const NAME_MARK: u8 = 0x5F;

/// The octets between the length of an image's octets and the octets themselves.
pub(crate) const IMAGE: [u8; 2] = [0x00, 0xFB];

/// The octets that a telegram with octets of an image has besides them: its header, its parameters and the head of its
/// data.
const IMAGE_FRONT: usize = 18;

/// The last octet of the name of a block that is downloaded: `P`, for where the block is.
pub(crate) const AT_P: u8 = 0x50;

/// The index of the upload's id in the parameters of the answer to its start.
pub(crate) const ID_PLACE: usize = 7;

/// Builds messages, and holds the octets that are to be sent.
#[derive(Drop)]
pub(crate) struct Sender {
    message: Buffer,
    pub(crate) outbox: Outbox,
    ghost room: { message.room ≡ most_pdu },
}

impl Sender {
    /// A sender with nothing to send and room for the longest message. Returns `Memory` if an allocation fails.
    pub(crate) fn new(alloc: Global) -> Result<Sender, Memory>
        ensures { IfOk result (λ s. s.outbox ≡ record { unsent = []; room = most_waiting }) }
    {
        Ok(Sender {
            message: Buffer::new(alloc, MOST)?,
            outbox: Outbox::new(),
        })
    }

    /// Begins a message with this header and these parameters.
    fn begin(&mut self, header: &Header, params: &[u8])
        requires header { IsHeader header.now }
        requires fits { length (spelling_of header.now) + length params.now ≤ most_pdu }
        ensures message { self.new.message.octets ≡ spelling_of header.now ++ params.now }
        ensures outbox { self.new.outbox ≡ self.old.outbox }
    {
        let mut octets = [0u8; 12];
        let len = write_header(header, &mut octets);
        self.message.clear();
        self.message.add(&octets[..len]);
        self.message.add(params);
    }

    /// Queues a message of a header, parameters and data, of at most 1,920 octets.
    fn put(&mut self, size: TpduSize, header: &Header, params: &[u8], body: &[u8])
        requires header { IsHeader header.now }
        requires fits { length (spelling_of header.now) + length params.now + length body.now ≤ most_pdu }
        requires room { most_packets ≤ self.old.outbox.room }
        ensures room { self.old.outbox.room ≤ self.new.outbox.room + most_packets }
        ensures unsent { self.new.outbox.unsent ≡ self.old.outbox.unsent
            ++ sent_message size.octets (spelling_of header.now ++ params.now ++ body.now) }
    {
        self.begin(header, params);
        self.message.add(body);
        put_message(&mut self.outbox, size.octets, self.message.as_slice());
    }

    /// Queues the answer to a job, of at most 1,920 octets.
    pub(crate) fn put_answer(&mut self, size: TpduSize, sequence: u16, params: &[u8], body: &[u8])
        requires fits { 12 + length params.now + length body.now ≤ most_pdu }
        requires room { most_packets ≤ self.old.outbox.room }
        ensures unsent { self.new.outbox.unsent ≡ self.old.outbox.unsent
            ++ sent_message size.octets (answer_octets sequence params.now body.now) }
        ensures room { self.old.outbox.room ≤ self.new.outbox.room + most_packets }
    {
        let header = Header {
            kind: Kind::AckData,
            sequence,
            param_len: params.len() as u16,
            body_len: body.len() as u16,
            error: 0,
        };
        self.put(size, &header, params, body);
    }

    /// Queues the answer to user data, with parameters of the long form and at most 1,894 octets of data.
    pub(crate) fn put_user(
        &mut self,
        size: TpduSize,
        sequence: u16,
        params: &UserParams,
        octets: &[u8],
    )
        requires form { params.now.answer ≡ true }
        requires fits { 26 + length octets.now ≤ most_pdu }
        requires room { most_packets ≤ self.old.outbox.room }
        ensures { self.new.outbox.unsent ≡ self.old.outbox.unsent
            ++ sent_message size.octets (user_octets sequence params.now (user_data octets.now)) }
    {
        let header = Header {
            kind: Kind::User,
            sequence,
            param_len: 12,
            body_len: 4 + octets.len() as u16,
            error: 0,
        };
        let mut written = [0u8; 12];
        let len = write_user(params, &mut written);
        self.begin(&header, &written[..len]);
        self.message.add(&data_head(octets));
        self.message.add(octets);
        put_message(&mut self.outbox, size.octets, self.message.as_slice());
    }

    /// Queues the answer to user data with as many of the first of these octets as fit the PDU. Its last-unit octet
    /// says whether more follow.
    pub(crate) fn put_slice(
        &mut self,
        size: TpduSize,
        sequence: u16,
        pdu: u16,
        answer: AnswerId,
        octets: &[u8],
    )
        requires least { least_pdu ≤ pdu }
        requires most { pdu ≤ most_pdu }
        requires room { most_packets ≤ self.old.outbox.room }
        ensures { self.new.outbox.unsent ≡ self.old.outbox.unsent
            ++ sent_message size.octets
            (slice_octets sequence answer.group answer.subfunction answer.sequence pdu octets.now) }
    {
        let room = slice_room(pdu);
        if octets.len() > room {
            self.put_user(size, sequence, &answer.params(1, 0), &octets[..room]);
        } else {
            self.put_user(size, sequence, &answer.params(0, 0), octets);
        }
    }

    /// Queues the refusal of a message with this sequence, with this error word.
    pub(crate) fn put_refusal(&mut self, size: TpduSize, sequence: u16, error: u16)
        requires room { most_packets ≤ self.old.outbox.room }
        ensures { self.new.outbox.unsent ≡ self.old.outbox.unsent
            ++ sent_message size.octets (refusal_octets sequence error) }
    {
        let mut octets = [0u8; 12];
        write_refusal(sequence, error, &mut octets);
        put_message(&mut self.outbox, size.octets, &octets);
    }

    /// Queues the answer that is made of a reply: a refusal if the reply has an error.
    pub(crate) fn put_reply(&mut self, size: TpduSize, sequence: u16, reply: &Reply)
        requires fits { HasAtMost most_pdu (said_of reply.now) }
        requires room { most_packets ≤ self.old.outbox.room }
        ensures { self.new.outbox.unsent ≡ self.old.outbox.unsent
            ++ sent_message size.octets (reply_octets sequence (said_of reply.now)) }
    {
        if reply.error == 0 {
            self.put_answer(
                size,
                sequence,
                reply.params.as_slice(),
                reply.body.as_slice(),
            );
        } else {
            self.put_refusal(size, sequence, reply.error);
        }
    }

    /// Queues the answer to a negotiation.
    pub(crate) fn put_grant(&mut self, size: TpduSize, sequence: u16, granted: &Negotiation)
        requires room { most_packets ≤ self.old.outbox.room }
        ensures { self.new.outbox.unsent ≡ self.old.outbox.unsent
            ++ sent_message size.octets (answer_octets sequence (negotiation_spelling granted.now) []) }
    {
        let mut params = [0u8; 8];
        write_negotiate(granted, &mut params);
        self.put_answer(size, sequence, &params, &[]);
    }

    /// Queues the answer with a slice of an image. `more` says whether another slice follows.
    pub(crate) fn put_image(&mut self, size: TpduSize, sequence: u16, more: bool, octets: &[u8])
        requires fits { 18 + length octets.now ≤ most_pdu }
        requires room { most_packets ≤ self.old.outbox.room }
        ensures { self.new.outbox.unsent ≡ self.old.outbox.unsent
            ++ sent_message size.octets (slice_answer sequence (record { more = more; octets = octets.now })) }
    {
        let header = Header {
            kind: Kind::AckData,
            sequence,
            param_len: 2,
            body_len: 4 + octets.len() as u16,
            error: 0,
        };
        let [high, low] = (octets.len() as u16).to_be_bytes();
        self.begin(&header, &[SLICE, u8::from(more)]);
        self.message.add(&[high, low, IMAGE[0], IMAGE[1]]);
        self.message.add(octets);
        put_message(&mut self.outbox, size.octets, self.message.as_slice());
    }

    /// Queues a job of the server's own for the download of this block.
    pub(crate) fn put_job(&mut self, size: TpduSize, job: ServerJob, name: BlockName)
        requires room { most_packets ≤ self.old.outbox.room }
        ensures { self.new.outbox.unsent ≡ self.old.outbox.unsent
            ++ sent_message size.octets (server_job_octets job.sequence (function_of job.function) name) }
    {
        let header = Header {
            kind: Kind::Job,
            sequence: job.sequence,
            param_len: 18,
            body_len: 0,
            error: 0,
        };
        let function = function_code(job.function);
        let front = [function, 0, 0, 0, 0, 0, 0, 0, NAME_LENGTH, NAME_MARK];
        let mut named = [0u8; NAME];
        write_name(name, AT_P, &mut named);
        self.put(size, &header, &front, &named);
    }

    /// Queues the confirm of a connect request.
    pub(crate) fn put_confirm(&mut self, c: &Connection)
        requires least_size { 7 ≤ c.now.size_code }
        requires most_size { c.now.size_code ≤ 13 }
        requires calling { c.now.calling.len ≤ 16 }
        requires called { c.now.called.len ≤ 16 }
        requires room { most_packets ≤ self.old.outbox.room }
        ensures { self.new.outbox.unsent ≡ self.old.outbox.unsent
            ++ packet_of (spelling_of_confirm (connection_of c.now)) }
    {
        let mut octets = [0u8; CONFIRM];
        let len = write_confirm(c, &mut octets);
        self.outbox.put(&octets[..len]);
    }
}

/// The head of the data part of an answer to user data: FF, transport size 09 and the length. Without octets it is `0A
/// 00 00 00`.
fn data_head(octets: &[u8]) -> [u8; 4]
    requires { length octets.now < 65536 }
    ensures { result ++ octets.now ≡ user_data octets.now }
{
    match octets {
        [] => NO_DATA,
        _ => {
            let [high, low] = (octets.len() as u16).to_be_bytes();
            [0xFF, 0x09, high, low]
        }
    }
}

/// The function octet of a job of the server's own.
fn function_code(function: ServerFunction) -> u8
    ensures { result ≡ function_of function }
{
    match function {
        ServerFunction::SendPiece => SEND_PIECE,
        ServerFunction::Close => CLOSE,
    }
}

/// The greatest number of octets of an image in one telegram on a link with this PDU.
pub(crate) fn image_room(pdu: usize) -> usize
    requires { 18 ≤ pdu }
    ensures { result ≡ image_room pdu }
{
    pdu - IMAGE_FRONT
}
