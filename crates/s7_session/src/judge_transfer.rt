//! How the jobs of uploads and downloads are judged, and the answers to the server's own jobs.
ghost use Rattle.std.specs.Prelude.{◌≡◌, ◌≤◌, ◌-◌, ◌==◌, ◌&&◌, ◌||◌, ℕ, true, nat_lt, nat_le, if◌then◌else◌, length};
ghost use Rattle.std.specs.Prelude.{drop, slice_index};
ghost use Rattle.std.specs.Prelude.{option_map, None, Some};
ghost use Rattle.s7_block.specs.Slices.{Piece};
ghost use Rattle.s7_session.specs.Conversing.{link_of};
ghost use Rattle.s7_session.specs.Judged.{judgement_of, IsWithin};
ghost use Rattle.s7_session.specs.Judgement as judgement;
ghost use Rattle.s7_session.specs.Judgement.{transfer, is_transfer, download_started, upload_started, slice_asked};
ghost use Rattle.s7_session.specs.Judgement.{end_asked, no_request, answers_job, piece_came, closed, pdu_limit};
ghost use Rattle.s7_session.specs.Judgement.{sequence_of};
ghost use Rattle.s7_session.specs.LinkState.{LinkState};
ghost use Rattle.s7_session.specs.declared.judge.Refusal.TheVariants.{Unreadable};
ghost use Rattle.s7_session.specs.Transfers.{block_in, upload_asked, download_announced, size_announced, id_in};
ghost use Rattle.s7_session.specs.Transfers.{piece_in};
ghost use Rattle.s7_session.specs.Transfers.{is_image_data};

use crate::held::{Held, ServerFunction};
use crate::judge::{Judgement, Refusal, pdu_limit};
use crate::sender::{
    ANNOUNCE, AT_P, CLOSE, END, IMAGE, NAME_LENGTH, NAME_MARK, SEND_PIECE, SLICE, START, image_room,
};
use s7_block::kinds::is_stored_kind;
use s7_block::{BlockName, read_digits, read_name};
use s7_header::{parts, read_header};

/// The last octet of the name of a block that is uploaded: `A`, for where the block is.
const AT_A: u8 = 0x41;

/// The least length of an image that is downloaded.
const LEAST_IMAGE: u32 = 36;

/// The greatest length of an image that is downloaded.
const MOST_IMAGE: u32 = 65_536;

/// The octets before the two lengths in the announcement of a download.
const LENGTHS: [u8; 2] = [0x0D, 0x31];

/// Judges a job of an upload or of a download. A job with data is refused.
pub(crate) fn judge_transfer<'a>(pdu: u16, code: u8, params: &[u8], body: &[u8]) -> Judgement<'a>
    requires { is_transfer code ≡ true }
    ensures judged { (link : LinkState) (sequence : ℕ) → judgement_of link sequence result
        ≡ (if nat_lt 0 (length body.now) then judgement.refuse Unreadable
        else transfer link pdu code sequence params.now) }
    ensures within { IsWithin (Some pdu) result }
{
    if !body.is_empty() {
        return Judgement::Refuse(Refusal::Unreadable);
    }
    match code {
        ANNOUNCE => judge_download(params),
        START => judge_upload(params),
        SLICE => judge_slice(pdu, params),
        _ => judge_end(params),
    }
}

/// Judges the announcement of a download.
fn judge_download<'a>(params: &[u8]) -> Judgement<'a>
    ensures judged { (link : LinkState) (sequence : ℕ) → judgement_of link sequence result
        ≡ download_started link sequence (download_announced params.now) }
    ensures within { (granted : _) → IsWithin granted result }
{
    let Some((name, size)) = download_announced(params) else {
        return Judgement::Refuse(Refusal::Unreadable);
    };
    if !is_stored_kind(name.kind) || !(LEAST_IMAGE..=MOST_IMAGE).contains(&size) {
        return Judgement::Refuse(Refusal::NotAllowed);
    }
    Judgement::Download { name, size }
}

/// The block whose download is announced, and the length of its image.
fn download_announced(params: &[u8]) -> Option<(BlockName, u32)>
    ensures { option_map (λ a. record { name = a.0; size = a.1 }) result ≡ download_announced params.now }
{
    if params.len() != 32 {
        return None;
    }
    let name = block_in(ANNOUNCE, AT_P, params)?;
    let size = size_announced(&params[18..])?;
    Some((name, size))
}

/// The length of an image. The length of its body follows it: it must be a number, and isn't used.
fn size_announced(octets: &[u8]) -> Option<u32>
    requires { length octets.now ≡ 14 }
    ensures { result ≡ size_announced octets.now }
{
    if &octets[..2] != LENGTHS.as_slice() {
        return None;
    }
    read_digits(&octets[8..])?;
    read_digits(&octets[2..8])
}

/// Judges the start of an upload.
fn judge_upload<'a>(params: &[u8]) -> Judgement<'a>
    ensures judged { (link : LinkState) (sequence : ℕ) → judgement_of link sequence result
        ≡ upload_started link sequence (upload_asked params.now) }
    ensures within { (granted : _) → IsWithin granted result }
{
    if params.len() != 18 {
        return Judgement::Refuse(Refusal::Unreadable);
    }
    match block_in(START, AT_A, params) {
        Some(name) => Judgement::Upload(name),
        None => Judgement::Refuse(Refusal::Unreadable),
    }
}

/// The block that the first 18 octets of the parameters name, with this function and this last octet; `None` if they
/// name none.
fn block_in(function: u8, place: u8, params: &[u8]) -> Option<BlockName>
    requires { 18 ≤ length params.now }
    ensures { result ≡ block_in function place params.now }
{
    let front = [function, 0, 0, 0, 0, 0, 0, 0, NAME_LENGTH, NAME_MARK];
    if &params[..10] != front.as_slice() {
        return None;
    }
    read_name(&params[10..18], place)
}

/// Judges a request for the next slice of an upload.
fn judge_slice<'a>(pdu: u16, params: &[u8]) -> Judgement<'a>
    ensures judged { (link : LinkState) (sequence : ℕ) → judgement_of link sequence result
        ≡ slice_asked link pdu sequence (id_in SLICE params.now) }
    ensures within { IsWithin (Some pdu) result }
{
    match id_in(SLICE, params) {
        Some(id) => Judgement::Slice { pdu, id },
        None => Judgement::Refuse(Refusal::Unreadable),
    }
}

/// Judges the end of an upload.
fn judge_end<'a>(params: &[u8]) -> Judgement<'a>
    ensures judged { (link : LinkState) (sequence : ℕ) → judgement_of link sequence result
        ≡ end_asked link sequence (id_in END params.now) }
    ensures within { (granted : _) → IsWithin granted result }
{
    match id_in(END, params) {
        Some(id) => Judgement::End { id },
        None => Judgement::Refuse(Refusal::Unreadable),
    }
}

/// The id of an upload, which follows the function and six octets 00; `None` if the parameters have another form.
fn id_in(function: u8, params: &[u8]) -> Option<u8>
    ensures { result ≡ id_in function params.now }
{
    match params {
        [code, 0, 0, 0, 0, 0, 0, id] if *code == function => Some(*id),
        _ => None,
    }
}

/// Judges a message that is neither a job nor user data. If it has the sequence of the server's outstanding job, it is
/// the answer to that job; anything else is refused. An answer that can't be read, or that has an error, drops the
/// download.
pub(crate) fn judge_answer<'a>(held: &Held, message: &'a [u8]) -> Judgement<'a>
    requires { 10 ≤ length message.now }
    ensures judged { (sequence : ℕ) → judgement_of (link_of held.now) sequence result
        ≡ no_request (link_of held.now) message.now }
    ensures within { IsWithin held.now.granted result }
{
    let Some(job) = held.server_job else {
        return Judgement::Refuse(Refusal::UnknownFunction);
    };
    if !is_answer(message) || sequence_of(message) != job.sequence {
        return Judgement::Refuse(Refusal::UnknownFunction);
    }
    let Ok(header) = read_header(message) else {
        return Judgement::Dropped;
    };
    if message[1] != 0x03 || header.error != 0 {
        return Judgement::Dropped;
    }
    let (params, body) = parts(message, &header);
    match job.function {
        ServerFunction::SendPiece => judge_piece(pdu_limit(held.granted), params, body),
        ServerFunction::Close => judge_close(params, body),
    }
}

/// Whether a message is an acknowledgement, with or without data.
fn is_answer(message: &[u8]) -> bool
    requires { 10 ≤ length message.now }
    ensures { result ≡ (slice_index message.now 1 == 2 || slice_index message.now 1 == 3) }
{
    message[1] == 0x02 || message[1] == 0x03
}

/// Judges the answer with a piece of an image.
fn judge_piece<'a>(pdu: usize, params: &[u8], body: &'a [u8]) -> Judgement<'a>
    requires least { 18 ≤ pdu }
    requires most { pdu ≤ 1920 }
    ensures judged { (link : LinkState) (sequence : ℕ) → judgement_of link sequence result
        ≡ piece_came link link.download (piece_in pdu params.now body.now) }
    ensures within { (granted : _) → IsWithin granted result }
{
    let more = match params {
        [SEND_PIECE, 0x00] => false,
        [SEND_PIECE, 0x01] => true,
        _ => return Judgement::Dropped,
    };
    match image_octets(image_room(pdu), body) {
        Some(octets) => Judgement::Piece { more, octets },
        None => Judgement::Dropped,
    }
}

/// The octets of an image, at most `room` of them, which follow their length and `00 FB`; `None` if the data have
/// another form.
fn image_octets(room: usize, body: &[u8]) -> Option<&[u8]>
    requires { room ≤ 1902 }
    ensures { option_map (λ octets. octets.now) result
        ≡ (if is_image_data body.now && nat_le (length body.now - 4) room then Some (drop 4 body.now) else None) }
{
    if body.len() < 4 || body.len() - 4 > room {
        return None;
    }
    let (head, octets) = body.split_at(4);
    let [high, low] = (octets.len() as u16).to_be_bytes();
    if head == [high, low, IMAGE[0], IMAGE[1]].as_slice() {
        Some(octets)
    } else {
        None
    }
}

/// Judges the answer to the server's job that closes a download.
fn judge_close<'a>(params: &[u8], body: &[u8]) -> Judgement<'a>
    ensures judged { (link : LinkState) (sequence : ℕ) → judgement_of link sequence result
        ≡ closed link params.now body.now }
    ensures within { (granted : _) → IsWithin granted result }
{
    if params == [CLOSE].as_slice() && body.is_empty() {
        Judgement::Closed
    } else {
        Judgement::Dropped
    }
}

/// The sequence of a message.
pub(crate) fn sequence_of(message: &[u8]) -> u16
    requires { 10 ≤ length message.now }
    ensures { result ≡ sequence_of message.now }
{
    u16::from(message[4]) * 256 + u16::from(message[5])
}
