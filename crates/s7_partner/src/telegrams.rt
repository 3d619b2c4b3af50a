//! The telegrams of partners: fragments of blocks, and the acknowledgement of each fragment (Snap7 1.4 reference
//! manual, block send and receive).
ghost use Rattle.std.specs.Prelude.{◌≡◌, ◌+◌, ◌-◌, ◌==◌, ◌≤◌, ◌<◌, ◌++◌, length, option_map, if◌then◌else◌};
ghost use Rattle.std.specs.Prelude.{MatchOption};
ghost use Rattle.std.specs.Prelude.{None, Some, true, List, ℕ};
ghost use Rattle.s7_outer.specs.Numbers.{two_octets};
ghost use Rattle.s7_header.specs.declared.header.Kind.TheVariants as kind;
ghost use Rattle.s7_header.specs.Header.{spelling_of};
ghost use Rattle.s7_header.specs.Octets.{number_at};
ghost use Rattle.s7_header.specs.UserParams.{user_spelling, HasForm};
ghost use Rattle.s7_wire.specs.Bounds.{most_packets};
ghost use Rattle.s7_wire.specs.Sent.{sent_message};
ghost use Rattle.s7_dialogue.specs.Course.{next_sequence};
ghost use Rattle.s7_dialogue.specs.UserData.{octets_in, has_octets, data_of};
ghost use Rattle.s7_partner.specs.Telegrams.{four_octets, room, piece_from, piece_message, confirm_message};
ghost use Rattle.s7_partner.specs.Telegrams.{sequence_of};
ghost use Rattle.s7_partner.specs.Telegrams.{piece_in, is_piece, piece_of_data, rid_in, confirms, is_confirm};
ghost use Rattle.s7_partner.specs.States.{next_number};
ghost use Rattle.s7_partner.specs.Pieces.{piece_held};
ghost use Rattle.s7_partner.specs.Outboxes.{Puts};

use crate::message::begin_message;
use crate::partner::Sending;
use crate::size::TpduSize;
use s7_header::{Kind, UserParams, parts, read_header, read_user, write_user};
use s7_outer::Buffer;
use s7_wire::{Outbox, put_message};

/// The group of a fragment.
const FRAGMENT: u8 = 0x46;

/// The group of an acknowledgement.
const CONFIRM: u8 = 0x86;

/// The subfunction of fragments and acknowledgements.
const SUBFUNCTION: u8 = 0x01;

/// The first octets of the data of each fragment.
const PIECE_HEAD: [u8; 4] = [0x12, 0x06, 0x13, 0x00];

/// The data of user data without content.
const NO_DATA: [u8; 4] = [0x0A, 0x00, 0x00, 0x00];

/// The number of octets of a message besides its block's, in the first fragment.
const OVERHEAD: u16 = 36;

/// A fragment of a block.
#[derive(Clone, Copy, Debug)]
pub(crate) struct Piece<'a> {
    /// The number of the send to which it belongs.
    pub(crate) number: u8,
    /// The R_ID of the block.
    pub(crate) rid: u32,
    /// The number of octets of the block, which the first fragment states.
    pub(crate) total: Option<u16>,
    /// The octets of the block in this fragment.
    pub(crate) octets: &'a [u8],
    /// Whether further fragments follow.
    pub(crate) more: bool,
}

/// The number of octets of its block that a fragment has; the last fragment may have fewer.
pub(crate) fn piece_room(pdu: u16) -> usize
    requires { 36 ≤ pdu }
    ensures { result ≡ room pdu }
{
    usize::from(pdu - OVERHEAD)
}

/// The sequence after this one.
pub(crate) fn sequence_after(sequence: u16) -> u16
    ensures { result ≡ next_sequence sequence }
{
    if sequence == u16::MAX {
        1
    } else {
        sequence + 1
    }
}

/// The number of the next send after the one with this number.
pub(crate) fn number_after(number: u8) -> u8
    ensures { result ≡ next_number number }
{
    if number == u8::MAX { 1 } else { number + 1 }
}

/// Queues the next fragment after what is to be sent, with this sequence.
pub(crate) fn put_piece(
    outbox: &mut Outbox,
    message: &mut Buffer,
    size: TpduSize,
    pdu: u16,
    sequence: u16,
    sending: &Sending,
)
    requires least { 36 ≤ pdu }
    requires most { pdu ≤ 1920 }
    requires message { message.old.room ≡ 1920 }
    requires room { most_packets ≤ outbox.old.room }
    ensures puts { Puts outbox.old outbox.new (sent_message size.octets (piece_message sequence
        (piece_from pdu sending.now.number sending.now.rid sending.now.body sending.now.from))) }
    ensures message { message.new.room ≡ 1920 }
{
    write_piece(message, sequence, &next_piece(sending, pdu));
    put_message(outbox, size.octets, message.as_slice());
}

/// The next fragment to be sent.
fn next_piece(sending: &Sending, pdu: u16) -> Piece<'_>
    requires least { 36 ≤ pdu }
    requires most { pdu ≤ 1920 }
    ensures piece { piece_held result
        ≡ piece_from pdu sending.now.number sending.now.rid sending.now.body sending.now.from }
    ensures fits { 36 + length result.octets.now ≤ 1920 }
{
    let body = sending.body.as_slice();
    let rest = &body[sending.from..];
    let room = piece_room(pdu);
    Piece {
        number: sending.number,
        rid: sending.rid,
        total: if sending.from == 0 {
            Some(body.len() as u16)
        } else {
            None
        },
        octets: &rest[..room.min(rest.len())],
        more: sending.from + room < body.len(),
    }
}

/// Writes a fragment as the only message in the buffer.
fn write_piece(message: &mut Buffer, sequence: u16, piece: &Piece<'_>)
    requires fits { 36 + length piece.now.octets.now ≤ 1920 }
    requires room { message.old.room ≡ 1920 }
    ensures octets { message.new.octets ≡ piece_message sequence (piece_held piece.now) }
    ensures fits { length message.new.octets ≤ 1920 }
    ensures room { message.new.room ≡ 1920 }
{
    let params = UserParams {
        answer: true,
        group: FRAGMENT,
        sub: SUBFUNCTION,
        sequence: 0,
        unit: piece.number,
        more: u8::from(piece.more),
        error: 0,
    };
    let len = front_len(piece.total.is_some()) + piece.octets.len();
    begin_user(message, sequence, &params, 4 + len as u16);
    message.add(&data_head(len as u16));
    message.add(&PIECE_HEAD);
    message.add(&four_octets(piece.rid));
    if let Some(total) = piece.total {
        message.add(&total.to_be_bytes());
    }
    message.add(piece.octets);
}

/// Queues the acknowledgement of a fragment of this sequence and number after what is to be sent.
pub(crate) fn put_confirm(
    outbox: &mut Outbox,
    message: &mut Buffer,
    size: TpduSize,
    sequence: u16,
    number: u8,
)
    requires message { message.old.room ≡ 1920 }
    requires room { most_packets ≤ outbox.old.room }
    ensures puts { Puts outbox.old outbox.new (sent_message size.octets (confirm_message sequence number)) }
    ensures message { message.new.room ≡ 1920 }
{
    let params = UserParams {
        answer: true,
        group: CONFIRM,
        sub: SUBFUNCTION,
        sequence: 0,
        unit: number,
        more: 0,
        error: 0,
    };
    begin_user(message, sequence, &params, 4);
    message.add(&NO_DATA);
    put_message(outbox, size.octets, message.as_slice());
}

/// Begins user data with these parameters in the long form. Data of `body_len` octets are to follow.
fn begin_user(message: &mut Buffer, sequence: u16, params: &UserParams, body_len: u16)
    requires form { params.now.answer ≡ true }
    requires room { message.old.room ≡ 1920 }
    ensures octets { message.new.octets ≡ spelling_of (record {
      kind = kind.User;
      sequence = sequence;
      param_len = 12;
      body_len = body_len;
      error = 0;
    }) ++ user_spelling params.now }
    ensures len { length message.new.octets ≡ 22 }
    ensures room { message.new.room ≡ 1920 }
{
    let mut spelled = [0u8; 12];
    let len = write_user(params, &mut spelled);
    begin_message(message, Kind::User, sequence, &spelled[..len], body_len);
}

/// The data's octets before their content of `len` octets, at least one.
fn data_head(len: u16) -> [u8; 4]
    requires { 0 < len }
    ensures { (octets : List ℕ) → length octets ≡ len → data_of octets ≡ result ++ octets }
{
    let [high, low] = len.to_be_bytes();
    [0xFF, 0x09, high, low]
}

/// A number in four octets, the high one first.
fn four_octets(number: u32) -> [u8; 4]
    ensures { result ≡ four_octets number }
{
    number.to_be_bytes()
}

/// The number of octets of the data's content before the octets of the block; those of a first fragment include the
/// block's length.
fn front_len(first: bool) -> usize
    ensures { result ≡ (if first then 10 else 8) }
{
    if first { 10 } else { 8 }
}

/// The sequence of a message.
pub(crate) fn sequence_of(message: &[u8]) -> u16
    requires { 10 ≤ length message.now }
    ensures { result ≡ sequence_of message.now }
{
    number_at(message, 4)
}

/// Reads the message as a fragment: as the first one of a block, or as a further one.
#[tactic(auto, unfolding(crate::specs::Telegrams::piece_in))]
pub(crate) fn read_piece(first: bool, message: &[u8]) -> Option<Piece<'_>>
    ensures { option_map piece_held result ≡ piece_in first message.now }
{
    let Ok(header) = read_header(message) else {
        return None;
    };
    if header.kind != Kind::User {
        return None;
    }
    let (params, body) = parts(message, &header);
    let Ok(params) = read_user(params) else {
        return None;
    };
    if !is_piece(&params) {
        return None;
    }
    match octets_in(body) {
        Some(octets) => piece_of_data(first, &params, octets),
        None => None,
    }
}

/// Whether these are the parameters of a fragment. The sequence octet is ignored.
fn is_piece(params: &UserParams) -> bool
    ensures { result ≡ is_piece params.now }
{
    params.answer
        && params.group == FRAGMENT
        && params.sub == SUBFUNCTION
        && params.unit > 0
        && params.more <= 1
        && params.error == 0
}

/// The fragment in data with these octets.
fn piece_of_data<'a>(first: bool, params: &UserParams, octets: &'a [u8]) -> Option<Piece<'a>>
    ensures { option_map piece_held result ≡ piece_of_data first params.now octets.now }
{
    let front = front_len(first);
    if octets.len() < front || !octets.starts_with(&PIECE_HEAD) {
        return None;
    }
    Some(Piece {
        number: params.unit,
        rid: rid_in(octets),
        total: if first {
            Some(number_at(octets, 8))
        } else {
            None
        },
        octets: &octets[front..],
        more: params.more == 1,
    })
}

/// The R_ID, by which the partners know the block.
fn rid_in(octets: &[u8]) -> u32
    requires { 8 ≤ length octets.now }
    ensures { result ≡ rid_in octets.now }
{
    let high = u32::from(number_at(octets, 4));
    high * 65_536 + u32::from(number_at(octets, 6))
}

/// Whether a message acknowledges the fragment of this sequence and number.
#[tactic(auto, unfolding(crate::specs::Telegrams::confirms))]
pub(crate) fn confirms(sequence: u16, number: u8, message: &[u8]) -> bool
    ensures { result ≡ confirms sequence number message.now }
{
    let Ok(header) = read_header(message) else {
        return false;
    };
    if header.sequence != sequence || header.kind != Kind::User {
        return false;
    }
    let (params, body) = parts(message, &header);
    match read_user(params) {
        Ok(params) => is_confirm(number, &params) && body == NO_DATA.as_slice(),
        Err(_) => false,
    }
}

/// Whether these are the parameters of an acknowledgement of a fragment with this number. The sequence octet is
/// ignored.
fn is_confirm(number: u8, params: &UserParams) -> bool
    ensures { result ≡ is_confirm number params.now }
{
    params.answer
        && params.group == CONFIRM
        && params.sub == SUBFUNCTION
        && params.unit == number
        && params.more == 0
        && params.error == 0
}

/// The content of the data, if they are data of user data.
fn octets_in(body: &[u8]) -> Option<&[u8]>
    ensures { MatchOption result (octets_in body.now ≡ None) (λ octets. octets_in body.now ≡ Some octets.now) }
{
    if body == NO_DATA.as_slice() {
        return Some(&[]);
    }
    if has_octets(body) {
        Some(&body[4..])
    } else {
        None
    }
}

/// Whether the data have content.
fn has_octets(body: &[u8]) -> bool
    ensures { result ≡ has_octets body.now }
{
    body.len() > 4
        && body.starts_with(&[0xFF, 0x09])
        && usize::from(number_at(body, 2)) == body.len() - 4
}

/// The number in the two octets from this offset on.
fn number_at(octets: &[u8], place: usize) -> u16
    requires { place + 1 < length octets.now }
    ensures { result ≡ number_at octets.now place }
{
    u16::from(octets[place]) * 256 + u16::from(octets[place + 1])
}
