//! How a message is judged.
ghost use Rattle.std.specs.Prelude.{◌≡◌, ◌≤◌, ℕ, length, IfSome, Some};
ghost use Rattle.s7_header.specs.Negotiation.{negotiation_of};
ghost use Rattle.s7_item.specs.Params.{items_of};
ghost use Rattle.s7_item.specs.DataItem.{data_places_of};
ghost use Rattle.s7_clock.specs.Control.{control_of};
ghost use Rattle.s7_session.specs.Conversing.{link_of};
ghost use Rattle.s7_session.specs.LinkState.{LinkState};
ghost use Rattle.s7_session.specs.Judgement.{judge, job, function, function_at, negotiation, read, write};
ghost use Rattle.s7_session.specs.Judgement.{control_in, pdu_limit, is_request, sequence_of};
ghost use Rattle.s7_session.specs.Judged.{judgement_of, IsWithin};

use crate::held::Held;
use crate::judge_transfer::{judge_answer, judge_transfer};
use crate::judge_user::judge_user;
use crate::query::Query;
use crate::sender::{ANNOUNCE, END, SLICE, START};
use crate::slices::AnswerId;
use s7_block::BlockName;
use s7_block::kinds::is_stored_kind;
use s7_clock::{Control, read_control};
use s7_header::{Kind, MOST_PDU, Negotiation, grant, parts, read_header, read_negotiate};
use s7_item::codes::{READ_FUNCTION, WRITE_FUNCTION};
use s7_item::{DataItems, Items, answer_size, read_data_items, read_items};
use s7_plant::Request;
use s7_plant::codes::{SERVICE_FUNCTION, STOP_FUNCTION};

/// The function of a job that negotiates the PDU.
const NEGOTIATE: u8 = 0xF0;

/// Why a message is refused.
#[derive(Clone, Copy, Debug, PartialEq, Eq)]
pub(crate) enum Refusal {
    /// The type, the function, the group or the subfunction isn't served.
    UnknownFunction,
    /// No PDU was negotiated.
    NotNegotiated,
    /// Parameters or data can't be read.
    Unreadable,
    /// The lengths in the header disagree with the message, or the message or its answer is longer than the PDU.
    OverPdu,
    /// Blocks of this kind or length can't be downloaded, inserted or deleted, or no such block was downloaded.
    NotAllowed,
}

/// What a message asks for.
#[derive(Drop)]
pub(crate) enum Judgement<'a> {
    /// The telegram is refused, for this reason.
    Refuse(Refusal),
    /// A negotiation, for which this PDU and this number of parallel jobs are granted.
    Grant(Negotiation),
    /// A request without data to copy: a read, or a control.
    Ask(Request),
    /// New octets for items.
    Write {
        items: Items,
        places: DataItems,
        body: &'a [u8],
    },
    /// The answer to a telegram about a password, and whether the link has the right after it.
    Security {
        subfunction: u8,
        error: u16,
        right: bool,
    },
    /// A request by user data, on a link with this PDU.
    Query {
        pdu: u16,
        query: Query,
    },
    /// A request for the next octets of an answer that is held, on a link with this PDU.
    Further {
        pdu: u16,
        answer: AnswerId,
    },
    /// The insertion of the block whose download the link holds.
    Insert(BlockName),
    /// The start of an upload of this block.
    Upload(BlockName),
    /// A request for the next octets of the upload of this id, on a link with this PDU.
    Slice {
        pdu: u16,
        id: u8,
    },
    /// The end of the upload of this id.
    End {
        id: u8,
    },
    /// The download of a block of a kind that is stored, with the number of octets of its image.
    Download {
        name: BlockName,
        size: u32,
    },
    /// The piece of an image that the server's job asked for.
    Piece {
        more: bool,
        octets: &'a [u8],
    },
    /// The answer to the server's job that closes a download.
    Closed,
    /// An answer that isn't the one expected for the server's job. It drops the download.
    Dropped,
}

/// Judges a message of ten octets or more that begins with 32, by the state that the link's earlier messages left.
#[tactic(auto, unfolding(crate::specs::Judgement::judge))]
pub(crate) fn judge<'a>(held: &Held, message: &'a [u8]) -> Judgement<'a>
    requires { 10 ≤ length message.now }
    ensures judged { judgement_of (link_of held.now) (sequence_of message.now) result
        ≡ judge (link_of held.now) message.now }
    ensures within { IsWithin held.now.granted result }
{
    if !is_request(message) {
        return judge_answer(held, message);
    }
    let Ok(header) = read_header(message) else {
        return Judgement::Refuse(Refusal::OverPdu);
    };
    if message.len() > pdu_limit(held.granted) {
        return Judgement::Refuse(Refusal::OverPdu);
    }
    let (params, body) = parts(message, &header);
    match header.kind {
        Kind::Job => judge_job(held.granted, params, body),
        Kind::User => judge_user(held, params, body),
        Kind::Ack | Kind::AckData => Judgement::Refuse(Refusal::UnknownFunction),
    }
}

/// Whether a message is a job or user data.
fn is_request(message: &[u8]) -> bool
    requires { 10 ≤ length message.now }
    ensures { result ≡ is_request message.now }
{
    message[1] == 0x01 || message[1] == 0x07
}

/// The greatest length of a message: the PDU that was granted, or 1,920 before the negotiation.
pub(crate) fn pdu_limit(granted: Option<u16>) -> usize
    ensures { result ≡ pdu_limit granted }
{
    usize::from(granted.unwrap_or(MOST_PDU))
}

/// Judges a job: a negotiation, or a function that needs a granted PDU.
fn judge_job<'a>(granted: Option<u16>, params: &[u8], body: &'a [u8]) -> Judgement<'a>
    ensures judged { (link : LinkState) (sequence : ℕ) → link.granted ≡ granted
        → judgement_of link sequence result ≡ job link sequence params.now body.now }
    ensures within { IsWithin granted result }
{
    match params {
        [] => judge_function(granted, 0, params, body),
        [code, ..] => {
            if *code == NEGOTIATE {
                judge_negotiation(params)
            } else {
                judge_function(granted, *code, params, body)
            }
        }
    }
}

/// Judges a negotiation.
fn judge_negotiation<'a>(params: &[u8]) -> Judgement<'a>
    ensures judged { (link : LinkState) (sequence : ℕ) → judgement_of link sequence result
        ≡ negotiation link sequence (negotiation_of params.now) }
    ensures within { (granted : _) → IsWithin granted result }
{
    let Ok(asked) = read_negotiate(params) else {
        return Judgement::Refuse(Refusal::Unreadable);
    };
    match grant(&asked) {
        Ok(granted) => Judgement::Grant(granted),
        Err(_) => Judgement::Refuse(Refusal::OverPdu),
    }
}

/// Judges a job other than a negotiation, by its function.
fn judge_function<'a>(
    granted: Option<u16>,
    code: u8,
    params: &[u8],
    body: &'a [u8],
) -> Judgement<'a>
    ensures judged { (link : LinkState) (sequence : ℕ) → judgement_of link sequence result
        ≡ function_at link granted code sequence params.now body.now }
    ensures within { IsWithin granted result }
{
    let Some(pdu) = granted else {
        return Judgement::Refuse(Refusal::NotNegotiated);
    };
    match code {
        READ_FUNCTION => judge_read(pdu, params, body),
        WRITE_FUNCTION => judge_write(pdu, params, body),
        SERVICE_FUNCTION | STOP_FUNCTION => judge_control(params, body),
        ANNOUNCE | START | SLICE | END => judge_transfer(pdu, code, params, body),
        _ => Judgement::Refuse(Refusal::UnknownFunction),
    }
}

/// Judges a read of items. It has no data, and its full answer must fit the PDU.
fn judge_read<'a>(pdu: u16, params: &[u8], body: &[u8]) -> Judgement<'a>
    ensures judged { (link : LinkState) (sequence : ℕ) → judgement_of link sequence result
        ≡ read link pdu sequence body.now (items_of params.now) }
    ensures within { IsWithin (Some pdu) result }
{
    let mut items = Items::new();
    if read_items(params, &mut items).is_err() || !body.is_empty() {
        return Judgement::Refuse(Refusal::Unreadable);
    }
    if answer_size(&items) > u32::from(pdu) {
        return Judgement::Refuse(Refusal::OverPdu);
    }
    Judgement::Ask(Request::Read { items })
}

/// Judges a write of items. It has data for each item, and its answer must fit the PDU.
fn judge_write<'a>(pdu: u16, params: &[u8], body: &'a [u8]) -> Judgement<'a>
    ensures judged { (link : LinkState) (sequence : ℕ) → judgement_of link sequence result
        ≡ write link pdu sequence body.now (items_of params.now) }
    ensures within { IsWithin (Some pdu) result }
{
    let mut items = Items::new();
    if read_items(params, &mut items).is_err() {
        return Judgement::Refuse(Refusal::Unreadable);
    }
    let mut places = DataItems::new();
    if read_data_items(body, items.len(), &mut places).is_err() {
        return Judgement::Refuse(Refusal::Unreadable);
    }
    if 14 + items.len() > usize::from(pdu) {
        return Judgement::Refuse(Refusal::OverPdu);
    }
    Judgement::Write {
        items,
        places,
        body,
    }
}

/// Judges a control of the controller or of its blocks. It has no data.
fn judge_control<'a>(params: &[u8], body: &[u8]) -> Judgement<'a>
    ensures judged { (link : LinkState) (sequence : ℕ) → judgement_of link sequence result
        ≡ control_in link sequence body.now (control_of params.now) }
    ensures within { (granted : _) → IsWithin granted result }
{
    let Ok(control) = read_control(params) else {
        return Judgement::Refuse(Refusal::Unreadable);
    };
    if !body.is_empty() {
        return Judgement::Refuse(Refusal::Unreadable);
    }
    match control {
        Control::Start => Judgement::Ask(Request::Start { cold: false }),
        Control::ColdStart => Judgement::Ask(Request::Start { cold: true }),
        Control::Stop => Judgement::Ask(Request::Stop),
        Control::Compress => Judgement::Ask(Request::Compress),
        Control::CopyRam => Judgement::Ask(Request::CopyRam),
        Control::Insert { kind, number } => Judgement::Insert(BlockName { kind, number }),
        Control::Delete { kind, number } if is_stored_kind(kind) => {
            Judgement::Ask(Request::Delete { kind, number })
        }
        Control::Delete { .. } => Judgement::Refuse(Refusal::NotAllowed),
    }
}
