//! Messages read as answers to reads, writes and the negotiation.
ghost use Rattle.std.specs.Prelude.{◌≡◌, ◌==◌, ◌&&◌, if◌then◌else◌, List, ℕ, None, Some, IfSome, IfNone};
ghost use Rattle.s7_header.specs.declared.negotiation.Negotiation.{Negotiation as Asking};
ghost use Rattle.s7_dialogue.specs.Question.{Question, negotiates, reads, writes};
ghost use Rattle.s7_dialogue.specs.Answer.{answer_of, acknowledged, counts_items, refuses};
ghost use Rattle.s7_dialogue.specs.Answered.{IsTold};
ghost use Rattle.s7_dialogue.specs.Told.{IsAsked, TellsSome};

use crate::answers::data_items::{ItemAnswers, read_item_answers};
use s7_header::{Header, Kind, Negotiation, parts, read_header, read_negotiate};
use s7_item::Items;
use s7_item::codes::{READ_FUNCTION, WRITE_FUNCTION};

/// What an outstanding telegram asks, as far as reading its answer depends on it.
#[derive(Default, Drop)]
pub(crate) enum Asked {
    /// It negotiates the PDU and the parallel jobs.
    #[default]
    Negotiation,
    /// It reads these items.
    Read(Items),
    /// It writes these items.
    Write(Items),
}

/// The answer that a message is, with the data that it carries.
#[derive(Drop)]
pub(crate) enum Answer<'a> {
    /// The telegram was refused with this error word.
    Refused(u16),
    /// This was granted.
    Granted(Negotiation),
    /// The return codes and octets of the items that were read.
    Items(ItemAnswers<'a>),
    /// The return codes of a write.
    Codes(&'a [u8]),
}

/// Reads the message as the answer to a telegram of this sequence; `None` exactly if it isn't an answer to it.
#[tactic(auto, unfolding(crate::specs::Answer::answer_of))]
pub(crate) fn read_answer<'a>(asked: &Asked, sequence: u16, message: &'a [u8]) -> Option<Answer<'a>>
    ensures some { (question : Question) → IsAsked asked.now question
        → IfSome result (λ answer. TellsSome question answer (answer_of question sequence message.now)) }
    ensures none { (question : Question) → IsAsked asked.now question
        → IfNone result (answer_of question sequence message.now ≡ None) }
{
    let Ok(header) = read_header(message) else {
        return None;
    };
    if header.sequence != sequence {
        return None;
    }
    let (params, body) = parts(message, &header);
    match header.kind {
        Kind::Ack => read_refusal(&header),
        Kind::AckData => read_acknowledgement(asked, header.error, params, body),
        Kind::Job | Kind::User => None,
    }
}

/// The refusal in an acknowledgement without data, if nothing follows its header.
fn read_refusal<'a>(header: &Header) -> Option<Answer<'a>>
    ensures { (question : Question)
        → IsTold question result
        (if header.now.param_len == 0 && header.now.body_len == 0 then Some (refuses header.now.error) else None) }
{
    if header.param_len == 0 && header.body_len == 0 {
        Some(Answer::Refused(header.error))
    } else {
        None
    }
}

/// The answer in an acknowledgement with this error word, these parameters and these data.
fn read_acknowledgement<'a>(
    asked: &Asked,
    error: u16,
    params: &[u8],
    body: &'a [u8],
) -> Option<Answer<'a>>
    ensures { (question : Question) → IsAsked asked.now question
        → IsTold question result
        (if error == 0 then acknowledged question params.now body.now else None) }
{
    if error != 0 {
        return None;
    }
    match asked {
        Asked::Negotiation => read_grant(params, body),
        Asked::Read(items) => read_data(items, params, body),
        Asked::Write(items) => read_codes(items, params, body),
    }
}

/// The grant in these parameters, if there are no data.
fn read_grant<'a>(params: &[u8], body: &[u8]) -> Option<Answer<'a>>
    ensures { (asked : Asking)
        → IsTold (negotiates asked) result (acknowledged (negotiates asked) params.now body.now) }
{
    if !body.is_empty() {
        return None;
    }
    match read_negotiate(params) {
        Ok(granted) => Some(Answer::Granted(granted)),
        Err(_) => None,
    }
}

/// The return codes and octets in the answer to a read of these items.
fn read_data<'a>(items: &Items, params: &[u8], body: &'a [u8]) -> Option<Answer<'a>>
    ensures { IsTold (reads items.now) result (acknowledged (reads items.now) params.now body.now) }
{
    if !counts_items(READ_FUNCTION, items, params) {
        return None;
    }
    let answers = read_item_answers(items, body)?;
    Some(Answer::Items(answers))
}

/// The return codes in the answer to a write of these items.
fn read_codes<'a>(items: &Items, params: &[u8], body: &'a [u8]) -> Option<Answer<'a>>
    ensures { (octets : List ℕ)
        → IsTold (writes items.now octets) result
        (acknowledged (writes items.now octets) params.now body.now) }
{
    if counts_items(WRITE_FUNCTION, items, params) && body.len() == items.len() {
        Some(Answer::Codes(body))
    } else {
        None
    }
}

/// Whether the parameters are the function and the number of these items.
pub(crate) fn counts_items(function: u8, items: &Items, params: &[u8]) -> bool
    ensures { result ≡ counts_items function items.now params.now }
{
    params.len() == 2 && params[0] == function && usize::from(params[1]) == items.len()
}
