//! The effect of an answer on a job.
ghost use Rattle.std.specs.Prelude.{◌≡◌, ◌≤◌, Bool, IfSome, List, true};
ghost use Rattle.s7_item.specs.declared.item.Item.{Item};
ghost use Rattle.s7_header.specs.declared.negotiation.Negotiation.{Negotiation};
ghost use Rattle.s7_header.specs.Negotiation.{most_pdu};
ghost use Rattle.s7_dialogue.specs.Question.{negotiates};
ghost use Rattle.s7_dialogue.specs.Answer as spelled;
ghost use Rattle.s7_dialogue.specs.DataItems.{answers_in};
ghost use Rattle.s7_dialogue.specs.Told.{Tells};
ghost use Rattle.s7_dialogue.specs.Dialogue.{number_end, negotiated_by, taken_grant};
ghost use Rattle.s7_dialogue.specs.GoesOn.{refusal_by, number_of};
ghost use Rattle.s7_dialogue.specs.Taking.{TellsFor};
ghost use Rattle.s7_dialogue.specs.Stages.{is_alone, octets_of, IsGoodLeave, IsGrant};
ghost use Rattle.s7_dialogue.specs.Refusals.{code_refusal};

use crate::answers::answer::Answer;
use crate::answers::data_items::ItemAnswer;
use crate::codes::{GOOD, NEGOTIATION_FAILED, PARTLY_WRITTEN};
use crate::config::Config;
use crate::grant::{Grant, Leaves};
use crate::job::Job;
use crate::refusals::{number_of_code, number_of_error};
use crate::stages::asking::Refused;
use s7_header::Negotiation;

/// The least PDU that a grant may have.
const LEAST_PDU: u16 = 64;

/// Whether each telegram of the job asks for one item.
pub(crate) fn is_alone(job: &Job) -> bool
    ensures { result ≡ is_alone job.now }
{
    match job {
        Job::ReadArea { .. } | Job::WriteArea { .. } => true,
        _ => false,
    }
}

/// The octets that the job writes.
pub(crate) fn octets_of(job: &Job) -> &[u8]
    ensures { result.now ≡ octets_of job.now }
{
    match job {
        Job::WriteArea { octets, .. } => octets.as_slice(),
        Job::WriteMany { octets, .. } => octets.as_slice(),
        _ => &[],
    }
}

/// The error number of an answer that refuses the whole telegram, or, if `alone` is true, its one item. `None` for any
/// other answer.
pub(crate) fn refusal_of(alone: bool, answer: &Answer<'_>) -> Option<u32>
    ensures { (write : Bool) (items : List Item) (x : spelled.Answer) → TellsFor write items answer.now x
        → result ≡ refusal_by alone x }
{
    match answer {
        Answer::Refused(error) => Some(number_of_error(*error)),
        Answer::Granted(_) => None,
        Answer::Items(answers) => {
            if alone {
                item_refusal(answers.as_slice())
            } else {
                None
            }
        }
        Answer::Codes(codes) => { if alone { first_refusal(codes) } else { None } }
    }
}

/// The error number of a return code that isn't FF; `None` for FF.
fn code_refusal(code: u8) -> Option<u32>
    ensures { result ≡ code_refusal code }
{
    if code == 0xFF {
        None
    } else {
        Some(number_of_code(code))
    }
}

/// The error number of the code of the one item; `None` if it was read.
fn item_refusal(answers: &[ItemAnswer<'_>]) -> Option<u32>
    ensures { result ≡ refusal_by true (spelled.tells (answers_in answers.now)) }
{
    match answers {
        [answer] => code_refusal(answer.code),
        _ => None,
    }
}

/// The error number of the one code; `None` if the item was written.
fn first_refusal(codes: &[u8]) -> Option<u32>
    ensures { result ≡ refusal_by true (spelled.notes codes.now) }
{
    match codes {
        [code] => code_refusal(*code),
        _ => None,
    }
}

/// The error number with which the job ends if this question was refused. In a write of several parts it is another
/// number after the first part.
pub(crate) fn number_by(job: &Job, refused: Refused) -> u32
    ensures { result ≡ number_of job.now refused.place refused.number }
{
    match job {
        Job::WriteArea { .. } => {
            if refused.place == 0 {
                refused.number
            } else {
                PARTLY_WRITTEN
            }
        }
        _ => refused.number,
    }
}

/// The error number and what the job leaves, by the answer to the negotiation.
pub(crate) fn negotiated(config: &Config, answer: &Answer<'_>) -> (u32, Leaves)
    requires pdu { config.now.pdu ≤ most_pdu }
    requires jobs { config.now.jobs ≤ 8 }
    ensures granted { IsGoodLeave result.1 }
    ensures ends { (asked : Negotiation) (x : spelled.Answer) → Tells (negotiates asked) answer.now x
        → number_end result.0 result.1 ≡ negotiated_by config.now x }
{
    match answer {
        Answer::Granted(granted) => match taken_grant(config, granted) {
            Some(granted) => (GOOD, Leaves::Connected(granted)),
            None => (NEGOTIATION_FAILED, Leaves::Closed),
        },
        _ => (NEGOTIATION_FAILED, Leaves::Closed),
    }
}

/// The grant, if it is acceptable: a PDU from 64 to the one asked for. It has at most the jobs asked for.
fn taken_grant(config: &Config, granted: &Negotiation) -> Option<Grant>
    requires pdu { config.now.pdu ≤ most_pdu }
    requires jobs { config.now.jobs ≤ 8 }
    ensures within { IfSome result IsGrant }
    ensures taken { result ≡ taken_grant config.now granted.now }
{
    if granted.pdu < LEAST_PDU || granted.pdu > config.pdu {
        return None;
    }
    let jobs = granted.calling.min(granted.called).min(config.jobs).max(1);
    Some(Grant {
        pdu: granted.pdu,
        jobs,
    })
}
