//! The answers to jobs that ask one question at a time: user data, controls, uploads, downloads and parts of data
//! blocks (Snap7 1.4 sources, s7_types.h: TS7Params7, and the data that follow it).
ghost use Rattle.std.specs.Prelude.{◌≡◌, true, ℕ, ◌+◌, ◌<◌, ◌==◌, ◌&&◌, List, length, if◌then◌else◌};
ghost use Rattle.std.specs.Prelude.{None, Some, IfSome, IfNone, MatchOption, [], Ok};
ghost use Rattle.s7_header.specs.Octets.{number_at};
ghost use Rattle.s7_header.specs.Header.{header_of};
ghost use Rattle.s7_header.specs.UserParams.{user_params_of};
ghost use Rattle.s7_szl.specs.Images.{adds_up};
ghost use Rattle.s7_dialogue.specs.declared.stages.single.Ask.{Ask};
ghost use Rattle.s7_dialogue.specs.declared.questions.subject.Subject.{Subject};
ghost use Rattle.s7_dialogue.specs.declared.questions.subject.Subject.TheVariants as subject;
ghost use Rattle.s7_dialogue.specs.declared.transfers.data_block.DataBlock.{DataBlock};
ghost use Rattle.s7_dialogue.specs.declared.stages.single.Ask.TheVariants as asked;
ghost use Rattle.s7_dialogue.specs.UserData.{octets_in, answers_about};
ghost use Rattle.s7_dialogue.specs.UserData.{is_whole, has_octets, goes_on_with};
ghost use Rattle.s7_dialogue.specs.Answer.{answer_of, acknowledged, answered_by_user, by_params, brought, is_under};
ghost use Rattle.s7_dialogue.specs.Answer.{awaits_server, by_call};
ghost use Rattle.s7_dialogue.specs.Answer.{refuses, function_of, tells_status};
ghost use Rattle.s7_dialogue.specs.Question.{controls, inserts};
ghost use Rattle.s7_dialogue.specs.Stages.{question_of_single, is_writable};
ghost use Rattle.s7_dialogue.specs.Singles.{TellsIfSome};

use crate::job::Job;
use crate::questions::requests::image_of;
use crate::questions::subject::Subject;
use crate::refusals::{number_of_error, number_of_status};
use crate::stages::single::Ask;
use crate::transfers::data_block::{DataBlock, read_head, read_part, tells_data};
use crate::transfers::download::{Pieces, read_announced, read_first_call, read_next_call};
use crate::transfers::upload::{read_ended, read_slice, read_started};
use s7_clock::{Control, from_octets};
use s7_header::{Header, Kind, UserParams, parts, read_header, read_user};
use s7_szl::read_mode;

/// The greatest number of octets of an answer.
pub(crate) const MOST_JOINED: usize = 8448;

/// The number of octets of an image before its records.
const HEAD: usize = 8;

/// The number of octets of an answer with the counts of seven kinds of blocks.
const COUNTS: usize = 28;

/// The number of octets for each block in a list of blocks.
const ENTRY: usize = 4;

/// The number of octets of an answer with a block's head.
const HEAD_TOLD: usize = 40;

/// The data of user data without content.
pub(crate) const NO_DATA: [u8; 4] = [0x0A, 0x00, 0x00, 0x00];

/// The function of a control that isn't a stop.
const CONTROL_FUNCTION: u8 = 0x28;

/// The function of a stop.
const STOP_FUNCTION: u8 = 0x29;

/// What a message says of the answer to a job that asks one question at a time.
#[derive(Clone, Copy)]
pub(crate) enum Told<'a> {
    /// It refuses with this error number.
    Refused(u32),
    /// It brings these octets; then this is asked next, or the job ends.
    Brought { octets: &'a [u8], next: Option<Ask> },
    /// Ask this next, and discard the octets received so far.
    Anew(Ask),
}

/// Reads the message as the answer to the job's question, after the octets `so_far`; `None` exactly if it is no
/// such answer.
#[tactic(auto, unfolding(crate::specs::Answer::answer_of))]
pub(crate) fn read_single<'a>(
    job: &Job,
    ask: &Ask,
    so_far: &[u8],
    sequence: u16,
    message: &'a [u8],
) -> Option<Told<'a>>
    requires first { (subject : Subject) → ask.now ≡ asked.About subject → length so_far.now ≡ 0 }
    requires alone { (block : DataBlock) → ask.now ≡ asked.Head block → length so_far.now ≡ 0 }
    requires writable { is_writable job.now ask.now ≡ true }
    ensures some { IfSome result (λ told. TellsIfSome ask.now so_far.now told
        (answer_of (question_of_single job.now ask.now so_far.now) sequence message.now)) }
    ensures none { IfNone result
        (answer_of (question_of_single job.now ask.now so_far.now) sequence message.now ≡ None) }
{
    let Ok(header) = read_header(message) else {
        return None;
    };
    if let Ask::AwaitCall(_) | Ask::Give { .. } = ask {
        return read_call(job, ask, &header, message);
    }
    if header.sequence != sequence {
        return None;
    }
    let (params, body) = parts(message, &header);
    match header.kind {
        Kind::Ack => read_refusal(ask, &header),
        Kind::AckData => read_acknowledgement(ask, so_far, header.error, params, body),
        Kind::User => read_user_data(ask, so_far, params, body),
        Kind::Job => None,
    }
}

/// Reads a message with this header while a job of the server's is awaited.
fn read_call<'a>(job: &Job, ask: &Ask, header: &Header, message: &'a [u8]) -> Option<Told<'a>>
    requires writable { is_writable job.now ask.now ≡ true }
    requires calls { awaits_server (question_of_single job.now ask.now []) ≡ true }
    requires header { header_of message.now ≡ Ok header.now }
    ensures { (so_far : List ℕ)
        → let answer = by_call header.now.kind (question_of_single job.now ask.now so_far) header.now message.now in
        MatchOption result (answer ≡ None) (λ told. TellsIfSome ask.now so_far told answer) }
{
    let Kind::Job = header.kind else {
        return None;
    };
    let (params, body) = parts(message, header);
    let image = image_of(job);
    match ask {
        Ask::AwaitCall(pieces) => { read_first_call(image, *pieces, header.sequence, params, body) }
        Ask::Give { pieces, from, .. } => {
            read_next_call(image, *pieces, *from, header.sequence, params, body)
        }
        _ => None,
    }
}

/// The refusal in an acknowledgement without data, if nothing follows its header.
fn read_refusal<'a>(ask: &Ask, header: &Header) -> Option<Told<'a>>
    ensures { (so_far : List ℕ)
        → let answer = (if header.now.param_len == 0 && header.now.body_len == 0 then Some (refuses header.now.error)
        else None) in
        MatchOption result (answer ≡ None) (λ told. TellsIfSome ask.now so_far told answer) }
{
    if header.param_len == 0 && header.body_len == 0 {
        Some(Told::Refused(ask.refused(header.error)))
    } else {
        None
    }
}

/// Reads an acknowledgement with this error word, these parameters and these data. User data have no such answer.
fn read_acknowledgement<'a>(
    ask: &Ask,
    so_far: &[u8],
    error: u16,
    params: &[u8],
    body: &'a [u8],
) -> Option<Told<'a>>
    requires { (job : Job) × (is_writable job ask.now ≡ true) }
    ensures { (job : Job)
        → let answer = (if error == 0
        then acknowledged (question_of_single job ask.now so_far.now) params.now body.now else None) in
        MatchOption result (answer ≡ None) (λ told. TellsIfSome ask.now so_far.now told answer) }
{
    if error != 0 {
        return None;
    }
    match ask {
        Ask::Control(control) => read_status(control, params, body),
        Ask::About(_) | Ask::Further(_, _) | Ask::Head(_) | Ask::HeadFurther(_, _) => None,
        Ask::Upload => read_started(params, body),
        Ask::Slice { id, size } => read_slice(*id, *size, so_far, params, body),
        Ask::UploadEnd { .. } => read_ended(params, body),
        Ask::Announce(pieces) => read_announced(*pieces, params, body),
        Ask::AwaitCall(_) | Ask::Give { .. } => None,
        Ask::Insert { pieces, call } => read_inserted(*pieces, *call, params, body),
        Ask::Part(block, place) => read_part(block, *place, params, body),
    }
}

/// Reads the answer to a control.
fn read_status<'a>(control: &Control, params: &[u8], body: &[u8]) -> Option<Told<'a>>
    ensures { (so_far : List ℕ) → let answer = acknowledged (controls control.now) params.now body.now in
        MatchOption result (answer ≡ None) (λ told. TellsIfSome (asked.Control control.now) so_far told answer) }
{
    if !body.is_empty() || !tells_status(control, params) {
        return None;
    }
    match params[1] {
        0 => Some(Told::Brought {
            octets: &[],
            next: None,
        }),
        status => Some(Told::Refused(number_of_status(control, status))),
    }
}

/// Reads the answer to the insertion of a block that was downloaded.
fn read_inserted<'a>(pieces: Pieces, call: u16, params: &[u8], body: &[u8]) -> Option<Told<'a>>
    ensures { (image so_far : List ℕ) → let answer = acknowledged (inserts image call) params.now body.now in
        MatchOption result (answer ≡ None) (λ told. TellsIfSome (asked.Insert pieces call) so_far told answer) }
{
    read_status(&Control::Insert { kind: 0, number: 0 }, params, body)
}

/// Whether the parameters are the function of a control and a status.
fn tells_status(control: &Control, params: &[u8]) -> bool
    ensures { result ≡ tells_status control.now params.now }
{
    params.len() == 2 && params[0] == function_of(control)
}

/// The function of a control.
fn function_of(control: &Control) -> u8
    ensures { result ≡ function_of control.now }
{
    match control {
        Control::Stop => STOP_FUNCTION,
        _ => CONTROL_FUNCTION,
    }
}

/// Reads user data with these parameters and these data.
fn read_user_data<'a>(ask: &Ask, so_far: &[u8], params: &[u8], body: &'a [u8]) -> Option<Told<'a>>
    requires first { (subject : Subject) → ask.now ≡ asked.About subject → length so_far.now ≡ 0 }
    requires alone { (block : DataBlock) → ask.now ≡ asked.Head block → length so_far.now ≡ 0 }
    ensures { (job : Job)
        → let answer = answered_by_user (question_of_single job ask.now so_far.now) params.now body.now in
        MatchOption result (answer ≡ None) (λ told. TellsIfSome ask.now so_far.now told answer) }
{
    match ask {
        Ask::About(subject) => read_piece(*subject, None, &[], params, body),
        Ask::Further(subject, octet) => read_piece(*subject, Some(*octet), so_far, params, body),
        Ask::Head(block) => read_piece_of_head(*block, None, &[], params, body),
        Ask::HeadFurther(block, octet) => {
            read_piece_of_head(*block, Some(*octet), so_far, params, body)
        }
        Ask::Control(_)
        | Ask::Upload
        | Ask::Slice { .. }
        | Ask::UploadEnd { .. }
        | Ask::Announce(_)
        | Ask::AwaitCall(_)
        | Ask::Give { .. }
        | Ask::Insert { .. }
        | Ask::Part(_, _) => { None }
    }
}

/// Reads a piece of the head of a data block, with this sequence octet if one is expected.
fn read_piece_of_head<'a>(
    block: DataBlock,
    under: Option<u8>,
    so_far: &[u8],
    params: &[u8],
    body: &'a [u8],
) -> Option<Told<'a>>
    ensures { let answer = by_params subject.DataHead under so_far.now body.now (user_params_of params.now) in
        MatchOption result (answer ≡ None)
        (λ told. TellsIfSome (asked.Head block) so_far.now told answer) }
{
    let told = read_piece(Subject::DataHead, under, so_far, params, body)?;
    Some(read_head(block, so_far, told))
}

/// Reads a piece of an answer in user data about this subject, with this sequence octet if one is expected.
fn read_piece<'a>(
    subject: Subject,
    under: Option<u8>,
    so_far: &[u8],
    params: &[u8],
    body: &'a [u8],
) -> Option<Told<'a>>
    ensures { let answer = by_params subject under so_far.now body.now (user_params_of params.now) in
        MatchOption result (answer ≡ None)
        (λ told. TellsIfSome (asked.About subject) so_far.now told answer) }
{
    let Ok(params) = read_user(params) else {
        return None;
    };
    if !answers_about(subject, &params) || !is_under(under, params.sequence) {
        return None;
    }
    let octets = octets_in(body)?;
    read_brought(subject, so_far, &params, octets)
}

/// Whether the parameters answer user data about this subject: they have the long form, the group of an answer, and
/// a last-data-unit octet 00 or 01.
fn answers_about(subject: Subject, params: &UserParams) -> bool
    ensures { result ≡ answers_about subject params.now }
{
    params.answer
        && params.group == subject.group() + 0x40
        && params.sub == subject.subfunction()
        && params.more <= 1
}

/// Whether the answer has the sequence octet that is expected, or none is expected.
fn is_under(asked: Option<u8>, octet: u8) -> bool
    ensures { result ≡ is_under asked octet }
{
    match asked {
        Some(asked) => octet == asked,
        None => true,
    }
}

/// The content of the data, if they are data of user data.
fn octets_in(body: &[u8]) -> Option<&[u8]>
    ensures { MatchOption result (octets_in body.now ≡ None) (λ octets. octets_in body.now ≡ Some octets.now) }
{
    if body == NO_DATA.as_slice() {
        return Some(&[]);
    }
    if has_octets(body) {
        Some(&body[4..])
    } else {
        None
    }
}

/// Whether the data have content.
fn has_octets(body: &[u8]) -> bool
    ensures { result ≡ has_octets body.now }
{
    body.len() > 4
        && body.starts_with(&[0xFF, 0x09])
        && usize::from(number_at(body, 2)) == body.len() - 4
}

/// The number in the two octets from this offset on.
pub(crate) fn number_at(octets: &[u8], place: usize) -> u16
    requires { place + 1 < length octets.now }
    ensures { result ≡ number_at octets.now place }
{
    u16::from(octets[place]) * 256 + u16::from(octets[place + 1])
}

/// What the octets of a message with these parameters are in answer to a question about `subject`: a refusal, which has
/// no octets, or a piece that continues `so_far`. `None` if they are no answer.
fn read_brought<'a>(
    subject: Subject,
    so_far: &[u8],
    params: &UserParams,
    octets: &'a [u8],
) -> Option<Told<'a>>
    ensures { let answer = brought subject so_far.now params.now octets.now in
        MatchOption result (answer ≡ None)
        (λ told. TellsIfSome (asked.About subject) so_far.now told answer) }
{
    if params.error != 0 {
        return octets
            .is_empty()
            .then_some(Told::Refused(number_of_error(params.error)));
    }
    let more = params.more == 1;
    if goes_on_with(subject, so_far, more, octets) {
        Some(Told::Brought {
            octets,
            next: more.then_some(Ask::Further(subject, params.sequence)),
        })
    } else {
        None
    }
}

/// Whether a piece continues what came before it: only a piece with octets may have successors, all octets fit the
/// room, and after the last piece the answer is whole.
fn goes_on_with(subject: Subject, so_far: &[u8], more: bool, octets: &[u8]) -> bool
    ensures { result ≡ goes_on_with subject so_far.now more octets.now }
{
    let len = so_far.len() + octets.len();
    if len > MOST_JOINED {
        return false;
    }
    if more {
        return !octets.is_empty() && subject.comes_in_pieces();
    }
    // Pieces may be cut anywhere, so the test of a whole answer needs all octets together.
    let mut whole = [0u8; MOST_JOINED];
    whole[..so_far.len()].copy_from_slice(so_far);
    whole[so_far.len()..len].copy_from_slice(octets);
    is_whole(subject, &whole[..len])
}

/// Whether the octets are a whole answer.
fn is_whole(subject: Subject, octets: &[u8]) -> bool
    ensures { result ≡ is_whole subject octets.now }
{
    match subject {
        Subject::StatusList => adds_up(octets),
        Subject::RunState => read_mode(octets).is_some(),
        Subject::BlockCounts => octets.len() == COUNTS,
        Subject::BlocksOfKind => octets.len() % ENTRY == 0,
        Subject::BlockHead => octets.len() == HEAD_TOLD,
        Subject::DataHead => tells_data(octets),
        Subject::Clock => from_octets(octets).is_ok(),
        Subject::ClockSetting | Subject::Password | Subject::PasswordClearing => octets.is_empty(),
    }
}

/// Whether an image has exactly the records after its head that the head states.
fn adds_up(image: &[u8]) -> bool
    ensures { result ≡ adds_up image.now }
{
    if image.len() < HEAD {
        return false;
    }
    let record_len = usize::from(number_at(image, 4));
    let count = usize::from(number_at(image, 6));
    image.len() == HEAD + record_len * count
}
