//! The questions of jobs that ask one at a time: user data, controls, uploads, downloads and parts of data blocks
//! (Snap7 1.4 sources, s7_types.h: TReqFunTypedParams, and the data that follow it).
ghost use Rattle.std.specs.Prelude.{◌≡◌, ℕ, ◌++◌, ◌<◌, ◌≤◌, true, [], List, length};
ghost use Rattle.s7_header.specs.declared.header.Kind.TheVariants as kind;
ghost use Rattle.s7_header.specs.UserParams.{user_spelling, HasForm};
ghost use Rattle.s7_header.specs.Negotiation.{most_pdu};
ghost use Rattle.s7_clock.specs.Control.{control_spelling};
ghost use Rattle.s7_dialogue.specs.declared.questions.subject.Subject.TheVariants as subject;
ghost use Rattle.s7_dialogue.specs.UserData.{request_params, further_params, data_of};
ghost use Rattle.s7_dialogue.specs.Question.{message_octets, question_octets, inserts};
ghost use Rattle.s7_dialogue.specs.Dialogue.{list_octets, block_octets};
ghost use Rattle.s7_dialogue.specs.Stages.{question_of_single, can_ask_single, is_sent_well, data_of_job, block_of};
ghost use Rattle.s7_dialogue.specs.Stages.{image_of};
ghost use Rattle.s7_dialogue.specs.Singles.{message_count};

use crate::job::Job;
use crate::questions::message::begin_message;
use crate::questions::password::encoded;
use crate::questions::subject::Subject;
use crate::stages::single::Ask;
use crate::transfers::data_block::write_part;
use crate::transfers::download::{name_in, write_announce, write_given};
use crate::transfers::upload::{END, SLICE, write_by_id, write_start};
use crate::transfers::user_data::NO_DATA;
use s7_block::{BlockName, NAME, write_name};
use s7_clock::{Control, date_of, to_octets, write_control};
use s7_header::{Kind, UserParams, write_user};
use s7_outer::Buffer;

/// The id of the list that says whether the controller runs.
const RUN_STATE: u16 = 0x0424;

/// The octet before the kind of blocks.
const MARK: u8 = 0x30;

/// The location of a block whose head or image is asked for.
const AT_A: u8 = 0x41;

/// The kind of data blocks.
const DATA_BLOCK: u8 = 0x41;

/// Writes the message of this question as the only message in the buffer. The buffer is empty if the question has
/// none.
pub(crate) fn write_single(job: &Job, ask: &Ask, sequence: u16, message: &mut Buffer)
    requires asks { (found : ℕ) × (can_ask_single job.now found ask.now ≡ true) }
    requires room { message.old.room ≡ most_pdu }
    ensures octets { 0 < message_count ask.now
        → message.new.octets ≡ question_octets sequence (question_of_single job.now ask.now []) }
    ensures fits { 0 < message_count ask.now
        → (10 ≤ length message.new.octets) × (length message.new.octets ≤ most_pdu) }
    ensures none { message_count ask.now ≡ 0 → message.new.octets ≡ [] }
    ensures room { message.new.room ≡ most_pdu }
{
    match ask {
        Ask::Control(control) => write_call(control, sequence, message),
        Ask::About(subject) => write_request(*subject, job, sequence, message),
        Ask::Further(subject, octet) => write_further(*subject, *octet, sequence, message),
        Ask::Upload => write_start(&block_octets(block_of(job)), sequence, message),
        Ask::Slice { id, .. } => write_by_id(SLICE, *id, sequence, message),
        Ask::UploadEnd { id } => write_by_id(END, *id, sequence, message),
        Ask::Announce(_) => write_announce(image_of(job), sequence, message),
        Ask::AwaitCall(_) => message.clear(),
        Ask::Give { pieces, from, call } => {
            write_given(image_of(job), *pieces, *from, *call, message)
        }
        Ask::Insert { .. } => write_insert(image_of(job), sequence, message),
        Ask::Head(block) => write_head(block.number, sequence, message),
        Ask::HeadFurther(_, octet) => {
            write_further(Subject::DataHead, *octet, sequence, message)
        }
        Ask::Part(block, place) => write_part(block, *place, sequence, message),
    }
}

/// The image of the block that the job downloads.
pub(crate) fn image_of(job: &Job) -> &[u8]
    ensures { result.now ≡ image_of job.now }
{
    match job {
        Job::Download { image } => image.as_slice(),
        _ => &[],
    }
}

/// Writes the control that inserts the block of this image.
fn write_insert(image: &[u8], sequence: u16, message: &mut Buffer)
    requires least { 36 ≤ length image.now }
    requires room { message.old.room ≡ most_pdu }
    ensures octets { (call : ℕ) → message.new.octets ≡ question_octets sequence (inserts image.now call) }
    ensures fits { (10 ≤ length message.new.octets) × (length message.new.octets ≤ 64) }
    ensures room { message.new.room ≡ most_pdu }
{
    let name = name_in(image);
    let insertion = Control::Insert {
        kind: name.kind,
        number: name.number,
    };
    write_call(&insertion, sequence, message);
}

/// The name of the block that the job uploads.
fn block_of(job: &Job) -> BlockName
    ensures { result ≡ block_of job.now }
{
    match job {
        Job::Upload { kind, number } => BlockName {
            kind: *kind,
            number: *number,
        },
        _ => BlockName { kind: 0, number: 0 },
    }
}

/// Writes a control.
fn write_call(control: &Control, sequence: u16, message: &mut Buffer)
    requires room { message.old.room ≡ most_pdu }
    ensures octets { message.new.octets ≡ message_octets kind.Job sequence (control_spelling control.now) [] }
    ensures fits { (10 ≤ length message.new.octets) × (length message.new.octets ≤ 64) }
    ensures room { message.new.room ≡ most_pdu }
{
    let mut params = [0u8; 26];
    let len = write_control(control, &mut params);
    begin_message(Kind::Job, sequence, &params[..len], 0, message);
}

/// Writes the request for the head of the data block of this number.
fn write_head(number: u16, sequence: u16, message: &mut Buffer)
    requires { message.old.room ≡ most_pdu }
    ensures octets { message.new.octets ≡ message_octets kind.User sequence
        (user_spelling (request_params subject.DataHead)) (data_of (block_octets 0x41 number)) }
    ensures fits { (10 ≤ length message.new.octets) × (length message.new.octets ≤ 64) }
    ensures room { message.new.room ≡ most_pdu }
{
    let name = BlockName {
        kind: DATA_BLOCK,
        number,
    };
    write_user_data(
        &request_params(Subject::DataHead),
        &block_octets(name),
        sequence,
        message,
    );
}

/// Writes the request for user data, with the octets that the job sends.
fn write_request(subject: Subject, job: &Job, sequence: u16, message: &mut Buffer)
    requires well { is_sent_well job.now ≡ true }
    requires room { message.old.room ≡ most_pdu }
    ensures octets { message.new.octets ≡ message_octets kind.User sequence (user_spelling (request_params subject))
        (data_of (data_of_job job.now)) }
    ensures fits { (10 ≤ length message.new.octets) × (length message.new.octets ≤ 64) }
    ensures room { message.new.room ≡ most_pdu }
{
    let params = request_params(subject);
    match job {
        Job::ListOf { kind } => write_user_data(&params, &[MARK, *kind], sequence, message),
        Job::Info { kind, number } => {
            let name = BlockName {
                kind: *kind,
                number: *number,
            };
            write_user_data(&params, &block_octets(name), sequence, message)
        }
        Job::Szl { id, index } => {
            write_user_data(&params, &list_octets(*id, *index), sequence, message)
        }
        Job::Status => write_user_data(&params, &list_octets(RUN_STATE, 0), sequence, message),
        Job::ClockSet { moment } => {
            write_user_data(&params, &to_octets(date_of(*moment)), sequence, message)
        }
        Job::PasswordSet { text } => {
            write_user_data(&params, &encoded(text.as_slice()), sequence, message)
        }
        _ => write_user_data(&params, &[], sequence, message),
    }
}

/// Writes the request for the next octets of an answer, with its sequence octet.
fn write_further(subject: Subject, octet: u8, sequence: u16, message: &mut Buffer)
    requires { message.old.room ≡ most_pdu }
    ensures octets { message.new.octets ≡ message_octets kind.User sequence
        (user_spelling (further_params subject octet)) (data_of []) }
    ensures fits { (10 ≤ length message.new.octets) × (length message.new.octets ≤ 64) }
    ensures room { message.new.room ≡ most_pdu }
{
    let params = UserParams {
        answer: true,
        sequence: octet,
        ..request_params(subject)
    };
    write_user_data(&params, &[], sequence, message);
}

/// The parameters of a request for this subject.
fn request_params(subject: Subject) -> UserParams
    ensures { result ≡ request_params subject }
{
    UserParams {
        answer: false,
        group: subject.group(),
        sub: subject.subfunction(),
        sequence: 0,
        unit: 0,
        more: 0,
        error: 0,
    }
}

/// The id and the index of a status list.
fn list_octets(id: u16, index: u16) -> [u8; 4]
    ensures { result ≡ list_octets id index }
{
    let [id_high, id_low] = id.to_be_bytes();
    let [index_high, index_low] = index.to_be_bytes();
    [id_high, id_low, index_high, index_low]
}

/// The name of a block in the controller's memory.
fn block_octets(name: BlockName) -> [u8; NAME]
    ensures { result ≡ block_octets name.kind name.number }
{
    let mut octets = [0u8; NAME];
    write_name(name, AT_A, &mut octets);
    octets
}

/// Writes user data with these parameters and these octets.
fn write_user_data(params: &UserParams, octets: &[u8], sequence: u16, message: &mut Buffer)
    requires form { HasForm params.now }
    requires few { length octets.now ≤ 10 }
    requires room { message.old.room ≡ most_pdu }
    ensures octets { message.new.octets
        ≡ message_octets kind.User sequence (user_spelling params.now) (data_of octets.now) }
    ensures fits { (10 ≤ length message.new.octets) × (length message.new.octets ≤ 64) }
    ensures room { message.new.room ≡ most_pdu }
{
    let mut spelled = [0u8; 12];
    let len = write_user(params, &mut spelled);
    let head = data_head(octets.len() as u16);
    let body_len = (head.len() + octets.len()) as u16;
    begin_message(Kind::User, sequence, &spelled[..len], body_len, message);
    message.add(&head);
    message.add(octets);
}

/// The data's octets before their content of `len` octets.
fn data_head(len: u16) -> [u8; 4]
    ensures { (octets : List ℕ) → length octets ≡ len → data_of octets ≡ result ++ octets }
{
    if len == 0 {
        return NO_DATA;
    }
    let [high, low] = len.to_be_bytes();
    [0xFF, 0x09, high, low]
}
