//! Uploads of blocks: their telegrams, and the acknowledgements of these (Snap7 1.4 sources, s7_types.h,
//! `TReqFunStartUploadParams`). The layouts are this profile's own.
ghost use Rattle.std.specs.Prelude.{◌≡◌, ◌++◌, ◌≤◌, [], ℕ, List, length, option_map, None, Some, IsSome, MatchOption};
ghost use Rattle.s7_header.specs.declared.header.Kind.TheVariants as kind;
ghost use Rattle.s7_header.specs.Negotiation.{most_pdu};
ghost use Rattle.s7_block.specs.Telegrams.{start_function, name_front, is_image_data};
ghost use Rattle.s7_dialogue.specs.Question.{message_octets, starts_upload, slices_upload, ends_upload};
ghost use Rattle.s7_dialogue.specs.declared.stages.single.Ask.TheVariants as asked;
ghost use Rattle.s7_dialogue.specs.Uploads.{id_params, upload_size, slice_in, fitting};
ghost use Rattle.s7_dialogue.specs.Answer.{acknowledged};
ghost use Rattle.s7_dialogue.specs.Singles.{TellsIfSome};

use crate::questions::message::begin_message;
use crate::stages::single::Ask;
use crate::transfers::user_data::{Told, number_at};
use s7_block::{NAME, Slice, read_digits};
use s7_header::Kind;
use s7_outer::Buffer;

/// The greatest number of octets of an image.
pub(crate) const MOST_UPLOADED: usize = 65_572;

/// The function that starts an upload.
const START: u8 = 0x1D;

/// The function that asks for a slice.
pub(crate) const SLICE: u8 = 0x1E;

/// The function that ends an upload.
pub(crate) const END: u8 = 0x1F;

/// The octets before the name of a block.
const NAME_FRONT: [u8; 10] = [START, 0, 0, 0, 0, 0, 0, 0, 0x09, 0x5F];

/// The octets before the id of an upload that was started.
const ID_FRONT: [u8; 7] = [START, 0, 0, 0, 0, 0, 0];

/// The octet after the id, which is the number of digits of the length.
const DIGITS: u8 = 0x07;

/// The octets before those of an image, after their length.
const IMAGE: [u8; 2] = [0x00, 0xFB];

/// Writes the start of the upload of the block with this name.
pub(crate) fn write_start(name: &[u8; NAME], sequence: u16, message: &mut Buffer)
    requires { message.old.room ≡ most_pdu }
    ensures octets { message.new.octets ≡ message_octets kind.Job sequence (name_front start_function ++ name.now) [] }
    ensures fits { (10 ≤ length message.new.octets) × (length message.new.octets ≤ 64) }
    ensures room { message.new.room ≡ most_pdu }
{
    let mut params = [0u8; 18];
    params[..10].copy_from_slice(&NAME_FRONT);
    params[10..].copy_from_slice(name);
    begin_message(Kind::Job, sequence, &params, 0, message);
}

/// Writes the question of this function about the upload of this id.
pub(crate) fn write_by_id(function: u8, id: u8, sequence: u16, message: &mut Buffer)
    requires { message.old.room ≡ most_pdu }
    ensures octets { message.new.octets ≡ message_octets kind.Job sequence (id_params function id) [] }
    ensures fits { (10 ≤ length message.new.octets) × (length message.new.octets ≤ 64) }
    ensures room { message.new.room ≡ most_pdu }
{
    let params = [function, 0, 0, 0, 0, 0, 0, id];
    begin_message(Kind::Job, sequence, &params, 0, message);
}

/// Reads the answer to the start of an upload: its id, and the length of the image.
pub(crate) fn read_started<'a>(params: &[u8], body: &[u8]) -> Option<Told<'a>>
    ensures { (name : _) (so_far : List ℕ) → let answer = acknowledged (starts_upload name) params.now body.now in
        MatchOption result (answer ≡ None) (λ told. TellsIfSome asked.Upload so_far told answer) }
{
    if !body.is_empty() {
        return None;
    }
    let size = upload_size(params)?;
    Some(Told::Brought {
        octets: &[],
        next: Some(Ask::Slice {
            id: params[7],
            size,
        }),
    })
}

/// The length of an image, from its seven digits.
fn upload_size(params: &[u8]) -> Option<u32>
    ensures size { result ≡ upload_size params.now }
    ensures long { IsSome result → length params.now ≡ 16 }
{
    if params.len() != 16 || &params[..7] != ID_FRONT.as_slice() || params[8] != DIGITS {
        return None;
    }
    read_digits(&params[9..])
}

/// Reads the answer to the question for a slice of the upload of this id, after the octets `so_far` of an image of
/// `size` octets.
pub(crate) fn read_slice<'a>(
    id: u8,
    size: u32,
    so_far: &[u8],
    params: &[u8],
    body: &'a [u8],
) -> Option<Told<'a>>
    ensures { let answer = acknowledged (slices_upload id size so_far.now) params.now body.now in
        MatchOption result (answer ≡ None)
        (λ told. TellsIfSome (asked.Slice id size) so_far.now told answer) }
{
    let Slice { more, octets } = fitting(size, so_far, slice_in(params, body)?)?;
    let next = if more {
        Ask::Slice { id, size }
    } else {
        Ask::UploadEnd { id }
    };
    Some(Told::Brought {
        octets,
        next: Some(next),
    })
}

/// The slice in these parameters and data, if they are one.
fn slice_in<'a>(params: &[u8], body: &'a [u8]) -> Option<Slice<'a>>
    ensures { option_map (λ s. record { more = s.more; octets = s.octets.now }) result ≡ slice_in params.now body.now }
{
    let more = match params {
        [SLICE, 0x00] => false,
        [SLICE, 0x01] => true,
        _ => return None,
    };
    if !is_image_data(body) {
        return None;
    }
    Some(Slice {
        more,
        octets: &body[4..],
    })
}

/// Whether the data are octets of an image, with their length and `00 FB` before them.
fn is_image_data(body: &[u8]) -> bool
    ensures { result ≡ is_image_data body.now }
{
    body.len() >= 4
        && usize::from(number_at(body, 0)) == body.len() - 4
        && body[2..].starts_with(&IMAGE)
}

/// The slice, if it continues these octets of an image of this length.
fn fitting<'a>(size: u32, so_far: &[u8], slice: Slice<'a>) -> Option<Slice<'a>>
    ensures { option_map (λ s. record { more = s.more; octets = s.octets.now }) result
        ≡ fitting size so_far.now (Some (record { more = slice.entry.more; octets = slice.entry.octets.now })) }
{
    let len = so_far.len() + slice.octets.len();
    let is_wrong = len > size as usize
        || len > MOST_UPLOADED
        || (slice.more && slice.octets.is_empty())
        || (!slice.more && len != size as usize);
    if is_wrong { None } else { Some(slice) }
}

/// Reads the answer to the end of an upload.
pub(crate) fn read_ended<'a>(params: &[u8], body: &[u8]) -> Option<Told<'a>>
    ensures { (id : ℕ) (so_far : List ℕ) → let answer = acknowledged (ends_upload id) params.now body.now in
        MatchOption result (answer ≡ None) (λ told. TellsIfSome (asked.UploadEnd id) so_far told answer) }
{
    if params == [END].as_slice() && body.is_empty() {
        Some(Told::Brought {
            octets: &[],
            next: None,
        })
    } else {
        None
    }
}
