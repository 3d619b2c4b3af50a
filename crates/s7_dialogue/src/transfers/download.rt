//! Downloads of blocks: announcing them, giving their pieces and closing them, and the server's jobs that ask for
//! the next piece (Snap7 1.4 sources, s7_types.h, `TReqFunStartUploadParams`). The layouts are this profile's own.
ghost use Rattle.std.specs.Prelude.{◌≡◌, ◌<◌, ◌≤◌, ◌++◌, ℕ, List, length, None, MatchOption};
ghost use Rattle.s7_header.specs.Negotiation.{most_pdu};
ghost use Rattle.s7_block.specs.Names.{name_octets};
ghost use Rattle.s7_block.specs.Telegrams.{name_front};
ghost use Rattle.s7_dialogue.specs.Question.{question_octets, closing_octets, announces, awaits_call, gives};
ghost use Rattle.s7_dialogue.specs.Downloads.{name_in, piece_at, is_call};
ghost use Rattle.s7_block.specs.Kinds.{kind_of_code};
ghost use Rattle.s7_dialogue.specs.Answer.{acknowledged, called};
ghost use Rattle.s7_dialogue.specs.Singles.{ask_behind, TellsIfSome};
ghost use Rattle.s7_dialogue.specs.declared.stages.single.Ask.TheVariants as asked;

use crate::questions::message::begin_message;
use crate::stages::single::Ask;
use crate::transfers::user_data::{Told, number_at};
use s7_block::{BlockName, NAME, write_digits, write_name};
use s7_header::Kind;
use s7_outer::Buffer;

/// The function that announces a download.
const ANNOUNCE: u8 = 0x1A;

/// The function that asks for a piece.
const PIECE: u8 = 0x1B;

/// The function that closes a download.
const CLOSE: u8 = 0x1C;

/// The location of a block that is downloaded.
const AT_P: u8 = 0x50;

/// The number of octets before a name.
const NAME_FRONT: usize = 10;

/// The number of octets up to the end of a name.
const NAMED: usize = NAME_FRONT + NAME;

/// The offset of the kind in a head.
const KIND: usize = 5;

/// The offset of the number in a head.
const NUMBER: usize = 6;

/// The offset of the body length in a head.
const BODY_LENGTH: usize = 34;

/// How an image is cut into pieces.
#[derive(Clone, Copy)]
pub(crate) struct Pieces {
    /// The greatest number of octets of a piece.
    pub(crate) room: u16,
    /// The number of octets of the image.
    pub(crate) len: u32,
}

impl Pieces {
    /// The next question for the server's job of this sequence, once the image was given up to offset `from`.
    pub(crate) fn behind(self, from: u32, call: u16) -> Ask
        ensures { result ≡ ask_behind self from call }
    {
        if from < self.len {
            Ask::Give {
                pieces: self,
                from,
                call,
            }
        } else {
            Ask::Insert { pieces: self, call }
        }
    }

    /// The piece from offset `from` on, and whether further pieces follow it.
    fn at(self, image: &[u8], from: u32) -> (&[u8], bool)
        requires whole { self.len ≡ length image.now }
        requires inside { from < self.len }
        ensures octets { result.0.now ≡ (piece_at image.now self.room from).octets }
        ensures more { result.1 ≡ (piece_at image.now self.room from).more }
        ensures few { length result.0.now ≤ self.room }
    {
        let rest = &image[from as usize..];
        let room = usize::from(self.room);
        (&rest[..rest.len().min(room)], room < rest.len())
    }
}

/// The name of the block in the head of an image; the kind is 0 if the head has none.
pub(crate) fn name_in(image: &[u8]) -> BlockName
    requires { 36 ≤ length image.now }
    ensures { result ≡ name_in image.now }
{
    BlockName {
        kind: kind_of_code(image[KIND]),
        number: number_at(image, NUMBER),
    }
}

/// The kind with this code in heads; 0 if there is none.
fn kind_of_code(code: u8) -> u8
    ensures { result ≡ kind_of_code code }
{
    match code {
        0x08 => 0x38,
        0x0A => 0x41,
        0x0B => 0x42,
        0x0C => 0x43,
        0x0D => 0x44,
        0x0E => 0x45,
        0x0F => 0x46,
        _ => 0,
    }
}

/// The function and the name of a block that is downloaded.
fn named(function: u8, name: BlockName) -> [u8; NAMED]
    ensures { result ≡ name_front function ++ name_octets name 0x50 }
{
    let mut octets = [0u8; NAMED];
    octets[..NAME_FRONT].copy_from_slice(&[function, 0, 0, 0, 0, 0, 0, 0, 0x09, 0x5F]);
    let mut spelled = [0u8; NAME];
    write_name(name, AT_P, &mut spelled);
    octets[NAME_FRONT..].copy_from_slice(&spelled);
    octets
}

/// Writes the announcement of the download of this image.
pub(crate) fn write_announce(image: &[u8], sequence: u16, message: &mut Buffer)
    requires least { 36 ≤ length image.now }
    requires most { length image.now ≤ 65536 }
    requires room { message.old.room ≡ most_pdu }
    ensures octets { message.new.octets ≡ question_octets sequence (announces image.now) }
    ensures fits { (10 ≤ length message.new.octets) × (length message.new.octets ≤ 64) }
    ensures room { message.new.room ≡ most_pdu }
{
    let mut params = [0u8; 32];
    params[..NAMED].copy_from_slice(&named(ANNOUNCE, name_in(image)));
    params[NAMED..20].copy_from_slice(&[0x0D, 0x31]);
    write_digits(image.len() as u32, &mut params[20..26]);
    write_digits(u32::from(number_at(image, BODY_LENGTH)), &mut params[26..]);
    begin_message(Kind::Job, sequence, &params, 0, message);
}

/// Writes the piece of the image from offset `from` on, as the answer to the server's job of this sequence.
pub(crate) fn write_given(image: &[u8], pieces: Pieces, from: u32, call: u16, message: &mut Buffer)
    requires whole { pieces.len ≡ length image.now }
    requires inside { from < pieces.len }
    requires few { pieces.room ≤ 1902 }
    requires room { message.old.room ≡ most_pdu }
    ensures octets { (sequence : ℕ)
        → message.new.octets ≡ question_octets sequence (gives image.now pieces.room from call) }
    ensures fits { (10 ≤ length message.new.octets) × (length message.new.octets ≤ most_pdu) }
    ensures room { message.new.room ≡ most_pdu }
{
    let (octets, more) = pieces.at(image, from);
    let [high, low] = (octets.len() as u16).to_be_bytes();
    let body_len = 4 + octets.len() as u16;
    begin_message(
        Kind::AckData,
        call,
        &[PIECE, u8::from(more)],
        body_len,
        message,
    );
    message.add(&[high, low, 0x00, 0xFB]);
    message.add(octets);
}

/// Writes the answer to the server's job of this sequence that closes a download.
pub(crate) fn write_closing(call: u16, message: &mut Buffer)
    requires { message.old.room ≡ most_pdu }
    ensures octets { message.new.octets ≡ closing_octets call }
    ensures fits { (10 ≤ length message.new.octets) × (length message.new.octets ≤ 64) }
    ensures room { message.new.room ≡ most_pdu }
{
    begin_message(Kind::AckData, call, &[CLOSE], 0, message);
}

/// Reads the answer to the announcement of a download: the server is to ask for the first piece.
pub(crate) fn read_announced<'a>(pieces: Pieces, params: &[u8], body: &[u8]) -> Option<Told<'a>>
    ensures { (image so_far : List ℕ) → let answer = acknowledged (announces image) params.now body.now in
        MatchOption result (answer ≡ None) (λ told. TellsIfSome (asked.Announce pieces) so_far told answer) }
{
    if params == [ANNOUNCE].as_slice() && body.is_empty() {
        Some(Told::Brought {
            octets: &[],
            next: Some(Ask::AwaitCall(pieces)),
        })
    } else {
        None
    }
}

/// Reads the server's job of this sequence, which is to ask for the first piece of an image.
pub(crate) fn read_first_call<'a>(
    image: &[u8],
    pieces: Pieces,
    sequence: u16,
    params: &[u8],
    body: &[u8],
) -> Option<Told<'a>>
    requires { 36 ≤ length image.now }
    ensures { (so_far : List ℕ) → let answer = called (awaits_call image.now) sequence params.now body.now in
        MatchOption result (answer ≡ None) (λ told. TellsIfSome (asked.AwaitCall pieces) so_far told answer) }
{
    if !is_call(PIECE, name_in(image), params, body) {
        return None;
    }
    Some(Told::Brought {
        octets: &[],
        next: Some(pieces.behind(0, sequence)),
    })
}

/// Reads the server's job of this sequence after the piece from offset `from` on: it asks for the next piece, or
/// closes the download.
pub(crate) fn read_next_call<'a>(
    image: &[u8],
    pieces: Pieces,
    from: u32,
    sequence: u16,
    params: &[u8],
    body: &[u8],
) -> Option<Told<'a>>
    requires least { 36 ≤ length image.now }
    requires most { length image.now ≤ 65536 }
    requires whole { pieces.len ≡ length image.now }
    requires inside { from < pieces.len }
    ensures { (so_far : List ℕ) (call : ℕ)
        → let answer = called (gives image.now pieces.room from call) sequence params.now body.now in
        MatchOption result (answer ≡ None) (λ told. TellsIfSome (asked.Give pieces from call) so_far told answer) }
{
    let (_, more) = pieces.at(image, from);
    let function = if more { PIECE } else { CLOSE };
    if !is_call(function, name_in(image), params, body) {
        return None;
    }
    Some(Told::Brought {
        octets: &[],
        next: Some(pieces.behind(from + u32::from(pieces.room), sequence)),
    })
}

/// Whether parameters and data are the server's job with this function for the block.
fn is_call(function: u8, name: BlockName, params: &[u8], body: &[u8]) -> bool
    ensures { result ≡ is_call function name params.now body.now }
{
    params == named(function, name).as_slice() && body.is_empty()
}
