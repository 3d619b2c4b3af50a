//! Headers of S7 messages, as in the Snap7 1.4 sources (`TS7ReqHeader`, `TS7ResHeader17` and
//! `TS7ResHeader23`).
ghost use Rattle.std.specs.Prelude.{◌≡◌, ◌≤◌, ◌++◌, length, drop};
ghost use Rattle.s7_header.specs.Header.{type_octet, has_error, header_len, spelling_of, kind_of, header_of};
ghost use Rattle.s7_header.specs.Header.{whole_len, params_of, body_of, refusal_of};

use crate::faults::HeaderFault;
use crate::octets::{number_at, two_octets};

/// The first octet of each message.
const ID: u8 = 0x32;

/// The length of a header without an error word.
const PLAIN_LEN: usize = 10;

/// The length of a header with an error word.
const ERROR_LEN: usize = 12;

/// The kind of a message.
#[derive(Clone, Copy, Debug, PartialEq, Eq)]
pub enum Kind {
    /// A job, type 01.
    Job,
    /// An acknowledgement without data, type 02, as a refusal is.
    Ack,
    /// An acknowledgement with data, type 03.
    AckData,
    /// User data, type 07.
    User,
}

/// The header of a message: the octet 32, the type, two octets without meaning, the sequence, the lengths of
/// parameters and data, and for an acknowledgement the error word. All numbers are big-endian.
#[derive(Clone, Copy, Debug, PartialEq, Eq)]
pub struct Header {
    /// The kind of the message.
    pub kind: Kind,
    /// The sequence number, which an answer repeats.
    pub sequence: u16,
    /// The length of the parameters, which follow the header.
    pub param_len: u16,
    /// The length of the data, which follow the parameters.
    pub body_len: u16,
    /// The error word; 0 for the kinds without one.
    pub error: u16,
}

/// Reads the header of a whole message. The third and the fourth octet are ignored.
///
/// The first fault in this order is returned: `Short` for fewer than 10 octets, `BadId`, `BadType`, `Short` for an
/// acknowledgement of fewer than 12 octets, `Lengths`.
#[tactic(auto, unfolding(crate::specs::Header::header_of))]
pub fn read_header(message: &[u8]) -> Result<Header, HeaderFault>
    ensures { result ≡ header_of message.now }
{
    if message.len() < PLAIN_LEN {
        return Err(HeaderFault::Short);
    }
    if message[0] != ID {
        return Err(HeaderFault::BadId);
    }
    let Some(kind) = kind_of(message[1]) else {
        return Err(HeaderFault::BadType);
    };
    if message.len() < header_len(kind) {
        return Err(HeaderFault::Short);
    }
    let header = Header {
        kind,
        sequence: number_at(message, 4),
        param_len: number_at(message, 6),
        body_len: number_at(message, 8),
        error: if has_error(kind) {
            number_at(message, 10)
        } else {
            0
        },
    };
    if whole_len(&header) != message.len() {
        return Err(HeaderFault::Lengths);
    }
    Ok(header)
}

/// The parameters and the data of a message, by the header that was read from it.
#[tactic(auto, using(crate::proofs::HeaderLemmas::fits))]
pub fn parts<'a>(message: &'a [u8], h: &Header) -> (&'a [u8], &'a [u8])
    requires { header_of message.now ≡ Ok h.now }
    ensures params { result.0.now ≡ params_of message.now h.now }
    ensures body { result.1.now ≡ body_of message.now h.now }
    ensures params_len { length result.0.now ≡ h.now.param_len }
    ensures body_len { length result.1.now ≡ h.now.body_len }
{
    let (_, rest) = message.split_at(header_len(h.kind));
    rest.split_at(h.param_len as usize)
}

/// Writes a header to the beginning of `into`, and returns its length: 12 for an acknowledgement, else 10. `error`
/// is written only for an acknowledgement. The rest of `into` stays.
pub fn write_header(h: &Header, into: &mut [u8]) -> usize
    requires { 12 ≤ length into.old }
    ensures written { into.new ≡ spelling_of h.now ++ drop result into.old }
    ensures len { result ≡ header_len h.now.kind }
{
    let [sequence_high, sequence_low] = two_octets(h.sequence);
    let [param_high, param_low] = two_octets(h.param_len);
    let [body_high, body_low] = two_octets(h.body_len);
    into[..PLAIN_LEN].copy_from_slice(&[
        ID,
        type_octet(h.kind),
        0,
        0,
        sequence_high,
        sequence_low,
        param_high,
        param_low,
        body_high,
        body_low,
    ]);
    if !has_error(h.kind) {
        return PLAIN_LEN;
    }
    into[PLAIN_LEN..ERROR_LEN].copy_from_slice(&two_octets(h.error));
    ERROR_LEN
}

/// Writes a refusal to the beginning of `into`: an acknowledgement of this sequence with an error word, and nothing
/// else. Returns its length, 12. The rest of `into` stays.
pub fn write_refusal(sequence: u16, error: u16, into: &mut [u8]) -> usize
    requires { 12 ≤ length into.old }
    ensures written { into.new ≡ spelling_of (refusal_of sequence error) ++ drop 12 into.old }
    ensures len { result ≡ 12 }
{
    let refusal = Header {
        kind: Kind::Ack,
        sequence,
        param_len: 0,
        body_len: 0,
        error,
    };
    write_header(&refusal, into)
}

/// The kind with this type octet; `None` for any octet but 01, 02, 03 and 07.
fn kind_of(octet: u8) -> Option<Kind>
    ensures { result ≡ kind_of octet }
{
    match octet {
        1 => Some(Kind::Job),
        2 => Some(Kind::Ack),
        3 => Some(Kind::AckData),
        7 => Some(Kind::User),
        _ => None,
    }
}

/// The type octet of a kind.
fn type_octet(kind: Kind) -> u8
    ensures { result ≡ type_octet kind }
{
    match kind {
        Kind::Job => 1,
        Kind::Ack => 2,
        Kind::AckData => 3,
        Kind::User => 7,
    }
}

/// Whether headers of this kind have an error word.
fn has_error(kind: Kind) -> bool
    ensures { result ≡ has_error kind }
{
    match kind {
        Kind::Ack | Kind::AckData => true,
        Kind::Job | Kind::User => false,
    }
}

/// The length of headers of this kind: 12 with an error word, else 10.
fn header_len(kind: Kind) -> usize
    ensures { result ≡ header_len kind }
{
    if has_error(kind) {
        ERROR_LEN
    } else {
        PLAIN_LEN
    }
}

/// The length of header, parameters and data together.
fn whole_len(h: &Header) -> usize
    ensures { result ≡ whole_len h.now }
{
    header_len(h.kind) + h.param_len as usize + h.body_len as usize
}
