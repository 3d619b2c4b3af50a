//! Tests of the reader of a link: the octets of links, written by hand, and what the reader finds in them.

ghost use Rattle.std.specs.Prelude.{◌≡◌};
ghost use Rattle.s7_wire.specs.Reads.{HasMessage};

use crate::rows::all_hold;
use crate::wire::joined;
use s7_outer::Memory;
use s7_wire::{Found, Opening, ReadFault, Reader};
use std::alloc::Global;

/// A connect request with the TPDU size 1,024.
const REQUEST: &[u8] =
    b"\x03\x00\x00\x16\x11\xE0\x00\x00\x00\x01\x00\xC0\x01\x0A\xC1\x02\x01\x00\xC2\x02\x01\x02";

/// A connect request with the TPDU size 128.
const SMALL_REQUEST: &[u8] =
    b"\x03\x00\x00\x16\x11\xE0\x00\x00\x00\x01\x00\xC0\x01\x07\xC1\x02\x01\x00\xC2\x02\x01\x02";

/// A connect confirm with the TPDU size 1,024.
const CONFIRM: &[u8] =
    b"\x03\x00\x00\x16\x11\xD0\x00\x01\x00\x02\x00\xC0\x01\x0A\xC1\x02\x01\x00\xC2\x02\x01\x02";

/// A fragment of five octets, which isn't the last of its message.
const FRAGMENT: &[u8] = b"\x03\x00\x00\x0C\x02\xF0\x00\xF0\xF1\xF2\xF3\xF4";

/// A fragment of no octets, which isn't the last of its message.
const EMPTY_FRAGMENT: &[u8] = b"\x03\x00\x00\x07\x02\xF0\x00";

/// A fragment of five octets, which is the last of its message.
const LAST: &[u8] = b"\x03\x00\x00\x0C\x02\xF0\x80\xE0\xE1\xE2\xE3\xE4";

/// A disconnect request.
const DISCONNECT: &[u8] = b"\x03\x00\x00\x0B\x06\x80\x00\x00\x00\x01\x80";

/// An error TPDU.
const ERROR: &[u8] = b"\x03\x00\x00\x09\x04\x70\x00\x01\x00";

/// Thirteen fragments of no octets.
const THIRTEEN: &[u8] =
    b"\x03\x00\x00\x07\x02\xF0\x00\x03\x00\x00\x07\x02\xF0\x00\x03\x00\x00\x07\x02\xF0\x00\
    \x03\x00\x00\x07\x02\xF0\x00\x03\x00\x00\x07\x02\xF0\x00\x03\x00\x00\x07\x02\xF0\x00\
    \x03\x00\x00\x07\x02\xF0\x00\x03\x00\x00\x07\x02\xF0\x00\x03\x00\x00\x07\x02\xF0\x00\
    \x03\x00\x00\x07\x02\xF0\x00\x03\x00\x00\x07\x02\xF0\x00\x03\x00\x00\x07\x02\xF0\x00\
    \x03\x00\x00\x07\x02\xF0\x00";

/// A message of 128 octets.
const USER: &[u8] = b"\x32\x03\x00\x00\x00\x05\x00\x02\x00\x74\x00\x00\x04\x01\xFF\x04\x03\x80\
    ABCDEFGHIJKLMNOPQRSTUVWXYZabcdefghijklmnopqrstuvwxyz0123456789\
    NOPQRSTUVWXYZABCDEFGHIJKLMnopqrstuvwxyzabcdefxyz";

/// What a reader is to find, with the offset of its packet.
#[derive(Clone, Copy)]
enum Wanted {
    /// The connect that opens the link, with this TPDU size.
    Opened(u16),
    /// A message.
    Message(&'static [u8], u64),
    /// A disconnect request.
    Disconnected(u64),
    /// A fault.
    Fault(ReadFault, u64),
}

/// The connect that opens a link, the octets of the link, what a reader is to find in them, and the number of octets
/// that are torn.
type Row = (
    Opening,
    &'static [&'static [u8]],
    &'static [Wanted],
    Option<usize>,
);

/// Reports whether the reader found what is wanted.
fn is_wanted(reader: &Reader, found: Found, wanted: Wanted) -> bool
    requires { found ≡ Found.Message → HasMessage reader.now }
{
    match (found, wanted) {
        (Found::Opened(_), Wanted::Opened(size)) => reader.size() == Some(size),
        (Found::Message, Wanted::Message(octets, place)) => {
            reader.message() == octets && reader.place() == place
        }
        (Found::Disconnected, Wanted::Disconnected(place)) => reader.place() == place,
        (Found::Fault(fault), Wanted::Fault(other, place)) => {
            fault == other && reader.place() == place
        }
        _ => false,
    }
}

/// What is still wanted after a piece. There is none if the reader found something else.
fn wanted_after(
    reader: &mut Reader,
    piece: &[u8],
    wanted: &'static [Wanted],
) -> Option<&'static [Wanted]> {
    let mut rest = piece;
    let mut left = wanted;
    for _ in 0..piece.len() {
        let taken = reader.read(rest);
        if taken.octets == 0 {
            break;
        }
        rest = &rest[taken.octets..];
        if taken.found == Found::More {
            continue;
        }
        let [next, later @ ..] = left else {
            return None;
        };
        if !is_wanted(reader, taken.found, *next) {
            return None;
        }
        left = later;
    }
    Some(left)
}

/// Reports whether octets in pieces of this size are read as all that is wanted.
fn reads_pieces(
    reader: &mut Reader,
    octets: &[u8],
    size: usize,
    wanted: &'static [Wanted],
) -> bool {
    if size == 0 {
        return false;
    }
    let mut left = wanted;
    for piece in octets.chunks(size) {
        let Some(later) = wanted_after(reader, piece, left) else {
            return false;
        };
        left = later;
    }
    left.is_empty()
}

/// Reports whether a row is read as wanted, in pieces of this size.
fn reads_as(alloc: Global, row: &Row, size: usize) -> Result<bool, Memory> {
    let (opening, parts, wanted, torn) = *row;
    let octets = joined(alloc, parts)?;
    let mut reader = Reader::new(alloc, opening)?;
    Ok(reads_pieces(&mut reader, &octets, size, wanted) && reader.torn() == torn)
}

/// Reports whether a row is read as wanted octet by octet, in pieces that cut packets, and at once.
fn is_read(alloc: Global, row: &Row) -> bool {
    for size in [1, 7, 8_192] {
        if reads_as(alloc, row, size) != Ok(true) {
            return false;
        }
    }
    true
}

/// The message of `LAST`.
const E0_TO_E4: &[u8] = b"\xE0\xE1\xE2\xE3\xE4";

/// The message of two fragments and `LAST`.
const LONG: &[u8] = b"\xF0\xF1\xF2\xF3\xF4\xF0\xF1\xF2\xF3\xF4\xE0\xE1\xE2\xE3\xE4";

/// The opening of a link with the TPDU size 1,024.
const OPENED: Wanted = Wanted::Opened(1_024);

/// The opening of a link with the TPDU size 128.
const SMALL_OPENED: Wanted = Wanted::Opened(128);

/// Links with packets of messages.
const JOINED: &[Row] = &[
    (
        Opening::Request,
        &[REQUEST, LAST, FRAGMENT, FRAGMENT, LAST],
        &[
            OPENED,
            Wanted::Message(E0_TO_E4, 22),
            Wanted::Message(LONG, 58),
        ],
        None,
    ),
    (
        Opening::Confirm,
        &[CONFIRM, LAST, b"\x03\x00\x00"],
        &[OPENED, Wanted::Message(E0_TO_E4, 22)],
        Some(3),
    ),
    (
        Opening::Request,
        &[REQUEST, FRAGMENT, b"\x03\x00\x00"],
        &[OPENED],
        Some(8),
    ),
    (
        Opening::Request,
        &[REQUEST, EMPTY_FRAGMENT],
        &[OPENED],
        Some(0),
    ),
    (
        Opening::Request,
        &[SMALL_REQUEST, b"\x03\x00\x00\x87\x02\xF0\x80", USER],
        &[SMALL_OPENED, Wanted::Message(USER, 22)],
        None,
    ),
    (
        Opening::Request,
        &[REQUEST, DISCONNECT, LAST],
        &[OPENED, Wanted::Disconnected(22)],
        None,
    ),
    (
        Opening::Confirm,
        &[CONFIRM, FRAGMENT, DISCONNECT, LAST],
        &[OPENED, Wanted::Disconnected(34)],
        Some(5),
    ),
];

/// Links that a packet with a fault ends.
const AT_FAULT: &[Row] = &[
    (
        Opening::Request,
        &[b"\x04\x00\x00\x07\x02\xF0\x80"],
        &[Wanted::Fault(ReadFault::BadFrame, 0)],
        None,
    ),
    (
        Opening::Request,
        &[REQUEST, b"\x03\x00\x00\x06\x02\xF0", LAST],
        &[OPENED, Wanted::Fault(ReadFault::BadFrame, 22)],
        None,
    ),
    (
        Opening::Request,
        &[b"\x03\x00\x20\x08"],
        &[Wanted::Fault(ReadFault::FrameTooLong, 0)],
        None,
    ),
    (
        Opening::Request,
        &[SMALL_REQUEST, b"\x03\x00\x00\x88"],
        &[SMALL_OPENED, Wanted::Fault(ReadFault::FrameTooLong, 22)],
        None,
    ),
    (
        Opening::Request,
        &[b"\x03\x00\x00\x07\x02\xFF\x80"],
        &[Wanted::Fault(ReadFault::BadTpdu, 0)],
        None,
    ),
    (
        Opening::Request,
        &[CONFIRM],
        &[Wanted::Fault(ReadFault::Unexpected, 0)],
        None,
    ),
    (
        Opening::Request,
        &[DISCONNECT],
        &[Wanted::Fault(ReadFault::Unexpected, 0)],
        None,
    ),
    (
        Opening::Request,
        &[REQUEST, REQUEST, LAST],
        &[OPENED, Wanted::Fault(ReadFault::Unexpected, 22)],
        None,
    ),
    (
        Opening::Request,
        &[REQUEST, FRAGMENT, ERROR],
        &[OPENED, Wanted::Fault(ReadFault::Unexpected, 34)],
        Some(5),
    ),
    (
        Opening::Request,
        &[
            REQUEST, THIRTEEN, THIRTEEN, THIRTEEN, THIRTEEN, THIRTEEN, LAST,
        ],
        &[OPENED, Wanted::Fault(ReadFault::TooManyFragments, 470)],
        Some(0),
    ),
];

/// The number of the first link that is read otherwise.
fn unmet(alloc: Global, rows: &[Row]) -> Option<usize> {
    for (number, row) in rows.iter().enumerate() {
        if !is_read(alloc, row) {
            return Some(number);
        }
    }
    None
}

/// Messages are joined from the packets of a link, however its octets come.
#[test]
fn messages_are_joined_from_packets(rt: HostRuntime) {
    all_hold(&rt, unmet(rt.alloc(), JOINED));
}

/// A packet with a fault ends a link, however its octets come.
#[test]
fn packets_at_fault_end_a_link(rt: HostRuntime) {
    all_hold(&rt, unmet(rt.alloc(), AT_FAULT));
}

/// Reports whether a reader that found a fault takes no more octets.
fn is_over(reader: &mut Reader) -> bool {
    reader.read(CONFIRM).octets == 0
}

/// What the side that dials finds in a connect request, which it never awaits.
const UNEXPECTED: &[Wanted] = &[Wanted::Fault(ReadFault::Unexpected, 0)];

/// Reports whether a reader that is restarted finds an opening.
fn reads_anew(reader: &mut Reader) -> bool {
    reader.restart();
    reads_pieces(reader, CONFIRM, 8_192, &[OPENED])
}

/// Reports whether a reader that is restarted after a fault reads another link.
fn begins_anew(alloc: Global) -> bool {
    match Reader::new(alloc, Opening::Confirm) {
        Ok(mut reader) => {
            reads_pieces(&mut reader, REQUEST, 8_192, UNEXPECTED)
                && is_over(&mut reader)
                && reads_anew(&mut reader)
        }
        Err(_) => false,
    }
}

/// A reader that is restarted after a fault reads another link.
#[test]
fn a_reader_begins_anew(rt: HostRuntime) {
    assert!(rt; begins_anew(rt.alloc()));
}
