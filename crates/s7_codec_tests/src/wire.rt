//! Tests of octets on a link: messages that go out in packets, inboxes, outboxes and TPDU sizes.
ghost use Rattle.std.specs.Prelude.{◌<◌};

use crate::rows::all_hold;
use s7_memory::MemoryLink;
use s7_outer::{Got, Memory, Octets, Sent};
use s7_wire::{Inbox, MOST_MESSAGE, Outbox, PIECE, put_message, tpdu_size};
use std::alloc::Global;

/// The 125 octets that a fragment takes if the TPDU size is 128.
const FRAGMENT: &[u8] = b"\x32\x03\x00\x00\x00\x05\x00\x02\x00\x74\x00\x00\x04\x01\xFF\x04\x03\x80\
    ABCDEFGHIJKLMNOPQRSTUVWXYZabcdefghijklmnopqrstuvwxyz0123456789\
    NOPQRSTUVWXYZABCDEFGHIJKLMnopqrstuvwxyzabcdef";

/// 45 octets. With fifteen times the 125 they are a message of 1,920.
const REMAINDER: &[u8] = b"ABCDEFGHIJKLMNOPQRSTUVWXYZabcdefghijklmnopqrs";

/// The octets before the 125 in a packet that isn't the last of its message.
const OPEN: &[u8] = b"\x03\x00\x00\x84\x02\xF0\x00";

/// Five octets.
const REST: &[u8] = b"\xF0\xF1\xF2\xF3\xF4";

/// The octets of these parts, one after another.
pub(crate) fn joined(alloc: Global, parts: &[&[u8]]) -> Result<Vec<u8>, Memory> {
    let mut all = Vec::new(alloc);
    for part in parts {
        all.extend_from_slice(part)?;
    }
    Ok(all)
}

/// A link that gives this input, moves at most `most` octets in a call, and has room for 4,096 octets.
fn line(alloc: Global, input: &[u8], most: usize) -> Result<MemoryLink, Memory>
    requires { 0 < most }
{
    MemoryLink::new(alloc, Octets::copy_of(alloc, input)?, most, 4_096, 7)
}

/// The answer of a flush. There is none if nothing is to be sent.
fn flushed(outbox: &mut Outbox, line: &mut MemoryLink) -> Option<Sent> {
    if outbox.is_empty() {
        return None;
    }
    Some(outbox.flush(line))
}

/// The answer of a refill. There is none if octets are left, or none are asked for.
fn refilled(inbox: &mut Inbox, line: &mut MemoryLink, most: usize) -> Option<Got> {
    if !inbox.is_empty() || most == 0 {
        return None;
    }
    Some(inbox.refill(line, most))
}

/// Uses `count` octets. Reports whether they were there.
fn is_advanced(inbox: &mut Inbox, count: usize) -> bool {
    let fits = count <= inbox.as_slice().len();
    if fits {
        inbox.advance(count);
    }
    fits
}

/// The octets before the last fragment of the longest message.
const CLOSE: &[u8] = b"\x03\x00\x00\x34\x02\xF0\x80";

/// The octets before the longest message if it is one fragment.
const WHOLE: &[u8] = b"\x03\x00\x07\x87\x02\xF0\x80";

/// The parts of the longest message: fifteen times the 125 octets, and the 45.
const LONGEST: &[&[u8]] = &[
    FRAGMENT, FRAGMENT, FRAGMENT, FRAGMENT, FRAGMENT, FRAGMENT, FRAGMENT, FRAGMENT, FRAGMENT,
    FRAGMENT, FRAGMENT, FRAGMENT, FRAGMENT, FRAGMENT, FRAGMENT, REMAINDER,
];

/// The codes of TPDU sizes, messages that go out at them, and the packets of the messages.
const MESSAGES: &[(u8, &[&[u8]], &[&[u8]])] = &[
    (
        0x07,
        &[FRAGMENT, REST],
        &[OPEN, FRAGMENT, b"\x03\x00\x00\x0C\x02\xF0\x80", REST],
    ),
    (
        0x07,
        &[FRAGMENT],
        &[b"\x03\x00\x00\x84\x02\xF0\x80", FRAGMENT],
    ),
    (0x07, &[], &[b"\x03\x00\x00\x07\x02\xF0\x80"]),
    (
        0x0A,
        &[FRAGMENT, REST],
        &[b"\x03\x00\x00\x89\x02\xF0\x80", FRAGMENT, REST],
    ),
    (
        0x07,
        LONGEST,
        &[
            OPEN, FRAGMENT, OPEN, FRAGMENT, OPEN, FRAGMENT, OPEN, FRAGMENT, OPEN, FRAGMENT, OPEN,
            FRAGMENT, OPEN, FRAGMENT, OPEN, FRAGMENT, OPEN, FRAGMENT, OPEN, FRAGMENT, OPEN,
            FRAGMENT, OPEN, FRAGMENT, OPEN, FRAGMENT, OPEN, FRAGMENT, OPEN, FRAGMENT, CLOSE,
            REMAINDER,
        ],
    ),
    (
        0x0B,
        LONGEST,
        &[
            WHOLE, FRAGMENT, FRAGMENT, FRAGMENT, FRAGMENT, FRAGMENT, FRAGMENT, FRAGMENT, FRAGMENT,
            FRAGMENT, FRAGMENT, FRAGMENT, FRAGMENT, FRAGMENT, FRAGMENT, FRAGMENT, REMAINDER,
        ],
    ),
];

/// The number of octets in which a message goes out, if all of them go in one call.
fn sent(line: &mut MemoryLink, code: u8, message: &[u8]) -> Option<usize> {
    if message.len() > MOST_MESSAGE || code < 7 || code > 13 {
        return None;
    }
    let mut outbox = Outbox::new();
    put_message(&mut outbox, tpdu_size(code), message);
    match flushed(&mut outbox, line) {
        Some(Sent::Bytes(count)) if outbox.is_empty() => Some(count),
        _ => None,
    }
}

/// Reports whether the message goes out in these packets.
fn goes_out(alloc: Global, code: u8, message: &[&[u8]], packets: &[&[u8]]) -> Result<bool, Memory> {
    let message = joined(alloc, message)?;
    let packets = joined(alloc, packets)?;
    let mut line = line(alloc, b"", 8_192)?;
    Ok(sent(&mut line, code, &message) == Some(packets.len()) && has_sent(&line, &packets))
}

/// The number of the first row whose message goes out otherwise.
fn unmet_message(alloc: Global) -> Option<usize> {
    for (number, (code, message, packets)) in MESSAGES.iter().enumerate() {
        if goes_out(alloc, *code, message, packets) != Ok(true) {
            return Some(number);
        }
    }
    None
}

/// Messages go out in the packets of the rows.
#[test]
fn messages_go_out_in_fragments(rt: HostRuntime) {
    all_hold(&rt, unmet_message(rt.alloc()));
}

/// Calls of an inbox: the number of octets that are used first, the number that is asked for after that, the answer of
/// the refill, which is `None` if octets are left, and the octets in the inbox.
const CALLS: &[(usize, usize, Option<Got>, &[u8])] = &[
    (0, PIECE, Some(Got::Bytes(3)), b"\x11\x22\x33"),
    (1, PIECE, None, b"\x22\x33"),
    (2, 2, Some(Got::Bytes(2)), b"\x44\x55"),
    (2, 20_000, Some(Got::Bytes(2)), b"\x66\x77"),
    (2, PIECE, Some(Got::End), b""),
    (0, 1, Some(Got::End), b""),
];

/// Reports whether an inbox answers a call so.
fn gives(
    inbox: &mut Inbox,
    line: &mut MemoryLink,
    call: (usize, usize, Option<Got>, &[u8]),
) -> bool {
    let (used, most, got, octets) = call;
    is_advanced(inbox, used) && refilled(inbox, line, most) == got && inbox.as_slice() == octets
}

/// The number of the first call that a new inbox answers otherwise.
fn unmet_call(line: &mut MemoryLink) -> Option<usize> {
    let mut inbox = Inbox::new();
    if !inbox.is_empty() {
        return Some(0);
    }
    for (number, call) in CALLS.iter().enumerate() {
        if !gives(&mut inbox, line, *call) {
            return Some(number);
        }
    }
    None
}

/// The number of the first such call over a link that gives seven octets, three in a call.
fn unmet_refill(alloc: Global) -> Option<usize> {
    match line(alloc, b"\x11\x22\x33\x44\x55\x66\x77", 3) {
        Ok(mut line) => unmet_call(&mut line),
        Err(_) => Some(0),
    }
}

/// An inbox gives the octets that its link gave, and the end.
#[test]
fn an_inbox_gives_what_a_link_gave(rt: HostRuntime) {
    all_hold(&rt, unmet_refill(rt.alloc()));
}

/// An outbox with two bodies. It is empty if a body has fewer than 3 octets or more than 2,000.
fn outbox_of(first: &[u8], second: &[u8]) -> Outbox {
    let mut outbox = Outbox::new();
    if first.len() >= 3 && first.len() <= 2_000 && second.len() >= 3 && second.len() <= 2_000 {
        outbox.put(first);
        outbox.put(second);
    }
    outbox
}

/// Puts a body of 3 to 2,000 octets into an outbox that has sent all. Reports whether both are so.
fn is_put(outbox: &mut Outbox, body: &[u8]) -> bool {
    let fits = outbox.is_empty() && body.len() >= 3 && body.len() <= 2_000;
    if fits {
        outbox.clear();
        outbox.put(body);
    }
    fits
}

/// Reports whether these are the octets that were written on a link.
fn has_sent(line: &MemoryLink, octets: &[u8]) -> bool {
    line.written() == octets
}

/// Reports whether a flush sends these octets after those before.
fn sends(outbox: &mut Outbox, line: &mut MemoryLink, octets: &[u8]) -> bool {
    flushed(outbox, line) == Some(Sent::Bytes(octets.len())) && line.written().ends_with(octets)
}

/// Reports whether an outbox that has sent all sends two octets of another body.
fn is_used_again(outbox: &mut Outbox, line: &mut MemoryLink) -> bool {
    flushed(outbox, line) == None
        && is_put(outbox, b"\x02\xF0\x80")
        && flushed(outbox, line) == Some(Sent::Bytes(2))
}

/// The packets of two bodies.
const BOTH: &[u8] = b"\x03\x00\x00\x07\x02\xF0\x80\x03\x00\x00\x08\x02\xF0\x00\x99";

/// Reports whether flushes send both packets, two octets at a time.
fn sends_all(outbox: &mut Outbox, line: &mut MemoryLink) -> bool {
    for piece in BOTH.chunks(2) {
        if !sends(outbox, line, piece) {
            return false;
        }
    }
    true
}

/// Reports whether an outbox sends the packets of the bodies that were put, and is used again.
fn sends_what_was_put(line: &mut MemoryLink) -> bool {
    let mut outbox = outbox_of(b"\x02\xF0\x80", b"\x02\xF0\x00\x99");
    sends_all(&mut outbox, line) && has_sent(line, BOTH) && is_used_again(&mut outbox, line)
}

/// Reports whether an outbox does so over a link that moves two octets in a call.
fn an_outbox_sends(alloc: Global) -> bool {
    match line(alloc, b"", 2) {
        Ok(mut line) => Outbox::new().is_empty() && sends_what_was_put(&mut line),
        Err(_) => false,
    }
}

/// Reports whether an inbox takes 8,192 octets of a link in the first receive, and 8 in the second. The first ones are
/// used before the second receive, since a refill answers only if no octets are left.
fn takes_8192(line: &mut MemoryLink) -> bool {
    let mut inbox = Inbox::new();
    refilled(&mut inbox, line, PIECE) == Some(Got::Bytes(8_192))
        && is_advanced(&mut inbox, 8_192)
        && refilled(&mut inbox, line, PIECE) == Some(Got::Bytes(8))
}

/// Reports whether a receive has room for all that fits. 8,200 octets are more than a receive takes, and fewer than the
/// link moves in a call.
fn a_receive_has_room(alloc: Global) -> bool {
    match line(alloc, &[7; 8_200], 10_000) {
        Ok(mut line) => takes_8192(&mut line),
        Err(_) => false,
    }
}

/// Reports whether a transmit is offered all octets of an outbox.
fn is_offered_all(line: &mut MemoryLink) -> bool {
    let mut outbox = outbox_of(&[1; 2_000], &[2; 1_000]);
    flushed(&mut outbox, line) == Some(Sent::Bytes(3_008)) && outbox.is_empty()
}

/// Reports whether a transmit is offered all that waits.
fn a_transmit_is_offered_all(alloc: Global) -> bool {
    match line(alloc, b"", 10_000) {
        Ok(mut line) => is_offered_all(&mut line),
        Err(_) => false,
    }
}

/// An outbox sends what was put, a receive has room for all that fits, and a transmit is offered all that waits.
#[test]
fn links_are_offered_all_that_fits(rt: HostRuntime) {
    assert!(rt;
        an_outbox_sends(rt.alloc())
            && a_receive_has_room(rt.alloc())
            && a_transmit_is_offered_all(rt.alloc())
    );
}

/// The codes of TPDU sizes, and the sizes.
const SIZES: &[(u8, u16)] = &[
    (0x07, 128),
    (0x08, 256),
    (0x09, 512),
    (0x0A, 1_024),
    (0x0B, 2_048),
    (0x0C, 4_096),
    (0x0D, 8_192),
];

/// Reports whether a code is that of this TPDU size.
fn is_size(code: u8, size: u16) -> bool {
    code >= 7 && code <= 13 && tpdu_size(code) == size
}

/// The number of the first row whose code isn't that of its size.
fn unmet_size() -> Option<usize> {
    for (number, (code, size)) in SIZES.iter().enumerate() {
        if !is_size(*code, *size) {
            return Some(number);
        }
    }
    None
}

/// The codes of TPDU sizes have their sizes.
#[test]
fn a_code_is_a_tpdu_size(rt: HostRuntime) {
    all_hold(&rt, unmet_size());
}
