//! Tests of packets: a stream that is cut into them, their faults and limits, and packets that are written.

use crate::rows::all_hold;
use s7_tpkt::{Cutter, Fed, FedState, write_packet};

/// A stream of three packets: a connect request, a negotiation and a read.
const STREAM: [u8; 78] = [
    0x03, 0x00, 0x00, 0x16, 0x11, 0xE0, 0x00, 0x00, 0x00, 0x01, 0x00, 0xC0, 0x01, 0x0A, 0xC1, 0x02,
    0x01, 0x00, 0xC2, 0x02, 0x01, 0x02, //
    0x03, 0x00, 0x00, 0x19, 0x02, 0xF0, 0x80, 0x32, 0x01, 0x00, 0x00, 0x00, 0x04, 0x00, 0x08, 0x00,
    0x00, 0xF0, 0x00, 0x00, 0x01, 0x00, 0x01, 0x01, 0xE0, //
    0x03, 0x00, 0x00, 0x1F, 0x02, 0xF0, 0x80, 0x32, 0x01, 0x00, 0x00, 0x00, 0x05, 0x00, 0x0E, 0x00,
    0x00, 0x04, 0x01, 0x12, 0x0A, 0x10, 0x02, 0x00, 0x04, 0x00, 0x01, 0x84, 0x00, 0x00, 0x00,
];

/// The body of the connect request.
const CONNECT: [u8; 18] = [
    0x11, 0xE0, 0x00, 0x00, 0x00, 0x01, 0x00, 0xC0, 0x01, 0x0A, 0xC1, 0x02, 0x01, 0x00, 0xC2, 0x02,
    0x01, 0x02,
];

/// The body of the negotiation.
const NEGOTIATE: [u8; 21] = [
    0x02, 0xF0, 0x80, 0x32, 0x01, 0x00, 0x00, 0x00, 0x04, 0x00, 0x08, 0x00, 0x00, 0xF0, 0x00, 0x00,
    0x01, 0x00, 0x01, 0x01, 0xE0,
];

/// The body of the read.
const READ: [u8; 27] = [
    0x02, 0xF0, 0x80, 0x32, 0x01, 0x00, 0x00, 0x00, 0x05, 0x00, 0x0E, 0x00, 0x00, 0x04, 0x01, 0x12,
    0x0A, 0x10, 0x02, 0x00, 0x04, 0x00, 0x01, 0x84, 0x00, 0x00, 0x00,
];

/// The body of this number, from 0 on, in the stream.
fn body_of(number: usize) -> &'static [u8] {
    match number {
        0 => &CONNECT,
        1 => &NEGOTIATE,
        _ => &READ,
    }
}

/// The number of bodies that have come out after a piece, of which `before` came out before it. There is none if a body
/// came out that isn't the next of the stream.
fn bodies_after(cutter: &mut Cutter, piece: &[u8], before: usize) -> Option<usize> {
    let mut rest = piece;
    let mut count = before;
    for _ in 0..piece.len() {
        let fed = cutter.feed(rest);
        rest = &rest[fed.taken..];
        if fed.state == FedState::Whole {
            if count >= 3 || cutter.body() != body_of(count) {
                return None;
            }
            count += 1;
            cutter.clear();
        }
    }
    Some(count)
}

/// Reports whether the stream in pieces of this size gives its three bodies.
fn gives_bodies(size: usize) -> bool {
    if size == 0 {
        return false;
    }
    let mut cutter = Cutter::new();
    let mut count = 0;
    for piece in STREAM.chunks(size) {
        let Some(after) = bodies_after(&mut cutter, piece, count) else {
            return false;
        };
        count = after;
    }
    count == 3
}

/// Reports whether `taken` octets of a piece are taken, and the cutter comes to this state.
fn comes_to(cutter: &mut Cutter, piece: &[u8], taken: usize, state: FedState) -> bool {
    cutter.feed(piece) == Fed { taken, state }
}

/// Reports whether a piece leads to a state, which stays after another piece if it isn't `More`.
fn comes_to_stay(piece: &[u8], taken: usize, state: FedState, held: usize) -> bool {
    let mut cutter = Cutter::new();
    let comes = comes_to(&mut cutter, piece, taken, state) && cutter.held() == held;
    if state == FedState::More {
        return comes;
    }
    comes && comes_to(&mut cutter, &[0x03, 0x00], 0, state) && cutter.held() == held
}

/// A cutter with this limit. `None` is the limit of a new cutter.
fn cutter_of(limit: Option<u16>) -> Cutter {
    let mut cutter = Cutter::new();
    match limit {
        Some(limit) if limit >= 7 && limit <= 8_199 => cutter.set_limit(limit),
        _ => {}
    }
    cutter
}

/// Reports whether a header leads to this state, and `rest` octets of ample others are taken if it is `More`.
fn is_kept(limit: Option<u16>, header: &[u8], state: FedState, rest: usize) -> bool {
    let mut cutter = cutter_of(limit);
    comes_to(&mut cutter, header, 4, state)
        && (state != FedState::More
            || comes_to(&mut cutter, &[0xAA; 10_000], rest, FedState::Whole))
}

/// Reports whether a packet of `size` octets is this header and the body, and the octets after it are left.
fn is_packet(body: &[u8], header: &[u8; 4], size: usize) -> bool {
    if body.len() < 3 || body.len() > 590 {
        return false;
    }
    let end = body.len() + 4;
    let mut into = [0xAA; 600];
    write_packet(body, &mut into) == size
        && into.starts_with(header)
        && &into[4..end] == body
        && &into[end..end + 2] == [0xAA, 0xAA].as_slice()
}

/// What a cutter takes and gives, or a packet that is written.
enum Case {
    /// The size of pieces in which the stream gives its bodies.
    Cut(usize),
    /// A piece, the number of its octets that are taken, the state after it, and the number of octets that are held.
    State(&'static [u8], usize, FedState, usize),
    /// A limit, a header, the state after it, and the number of octets that the rest of the packet has.
    Limit(Option<u16>, &'static [u8], FedState, usize),
    /// A body, the header of its packet, and the length of the packet.
    Packet(&'static [u8], &'static [u8; 4], usize),
}

/// The cases.
const CASES: &[Case] = &[
    // A stream gives the same bodies in pieces of each size.
    Case::Cut(1),
    Case::Cut(23),
    Case::Cut(78),
    // A piece leads to its state at the octet that decides it, and the state stays.
    Case::State(b"", 0, FedState::More, 0),
    Case::State(b"\x03\x00\x00", 3, FedState::More, 3),
    Case::State(b"\x04", 1, FedState::BadVersion, 1),
    Case::State(b"\x04\x00\x00\x07", 1, FedState::BadVersion, 1),
    Case::State(b"\x03\x00\x00\x03", 4, FedState::BadLength, 4),
    Case::State(b"\x03\x00\x00\x06\x02\xF0", 4, FedState::BadLength, 4),
    Case::State(b"\x03\x00\x00\x07\x02\xF0\x80", 7, FedState::Whole, 0),
    Case::State(b"\x03\xFF\x00\x07\x02\xF0\x80\x03", 7, FedState::Whole, 0),
    Case::State(b"\x03\x00\x20\x07", 4, FedState::More, 4),
    Case::State(b"\x03\x00\x20\x08\x02", 4, FedState::TooLong, 4),
    Case::State(b"\x03\x00\xFF\xFF\x02", 4, FedState::TooLong, 4),
    // A packet as long as the limit is whole, and a longer one is refused.
    Case::Limit(None, b"\x03\x00\x20\x07", FedState::More, 8_195),
    Case::Limit(Some(1_031), b"\x03\x00\x04\x07", FedState::More, 1_027),
    Case::Limit(Some(1_031), b"\x03\x00\x04\x08", FedState::TooLong, 0),
    // Packets are written with their headers.
    Case::Packet(&[0x02, 0xF0, 0x80], b"\x03\x00\x00\x07", 7),
    Case::Packet(&[0x02; 508], b"\x03\x00\x02\x00", 512),
];

/// Reports whether a case holds.
fn holds(case: &Case) -> bool {
    match *case {
        Case::Cut(size) => gives_bodies(size),
        Case::State(piece, taken, state, held) => comes_to_stay(piece, taken, state, held),
        Case::Limit(limit, header, state, rest) => is_kept(limit, header, state, rest),
        Case::Packet(body, header, size) => is_packet(body, header, size),
    }
}

/// The number of the first case that doesn't hold.
fn unmet(cases: &[Case]) -> Option<usize> {
    for (number, case) in cases.iter().enumerate() {
        if !holds(case) {
            return Some(number);
        }
    }
    None
}

/// Streams are cut into packets, and packets are written, as the cases say.
#[test]
fn packets_are_cut_and_written(rt: HostRuntime) {
    all_hold(&rt, unmet(CASES));
}
