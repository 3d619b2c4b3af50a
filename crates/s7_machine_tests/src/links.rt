//! Tests of connections over TCP, and of the clock of links.
use crate::line::{
    Doorway, Line, call, call_here, late_answer, listen_from, moment, new_door, next, receive,
    shut, transmit,
};
use s7_os::RealLink;
use s7_outer::{Arrival, Got, Sent};
use s7_wire::{Inbox, PIECE};
use std::alloc::Global;
use std::net::{Ipv4Addr, TcpStream};
use std::thread;
use std::thread::{Threads, join};
use std::time::Duration;

/// The first port that the doors try.
const FIRST_PORT: u16 = 47_102;

/// 2024-01-01, in milliseconds.
const YEAR_2024: u64 = 1_704_067_200_000;

/// Reports whether a link shows the time, and has ended.
fn has_the_time_and_ends(alloc: Global, line: &mut Line) -> bool {
    is_after(moment(line), YEAR_2024)
        && answers(alloc, line, Got::End)
        && answers(alloc, line, Got::End)
}

/// Reports whether a moment is there, and is later than this one.
fn is_after(moment: Option<u64>, before: u64) -> bool {
    match moment {
        Some(moment) => moment > before,
        None => false,
    }
}

/// Reports whether a link over the standard streams shows the time, and has ended. The standard input of a test has
/// ended.
fn streams_have_the_time_and_end(rt: &HostRuntime) -> bool {
    match RealLink::standard(rt.alloc(), *rt) {
        Ok(mut line) => has_the_time_and_ends(rt.alloc(), &mut line),
        Err(_) => false,
    }
}

/// The ends of a connection, each until it is dropped.
#[derive(Drop)]
struct Ends {
    client: Option<Line>,
    server: Option<Line>,
}

/// A door that listens, and its port.
fn a_door(rt: &HostRuntime) -> Option<(Doorway, u16)> {
    let mut door = new_door(rt);
    match listen_from(&mut door, FIRST_PORT) {
        Some(port) => Some((door, port)),
        None => None,
    }
}

/// The next link of a door.
fn arrived(door: &mut Doorway) -> Option<Line> {
    match next(door) {
        Arrival::Link(line) => Some(line),
        Arrival::End | Arrival::Failed => None,
    }
}

/// The ends of a connection between a dial and a door, the door, and its port.
fn connected(rt: &HostRuntime) -> Option<(Ends, Doorway, u16)> {
    let (mut door, port) = a_door(rt)?;
    let client = call_here(rt, port);
    let server = arrived(&mut door);
    Some((Ends { client, server }, door, port))
}

/// Reports whether a door that never listened gives no link.
fn is_silent(rt: &HostRuntime) -> bool {
    matches!(next(&mut new_door(rt)), Arrival::Failed)
}

/// Reports whether nobody answers at the port of a host.
fn is_unanswered(rt: &HostRuntime, host: &str, port: u16) -> bool {
    call(rt, host, port).is_none()
}

/// The port of a door that a link reached, and at which nobody answered on another host. The door is dropped.
fn left_port(rt: &HostRuntime) -> Option<u16> {
    let (ends, _door, port) = connected(rt)?;
    if ends.server.is_some() && is_unanswered(rt, "127.0.0.2", port) {
        Some(port)
    } else {
        None
    }
}

/// Reports whether nobody answers at a door's port on another host, nor on this one once the door is dropped.
fn are_unanswered(rt: &HostRuntime) -> bool {
    match left_port(rt) {
        Some(port) => is_unanswered(rt, "127.0.0.1", port),
        None => false,
    }
}

/// Reports whether a link shows the time, and a door that never listened and dials that nobody answers fail.
fn have_the_time_or_fail(rt: &HostRuntime) -> bool {
    streams_have_the_time_and_end(rt) && is_silent(rt) && are_unanswered(rt)
}

/// A link shows the time. A door that never listened fails, and so does a dial that nobody answers.
#[test]
fn links_have_the_time_and_doors_and_dials_fail(rt: HostRuntime) {
    assert!(rt; have_the_time_or_fail(&rt));
}

/// One end of a connection.
enum Side {
    Client,
    Server,
}

/// What a side does, and the outcome.
enum Act {
    /// The side transmits these octets by one call, which has this answer.
    Transmits(&'static [u8], Sent),
    /// The side receives at most this number of octets by one call, and these come.
    Receives(usize, &'static [u8]),
    /// Nothing comes, and the call waits for at least 50 milliseconds.
    Waits,
    /// The end comes.
    Ends,
    /// A receive fails, once it no longer waits.
    FailsToReceive,
    /// A transmit fails, once the system knows that nobody reads.
    FailsToTransmit,
    /// The side shuts its link.
    Shuts,
    /// The side drops its link.
    Leaves,
    /// The side transmits this number of octets of the text, and each transmit takes all octets that are left.
    TransmitsText(usize),
    /// This number of octets of the text comes after some time, and the end after them.
    ReceivesText(usize),
    /// An inbox is refilled after some time, once for each of these numbers, by that many octets of the text.
    Refills(&'static [usize]),
}

/// Rows: what a connection shows, and what the sides do, one after another.
const CONNECTIONS: &[(&str, &[(Side, Act)])] = &[
    (
        "octets go both ways, and a receive waits for them",
        &[
            (Side::Client, Act::Transmits(b"abc", Sent::Bytes(3))),
            (Side::Server, Act::Receives(2, b"ab")),
            (Side::Server, Act::Receives(8, b"c")),
            (Side::Client, Act::Waits),
            (Side::Server, Act::Transmits(b"x", Sent::Bytes(1))),
            (Side::Client, Act::Receives(8, b"x")),
        ],
    ),
    (
        "the peer of a link that was shut and is still held gets what was sent, and then the end",
        &[
            (Side::Server, Act::Transmits(b"yz", Sent::Bytes(2))),
            (Side::Server, Act::Shuts),
            (Side::Client, Act::Transmits(b"on", Sent::Bytes(2))),
            (Side::Client, Act::Receives(8, b"yz")),
            (Side::Client, Act::Ends),
            (Side::Client, Act::Ends),
            (Side::Server, Act::Transmits(b"x", Sent::Failed)),
            (Side::Server, Act::Shuts),
            (Side::Server, Act::Leaves),
            (Side::Client, Act::FailsToTransmit),
        ],
    ),
    (
        "a peer that leaves octets behind resets the connection, which is a fault",
        &[
            (Side::Client, Act::Transmits(b"abc", Sent::Bytes(3))),
            (Side::Server, Act::Receives(1, b"a")),
            (Side::Server, Act::Leaves),
            (Side::Client, Act::FailsToReceive),
            (Side::Client, Act::Transmits(b"x", Sent::Failed)),
        ],
    ),
    (
        "a receive has room for 8,192 octets",
        &[
            (Side::Server, Act::TransmitsText(9_000)),
            (Side::Client, Act::Refills(&[8_192, 808])),
        ],
    ),
    (
        "a peer that sends on loses nothing",
        &[
            (Side::Server, Act::TransmitsText(HALF_TAKEN)),
            (Side::Server, Act::Shuts),
            (Side::Client, Act::Transmits(b"on", Sent::Bytes(2))),
            (Side::Client, Act::ReceivesText(HALF_TAKEN)),
        ],
    ),
];

/// Reports whether these octets come by one call.
fn comes(alloc: Global, line: &mut Line, room: usize, octets: &[u8]) -> bool {
    let mut came = Vec::new(alloc);
    receive(line, room, &mut came) == Got::Bytes(octets.len()) && came.as_slice() == octets
}

/// Reports whether a receive has this answer.
fn answers(alloc: Global, line: &mut Line, wanted: Got) -> bool {
    receive(line, 8, &mut Vec::new(alloc)) == wanted
}

/// Reports whether at least 50 milliseconds passed between two moments.
fn have_passed(before: Option<u64>, after: Option<u64>) -> bool {
    match (before, after) {
        (Some(before), Some(after)) => after.saturating_sub(before) >= 50,
        _ => false,
    }
}

/// Reports whether nothing comes for 50 milliseconds.
fn waits(alloc: Global, line: &mut Line) -> bool {
    let before = moment(line);
    answers(alloc, line, Got::NotYet) && have_passed(before, moment(line))
}

/// Reports whether a receive fails once it no longer waits.
fn fails_to_receive(alloc: Global, line: &mut Line) -> bool {
    late_answer(line, 8, 20, &mut Vec::new(alloc)) == Got::Failed
}

/// Reports whether a transmit fails. Some of the first ones may succeed, before the system knows that nobody reads.
fn fails_to_transmit(line: &mut Line) -> bool {
    for _ in 0..20 {
        match transmit(line, b"x") {
            Sent::Bytes(_) => {}
            Sent::NotYet => return false,
            Sent::Failed => return true,
        }
    }
    false
}

/// More octets than the buffers of both sockets have room for.
const LONG: usize = 16_000_000;

/// More octets than a peer that takes none has room for, and not more than both have.
const HALF_TAKEN: usize = 1_000_000;

/// The octet at an offset of the text.
fn octet_at(place: usize) -> u8 {
    (place % 251) as u8
}

/// Appends the first octets of the text. Reports whether memory is left for them.
fn appends_text(text: &mut Vec<u8>, length: usize) -> bool {
    for place in 0..length {
        if text.push(octet_at(place)).is_err() {
            return false;
        }
    }
    true
}

/// The first octets of the text.
fn text_of(alloc: Global, length: usize) -> Option<Vec<u8>> {
    let mut text = Vec::new(alloc);
    if appends_text(&mut text, length) {
        Some(text)
    } else {
        None
    }
}

/// Reports whether these are the octets of the text from an offset on.
fn stands_at(octets: &[u8], place: usize) -> bool {
    for (k, octet) in octets.iter().enumerate() {
        if *octet != octet_at(place.wrapping_add(k)) {
            return false;
        }
    }
    true
}

/// The octets that are left after a transmit. There are none if it failed.
fn left_after(octets: &[u8], sent: Sent) -> Option<&[u8]> {
    match sent {
        Sent::Bytes(count) => octets.get(count..),
        Sent::NotYet => Some(octets),
        Sent::Failed => None,
    }
}

/// Transmits the whole text, and counts the transmits that took fewer octets than were left.
fn transmit_all(line: &mut Line, text: &[u8]) -> Option<u64> {
    let mut rest = text;
    let mut short = 0u64;
    for _ in 0..u64::MAX {
        let sent = transmit(line, rest);
        rest = left_after(rest, sent)?;
        if rest.is_empty() {
            return Some(short);
        }
        if matches!(sent, Sent::Bytes(_)) {
            short = short.saturating_add(1);
        }
    }
    None
}

/// Transmits the first octets of the text, and counts the transmits that took fewer octets than were left.
fn transmit_text(alloc: Global, line: &mut Line, count: usize) -> Option<u64> {
    transmit_all(line, text_of(alloc, count)?.as_slice())
}

/// Receives up to the end. The result is the number of octets. There is none if they aren't those of the text.
fn receive_text(line: &mut Line, came: &mut Vec<u8>) -> Option<usize> {
    let mut place = 0usize;
    for _ in 0..u64::MAX {
        came.clear();
        match receive(line, 4_096, came) {
            Got::Bytes(_) | Got::NotYet => {}
            Got::End => return Some(place),
            Got::Failed => return None,
        }
        if !stands_at(came.as_slice(), place) {
            return None;
        }
        place = place.saturating_add(came.len());
    }
    None
}

/// The number of octets that come up to the end. There is none if they aren't those of the text.
fn receive_all(alloc: Global, line: &mut Line) -> Option<usize> {
    receive_text(line, &mut Vec::new(alloc))
}

/// Refills an empty inbox. One that isn't empty is answered as if the link failed.
fn refill(inbox: &mut Inbox, line: &mut Line) -> Got {
    if inbox.is_empty() {
        inbox.refill(line, PIECE)
    } else {
        Got::Failed
    }
}

/// Reports whether an inbox has this number of octets, which are those of the text from an offset on.
fn holds(inbox: &Inbox, place: usize, count: usize) -> bool {
    let came = inbox.as_slice();
    came.len() == count && stands_at(came, place)
}

/// Takes all octets of an inbox.
fn is_taken(inbox: &mut Inbox) -> bool {
    inbox.advance(inbox.as_slice().len());
    inbox.is_empty()
}

/// Reports whether an empty inbox gets this number of octets from the link, which are those of the text from an offset
/// on.
fn is_refilled(inbox: &mut Inbox, line: &mut Line, place: usize, count: usize) -> bool {
    refill(inbox, line) == Got::Bytes(count) && holds(inbox, place, count) && is_taken(inbox)
}

/// Reports whether an inbox gets these numbers of octets of the text, by one call after another.
fn refills(line: &mut Line, counts: &[usize]) -> bool {
    let mut inbox = Inbox::new();
    let mut place = 0usize;
    for count in counts {
        if !is_refilled(&mut inbox, line, place, *count) {
            return false;
        }
        place = place.saturating_add(*count);
    }
    true
}

/// Waits until all octets have come that are on their way.
fn rest(rt: &HostRuntime) {
    drop(thread::sleep(rt, Duration::from_millis(200)));
}

/// Reports whether a whole text is transmitted, each time with all octets that are left.
fn is_transmitted(alloc: Global, line: &mut Line, count: usize) -> bool {
    transmit_text(alloc, line, count) == Some(0)
}

/// Reports whether this number of octets of the text comes, and the end after them.
fn text_comes(alloc: Global, line: &mut Line, count: usize) -> bool {
    receive_all(alloc, line) == Some(count)
}

/// Reports whether an act that receives octets which are there has its outcome.
fn comes_late(rt: &HostRuntime, line: &mut Line, act: &Act) -> bool {
    rest(rt);
    match act {
        Act::ReceivesText(count) => text_comes(rt.alloc(), line, *count),
        Act::Refills(counts) => refills(line, counts),
        _ => false,
    }
}

/// Reports whether an act that receives has its outcome.
fn comes_so(rt: &HostRuntime, line: &mut Line, act: &Act) -> bool {
    match act {
        Act::Receives(room, octets) => comes(rt.alloc(), line, *room, octets),
        Act::Waits => waits(rt.alloc(), line),
        Act::Ends => answers(rt.alloc(), line, Got::End),
        Act::FailsToReceive => fails_to_receive(rt.alloc(), line),
        _ => comes_late(rt, line, act),
    }
}

/// Reports whether an act has its outcome.
fn goes(rt: &HostRuntime, line: &mut Line, act: &Act) -> bool {
    match act {
        Act::Transmits(octets, sent) => transmit(line, octets) == *sent,
        Act::FailsToTransmit => fails_to_transmit(line),
        Act::TransmitsText(count) => is_transmitted(rt.alloc(), line, *count),
        Act::Shuts => {
            shut(line);
            true
        }
        _ => comes_so(rt, line, act),
    }
}

/// Drops the link of a side. Reports whether it wasn't dropped yet.
fn leaves(end: &mut Option<Line>) -> bool {
    end.take().is_some()
}

/// Reports whether an act has its outcome, at a side that isn't dropped yet.
fn goes_at(rt: &HostRuntime, end: &mut Option<Line>, act: &Act) -> bool {
    if matches!(act, Act::Leaves) {
        return leaves(end);
    }
    match end {
        Some(line) => goes(rt, line, act),
        None => false,
    }
}

/// Reports whether an act has its outcome, at this side.
fn goes_by(rt: &HostRuntime, ends: &mut Ends, side: &Side, act: &Act) -> bool {
    match side {
        Side::Client => goes_at(rt, &mut ends.client, act),
        Side::Server => goes_at(rt, &mut ends.server, act),
    }
}

/// Reports whether all acts have their outcomes, one after another.
fn all_go(rt: &HostRuntime, ends: &mut Ends, acts: &[(Side, Act)]) -> bool {
    for (side, act) in acts {
        if !goes_by(rt, ends, side, act) {
            return false;
        }
    }
    true
}

/// Reports whether all acts have their outcomes on a new connection.
fn all_go_on_new(rt: &HostRuntime, acts: &[(Side, Act)]) -> bool {
    match connected(rt) {
        Some((mut ends, _door, _port)) => all_go(rt, &mut ends, acts),
        None => false,
    }
}

/// What the first connection shows on which an act doesn't have its outcome.
fn unmet(rt: &HostRuntime, connections: &[(&'static str, &[(Side, Act)])]) -> Option<&'static str> {
    for (shown, acts) in connections {
        if !all_go_on_new(rt, acts) {
            return Some(*shown);
        }
    }
    None
}

/// Connections give the octets that were sent, and end or fail as the rows say.
#[test]
fn connections_give_what_was_sent_and_end_or_fail(rt: HostRuntime) {
    let unmet = unmet(&rt, CONNECTIONS);
    assert!(rt; unmet.is_none(), "{unmet:?}");
}

/// A stream to the port of this machine.
fn a_stream(rt: &HostRuntime, port: u16) -> Option<TcpStream> {
    TcpStream::connect(rt, (Ipv4Addr::LOCALHOST, port)).ok()
}

/// Reports whether the writes of a stream wait for 10 milliseconds from now on.
fn is_hasty(stream: &TcpStream) -> bool {
    stream
        .set_write_timeout(Some(Duration::from_millis(10)))
        .is_ok()
}

/// A link whose transmits wait for 10 milliseconds.
fn a_hasty_line(rt: &HostRuntime, port: u16) -> Option<Line> {
    let stream = a_stream(rt, port)?;
    if is_hasty(&stream) {
        RealLink::stream(*rt, stream).ok()
    } else {
        None
    }
}

/// What a writer and a reader of the text do.
#[derive(Clone, Copy)]
enum Reading {
    /// The transmits wait for 10 milliseconds. The reader receives all octets, after some time.
    Slow,
    /// The reader receives 8 octets and closes while more are on their way.
    Closed,
}

/// The link of a writer.
fn a_line(rt: &HostRuntime, port: u16, reading: Reading) -> Option<Line> {
    match reading {
        Reading::Slow => a_hasty_line(rt, port),
        Reading::Closed => call_here(rt, port),
    }
}

/// The number of transmits of a new link that took fewer octets than were left, if the whole text was taken.
fn written(rt: HostRuntime, port: u16, reading: Reading) -> Option<u64> {
    transmit_text(rt.alloc(), &mut a_line(&rt, port, reading)?, LONG)
}

/// The number of octets that come by one call, if any come.
fn receive_some(alloc: Global, line: &mut Line) -> Option<usize> {
    match receive(line, 8, &mut Vec::new(alloc)) {
        Got::Bytes(count) => Some(count),
        Got::End | Got::NotYet | Got::Failed => None,
    }
}

/// The number of octets of the text that come to a reader.
fn read_on(rt: &HostRuntime, line: &mut Line, reading: Reading) -> Option<usize> {
    match reading {
        Reading::Slow => {
            rest(rt);
            receive_all(rt.alloc(), line)
        }
        Reading::Closed => receive_some(rt.alloc(), line),
    }
}

/// The number of octets of the text that come on the next link of a door.
fn read(rt: HostRuntime, mut door: Doorway, reading: Reading) -> Option<usize> {
    read_on(&rt, &mut arrived(&mut door)?, reading)
}

/// What a writer and a reader count.
type Counts = (Option<u64>, Option<usize>);

/// What a writer and a reader count that run at the same time.
fn at_once<R: Threads>(
    rt: &R,
    host: HostRuntime,
    (door, port): (Doorway, u16),
    reading: Reading,
) -> Counts {
    join(
        rt,
        move || written(host, port, reading),
        move || read(host, door, reading),
    )
}

/// Reports whether the counts are those of a slow reader that loses nothing, or of a reader that closes.
fn are_so(reading: Reading, counts: Counts) -> bool {
    match reading {
        Reading::Slow => matches!(counts, (Some(1..), Some(LONG))),
        Reading::Closed => matches!(counts, (None, Some(8))),
    }
}

/// Reports whether a writer and a reader that run at the same time count so.
fn go_at_once<R: Threads>(rt: &R, host: HostRuntime, reading: Reading) -> bool {
    match a_door(&host) {
        Some(door) => are_so(reading, at_once(rt, host, door, reading)),
        None => false,
    }
}

/// Reports whether a slow reader loses no octet, and a transmit to a closed stream fails.
fn slow_and_closed_go<R: Threads>(rt: &R, host: HostRuntime) -> bool {
    go_at_once(rt, host, Reading::Slow) && go_at_once(rt, host, Reading::Closed)
}

/// A slow reader loses no octet, and a transmit to a closed stream fails.
#[test]
fn slow_readers_lose_nothing_and_closed_streams_fail(rt: HostRuntime) {
    assert!(rt; slow_and_closed_go(&rt, rt));
}
