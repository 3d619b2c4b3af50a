//! Links, doors and dials over TCP on this machine.
//!
//! Each of their calls is made in one function here, since each function that makes one is costly to prove.
use s7_os::{RealLink, TcpDial, TcpDoor};
use s7_outer::{Arrival, Clock, Dial, Dialled, Door, Got, Link, Octets, Sent, Tick};
use std::alloc::Global;

/// A link over the machine.
pub(crate) type Line = RealLink<HostRuntime>;

/// A door over TCP.
pub(crate) type Doorway = TcpDoor<HostRuntime>;

/// The greatest number of octets of one receive.
const MOST: usize = 4_096;

/// Transmits once. No octets are answered as if the link had no room.
pub(crate) fn transmit(line: &mut Line, octets: &[u8]) -> Sent {
    if octets.is_empty() {
        return Sent::NotYet;
    }
    line.transmit(octets)
}

/// Receives once, at most `room` octets, from 1 to 4,096, and appends them.
pub(crate) fn receive(line: &mut Line, room: usize, came: &mut Vec<u8>) -> Got {
    let mut into = [0u8; MOST];
    let got = received(line, &mut into, room);
    match got {
        Got::Bytes(count) if !appends(came, &into, count) => Got::Failed,
        _ => got,
    }
}

/// Appends the first `count` octets. Reports whether they are there, and memory is left for them.
fn appends(came: &mut Vec<u8>, octets: &[u8], count: usize) -> bool {
    match octets.get(..count) {
        Some(octets) => came.extend_from_slice(octets).is_ok(),
        None => false,
    }
}

/// Receives once into the first `room` octets.
fn received(line: &mut Line, into: &mut [u8], room: usize) -> Got {
    if room == 0 || room > into.len() {
        return Got::Failed;
    }
    line.receive(&mut into[..room])
}

/// Shuts the link.
pub(crate) fn shut(line: &mut Line) {
    line.shutdown();
}

/// The answer of the link's clock.
fn now(line: &mut Line) -> Tick {
    line.now()
}

/// The moment, in milliseconds since 1970.
pub(crate) fn moment(line: &mut Line) -> Option<u64> {
    match now(line) {
        Tick::At(moment) => Some(moment),
        Tick::Failed => None,
    }
}

/// A door that doesn't listen.
pub(crate) fn new_door(rt: &HostRuntime) -> Doorway {
    TcpDoor::new(*rt)
}

/// Reports whether the door listens on the port.
fn listens(door: &mut Doorway, port: u16) -> bool {
    door.listen(port).is_ok()
}

/// Makes a door listen on one of forty ports from this one on.
pub(crate) fn listen_from(door: &mut Doorway, first: u16) -> Option<u16> {
    for port in first..first.saturating_add(40) {
        if listens(door, port) {
            return Some(port);
        }
    }
    None
}

/// The next arrival at the door.
pub(crate) fn next(door: &mut Doorway) -> Arrival<Line> {
    door.next()
}

/// A dial that hasn't called.
pub(crate) fn a_dial(rt: &HostRuntime) -> TcpDial<HostRuntime> {
    TcpDial::new(*rt)
}

/// The answer of a dial to a call.
fn dialled(dial: &mut TcpDial<HostRuntime>, host: &str, port: u16) -> Dialled<Line> {
    dial.call(host, port)
}

/// A link to the port of this host.
pub(crate) fn call(rt: &HostRuntime, host: &str, port: u16) -> Option<Line> {
    match dialled(&mut a_dial(rt), host, port) {
        Dialled::Link(line) => Some(line),
        Dialled::Failed => None,
    }
}

/// A link to the port of this machine.
pub(crate) fn call_here(rt: &HostRuntime, port: u16) -> Option<Line> {
    call(rt, "127.0.0.1", port)
}

/// Reports whether the link takes all of these octets at once.
pub(crate) fn takes(line: &mut Line, octets: &[u8]) -> bool {
    transmit(line, octets) == Sent::Bytes(octets.len())
}

/// The first answer to a receive but that nothing is there yet. There are at most `most` receives.
pub(crate) fn late_answer(line: &mut Line, room: usize, most: u32, came: &mut Vec<u8>) -> Got {
    for _ in 0..most {
        let got = receive(line, room, came);
        if got != Got::NotYet {
            return got;
        }
    }
    Got::NotYet
}

/// Reports whether all octets of a telegram are there. The telegrams of these tests have fewer than 256 octets.
fn is_whole(came: &[u8]) -> bool {
    match came.get(3) {
        Some(len) => usize::from(*len) == came.len(),
        None => false,
    }
}

/// Appends the octets that come up to the end, or those of the next telegram, by at most `most` receives. Reports
/// whether the end or the whole telegram came. A receive waits 100 milliseconds at most.
fn gathers(line: &mut Line, room: usize, most: u32, is_to_end: bool, came: &mut Vec<u8>) -> bool {
    for _ in 0..most {
        match receive(line, room, came) {
            Got::Bytes(_) | Got::NotYet => {}
            Got::End => return is_to_end,
            Got::Failed => return false,
        }
        if !is_to_end && is_whole(came.as_slice()) {
            return true;
        }
    }
    false
}

/// The same octets. There are none if the end or the whole telegram doesn't come.
fn gathered(
    alloc: Global,
    line: &mut Line,
    room: usize,
    most: u32,
    is_to_end: bool,
) -> Option<Octets> {
    let mut came = Vec::new(alloc);
    if gathers(line, room, most, is_to_end, &mut came) {
        Some(Octets::of_vec(came))
    } else {
        None
    }
}

/// The octets that come up to the end.
pub(crate) fn rest_of(alloc: Global, line: &mut Line) -> Option<Octets> {
    gathered(alloc, line, MOST, 1_000, true)
}

/// The next telegram.
pub(crate) fn telegram(alloc: Global, line: &mut Line) -> Option<Octets> {
    gathered(alloc, line, 64, 200, false)
}

/// Sends octets. The result is the answer, which is the next telegram, since nothing comes unasked.
pub(crate) fn ask(alloc: Global, line: &mut Line, octets: &[u8]) -> Option<Octets> {
    if takes(line, octets) {
        telegram(alloc, line)
    } else {
        None
    }
}
