//! Tests of the objects in memory: links, links that fail, buffers, outputs, files, dials, doors, gates and pipes.
ghost use Rattle.std.specs.Prelude.{◌<◌};

use crate::rows::all_hold;
use s7_memory::{
    FailingLink, Fate, HoldGate, MemoryDial, MemoryDoor, MemoryFiles, MemoryLink, MemoryOut,
    PipeEnd, Pipes, Side,
};
use s7_outer::{
    Arrival, Buffer, Clock, Dial, Dialled, Door, FileFault, Files, Gate, Got, Link, Memory, Octets,
    OpenGate, Out, Sent, Tick,
};
use std::alloc::Global;
use std::sync::Wait;

/// A call of a link, and its answer.
enum Call {
    /// A receive of at most this many octets, from 1 to 8, its answer, and the octets.
    Receives(usize, Got, &'static [u8]),
    /// A transmit of these octets, of which there is at least one, and its answer.
    Transmits(&'static [u8], Sent),
    /// A look at the clock, and its answer.
    Looks(Tick),
}

/// Reports whether a receive has this answer and these octets.
fn gives<L: Link>(link: &mut L, room: usize, got: Got, octets: &[u8]) -> bool {
    let mut into = [0u8; 8];
    if room == 0 || room > 8 {
        return false;
    }
    link.receive(&mut into[..room]) == got && into.starts_with(octets)
}

/// Reports whether a transmit has this answer.
fn takes<L: Link>(link: &mut L, octets: &[u8], sent: Sent) -> bool {
    !octets.is_empty() && link.transmit(octets) == sent
}

/// Reports whether a clock shows this.
fn is_now<C: Clock>(clock: &mut C, tick: Tick) -> bool {
    clock.now() == tick
}

/// Reports whether a link answers a call so.
fn answers<L: Link + Clock>(link: &mut L, call: &Call) -> bool {
    match call {
        Call::Receives(room, got, octets) => gives(link, *room, *got, octets),
        Call::Transmits(octets, sent) => takes(link, octets, *sent),
        Call::Looks(tick) => is_now(link, *tick),
    }
}

/// Reports whether a link answers all calls so, one after another.
fn answers_all<L: Link + Clock>(link: &mut L, calls: &[Call]) -> bool {
    for call in calls {
        if !answers(link, call) {
            return false;
        }
    }
    true
}

/// A link that moves at most `most` octets in a call and has room for `room` octets. Its clock shows 7.
fn link(alloc: Global, input: &[u8], most: usize, room: usize) -> Result<MemoryLink, Memory>
    requires { 0 < most }
{
    MemoryLink::new(alloc, Octets::copy_of(alloc, input)?, most, room, 7)
}

/// Reports whether these octets were written on a link, and it is shut exactly after a shutdown.
fn is_left(link: &mut MemoryLink, octets: &[u8]) -> bool {
    let is_open = !link.is_shut();
    link.shutdown();
    is_open && link.written() == octets && link.is_shut()
}

/// The calls of a link that gives `abcde`, two octets in a call, and has room for three.
const MOVED: &[Call] = &[
    Call::Receives(8, Got::Bytes(2), b"ab"),
    Call::Receives(1, Got::Bytes(1), b"c"),
    Call::Receives(8, Got::Bytes(2), b"de"),
    Call::Receives(8, Got::End, b""),
    Call::Receives(8, Got::End, b""),
    Call::Transmits(b"xyz!", Sent::Bytes(2)),
    Call::Transmits(b"z!", Sent::Bytes(1)),
    Call::Transmits(b"!", Sent::Failed),
    Call::Looks(Tick::At(7)),
];

/// Reports whether a link in memory moves at most two octets in a call, and keeps what was written.
fn a_link_moves(alloc: Global) -> bool {
    match link(alloc, b"abcde", 2, 3) {
        Ok(mut link) => answers_all(&mut link, MOVED) && is_left(&mut link, b"xyz"),
        Err(_) => false,
    }
}

/// What becomes of the first calls of a link that fails.
const FATES: &[Fate] = &[
    Fate::NotYet,
    Fate::Fail,
    Fate::Pass,
    Fate::NotYet,
    Fate::Fail,
];

/// A failing link over one that moves one octet in a call, gives two and takes one.
fn failing(alloc: Global) -> Result<FailingLink<MemoryLink>, Memory> {
    let inner = link(alloc, b"ab", 1, 1)?;
    Ok(FailingLink::new(inner, Vec::from_slice(alloc, FATES)?))
}

/// The calls of the failing link.
const FATED: &[Call] = &[
    Call::Receives(8, Got::NotYet, b""),
    Call::Transmits(b"x", Sent::Failed),
    Call::Receives(8, Got::Bytes(1), b"a"),
    Call::Looks(Tick::At(7)),
    Call::Looks(Tick::Failed),
    Call::Transmits(b"x", Sent::Bytes(1)),
];

/// Reports whether a failing link wrote these octets and is shut after a shutdown.
fn is_shut(link: &mut FailingLink<MemoryLink>, octets: &[u8]) -> bool {
    let has_written = link.inner().written() == octets;
    link.shutdown();
    has_written && link.inner().is_shut()
}

/// Reports whether a failing link counts receives, transmits and looks at the clock alike.
fn a_failing_link_counts(alloc: Global) -> bool {
    match failing(alloc) {
        Ok(mut link) => answers_all(&mut link, FATED) && is_shut(&mut link, b"x"),
        Err(_) => false,
    }
}

/// Links in memory move two octets in a call, and failing links count all calls.
#[test]
fn links_in_memory_move_and_fail(rt: HostRuntime) {
    assert!(rt; a_link_moves(rt.alloc()) && a_failing_link_counts(rt.alloc()));
}

/// A buffer of room for four octets. It holds these, if each part has at most two.
fn buffer(alloc: Global, first: &[u8], second: &[u8]) -> Result<Buffer, Memory> {
    let mut buffer = Buffer::new(alloc, 4)?;
    if first.len() <= 2 && second.len() <= 2 {
        buffer.add(first);
        buffer.add(second);
    }
    Ok(buffer)
}

/// Reports whether a buffer holds these octets and has this room.
fn holds(buffer: &Buffer, octets: &[u8], room: usize) -> bool {
    buffer.as_slice() == octets && buffer.room() == room
}

/// Reports whether these octets are taken out of a buffer.
fn are_taken(buffer: &mut Buffer, octets: &[u8]) -> bool {
    let taken = buffer.take();
    taken.as_slice() == octets && taken.into_vec().len() == octets.len()
}

/// Reports whether a buffer holds what was added until it is taken.
fn a_buffer_gives(alloc: Global) -> bool {
    match buffer(alloc, b"ab", b"cd") {
        Ok(mut buffer) => {
            holds(&buffer, b"abcd", 4) && are_taken(&mut buffer, b"abcd") && holds(&buffer, b"", 0)
        }
        Err(_) => false,
    }
}

/// Writes an octet at the second place of a buffer. Reports whether the buffer has three octets.
fn is_changed(buffer: &mut Buffer, octet: u8) -> bool {
    let octets = buffer.as_mut_slice();
    if octets.len() != 3 {
        return false;
    }
    octets[1] = octet;
    true
}

/// Reports whether the octets of a buffer are changed in place.
fn a_buffer_is_written(alloc: Global) -> bool {
    match buffer(alloc, b"ab", b"c") {
        Ok(mut buffer) => is_changed(&mut buffer, b'x') && holds(&buffer, b"axc", 4),
        Err(_) => false,
    }
}

/// Reports whether an output takes all octets of a piece.
fn is_put(out: &mut MemoryOut, piece: &[u8]) -> bool {
    out.put(piece).is_ok()
}

/// Reports whether an output keeps the octets for which it has room.
fn an_output_keeps(alloc: Global) -> bool {
    match MemoryOut::new(alloc, 5) {
        Ok(mut out) => {
            is_put(&mut out, b"abc")
                && !is_put(&mut out, b"defg")
                && out.text() == b"abcde".as_slice()
        }
        Err(_) => false,
    }
}

/// A buffer gives what was added, and is written in place, and an output keeps what fits.
#[test]
fn buffers_and_outputs_keep_what_was_added(rt: HostRuntime) {
    assert!(rt;
        a_buffer_gives(rt.alloc()) && a_buffer_is_written(rt.alloc()) && an_output_keeps(rt.alloc())
    );
}

/// Reports whether a read has this answer and gives these octets.
fn reads(
    alloc: Global,
    files: &mut MemoryFiles,
    path: &str,
    end: Result<(), FileFault>,
    octets: &[u8],
) -> bool {
    let mut text = Vec::new(alloc);
    files.read(alloc, path, &mut text) == end && text.as_slice() == octets
}

/// A write of octets under a path, and its answer.
type Write = (&'static str, &'static [u8], Result<(), FileFault>);

/// Reports whether the writes have their answers, one after another.
fn write_all(alloc: Global, files: &mut MemoryFiles, writes: &[Write]) -> bool {
    for &(path, octets, end) in writes {
        if files.write(alloc, path, octets) != end {
            return false;
        }
    }
    true
}

/// Reports whether a file is brought in.
fn is_inserted(alloc: Global, files: &mut MemoryFiles, path: &str, octets: &[u8]) -> bool {
    let Ok(octets) = Octets::copy_of(alloc, octets) else {
        return false;
    };
    files.insert(alloc, path, octets).is_ok()
}

/// The third call of the files and the next ones. The fourth fails.
const WRITES: &[Write] = &[
    ("b", b"two", Ok(())),
    ("b", b"three", Err(FileFault::Failed)),
    ("c", b"four", Ok(())),
];

/// Reports whether a file is read exactly after it was brought in, and the fourth call fails, which is made to fail.
fn fail_at_fourth(alloc: Global, files: &mut MemoryFiles) -> bool {
    let is_read = reads(alloc, files, "a", Err(FileFault::Failed), b"")
        && is_inserted(alloc, files, "a", b"one")
        && reads(alloc, files, "a", Ok(()), b"one");
    files.fail_at(3);
    is_read && write_all(alloc, files, WRITES)
}

/// Paths, and the octets of their files.
const FILES_LEFT: &[(&str, Option<&[u8]>)] = &[
    ("b", Some(b"two")),
    ("c", Some(b"four")),
    ("d", None),
];

/// Reports whether each path has the octets of its row.
fn are_left(files: &MemoryFiles) -> bool {
    for &(path, octets) in FILES_LEFT {
        if files.get(path) != octets {
            return false;
        }
    }
    true
}

/// Reports whether files in memory fail at the call that is to fail, and at no other.
fn files_fail_at_the_call(alloc: Global) -> bool {
    let mut files = MemoryFiles::new();
    fail_at_fourth(alloc, &mut files) && are_left(&files)
}

/// The link of a call, if the call succeeds.
fn called(dial: &mut MemoryDial<u8>) -> Option<u8> {
    match dial.call("host", 102) {
        Dialled::Link(link) => Some(link),
        Dialled::Failed => None,
    }
}

/// Reports whether a dial in memory gives its link once.
fn a_dial_gives_its_link_once() -> bool {
    let mut dial = MemoryDial::new(Some(b'a'));
    called(&mut dial) == Some(b'a') && called(&mut dial) == None
}

/// Reports whether a door gives this link. The link `!` is a failure of the door, and `.` its end.
fn gives_next(door: &mut MemoryDoor<u8>, wanted: u8) -> bool {
    match door.next() {
        Arrival::Link(link) => link == wanted && wanted != b'!' && wanted != b'.',
        Arrival::Failed => wanted == b'!',
        Arrival::End => wanted == b'.',
    }
}

/// A door in memory with the links `a` and `b`, whose second call fails.
fn door(alloc: Global) -> Result<MemoryDoor<u8>, Memory> {
    Ok(MemoryDoor::new(Vec::from_slice(alloc, b"ab")?, Some(1)))
}

/// Reports whether a door listens, and gives the links `wanted`.
fn gives_links(door: &mut MemoryDoor<u8>, wanted: &[u8]) -> bool {
    let listens = door.listen(102).is_ok();
    for link in wanted {
        if !gives_next(door, *link) {
            return false;
        }
    }
    listens
}

/// Reports whether a door in memory gives its links, fails once, and ends.
fn a_door_gives_its_links(alloc: Global) -> bool {
    match door(alloc) {
        Ok(mut door) => gives_links(&mut door, b"a!b.."),
        Err(_) => false,
    }
}

/// Files in memory fail at the call that is to fail, a dial gives its link once, and a door gives its links.
#[test]
fn files_dials_and_doors_in_memory_give_and_fail(rt: HostRuntime) {
    assert!(rt;
        files_fail_at_the_call(rt.alloc())
            && a_dial_gives_its_link_once()
            && a_door_gives_its_links(rt.alloc())
    );
}

/// Passes a gate that other threads may pass.
fn pass_shared<R: Wait, G: Gate + Sync>(rt: &R, gate: &G, link: u32, ordinal: u64) {
    gate.pass(rt, link, ordinal);
}

/// Links and the numbers of their requests that pass a gate, and whether the gate gave up by then. The gate keeps link
/// 1 at its first request until the second request of link 2 came.
const PASSES: &[&[(u32, u64, bool)]] = &[
    &[(2, 0, false), (1, 1, false), (1, 0, true)],
    &[(2, 1, false), (1, 0, false)],
];

/// Reports whether a gate gives up where a row says so.
fn keeps<R: Wait>(rt: &R, passes: &[(u32, u64, bool)]) -> bool {
    let gate = HoldGate::new(1, 2, 3);
    for &(link, ordinal, gave_up) in passes {
        pass_shared(rt, &gate, link, ordinal);
        if gate.gave_up() != gave_up {
            return false;
        }
    }
    true
}

/// Reports whether gates give up where the rows say so.
fn all_keep<R: Wait>(rt: &R) -> bool {
    for passes in PASSES {
        if !keeps(rt, passes) {
            return false;
        }
    }
    true
}

/// A gate delays a link until the request of the other one came, or gives up.
#[test]
fn a_gate_holds_until_the_other_came(rt: HostRuntime) {
    pass_shared(&rt, &OpenGate, 1, 0);
    assert!(rt; all_keep(&rt));
}

/// Calls of the ends of pipes with room for four octets, and the numbers of octets that wait for the server and for the
/// client then. The room is used across its end.
const PIPED: &[(Side, Call, usize, usize)] = &[
    (Side::Client, Call::Receives(8, Got::NotYet, b""), 0, 0),
    (Side::Client, Call::Transmits(b"abc", Sent::Bytes(3)), 3, 0),
    (Side::Client, Call::Looks(Tick::At(7)), 3, 0),
    (Side::Server, Call::Receives(2, Got::Bytes(2), b"ab"), 1, 0),
    (Side::Client, Call::Transmits(b"defg", Sent::Bytes(3)), 4, 0),
    (Side::Client, Call::Transmits(b"g", Sent::NotYet), 4, 0),
    (
        Side::Server,
        Call::Receives(8, Got::Bytes(4), b"cdef"),
        0,
        0,
    ),
];

/// Reports whether the end of pipes answers a call so.
fn end_answers(pipes: &mut Pipes, side: Side, call: &Call) -> bool {
    answers(&mut PipeEnd { pipes, side }, call)
}

/// Reports whether these numbers of octets wait for the server and for the client.
fn are_held(pipes: &Pipes, server: usize, client: usize) -> bool {
    pipes.held(Side::Server) == server && pipes.held(Side::Client) == client
}

/// The number of the first call that pipes answer otherwise.
fn unmet_call(pipes: &mut Pipes) -> Option<usize> {
    for (number, (side, call, server, client)) in PIPED.iter().enumerate() {
        if !end_answers(pipes, *side, call) || !are_held(pipes, *server, *client) {
            return Some(number);
        }
    }
    None
}

/// The number of the first call that new pipes answer otherwise.
fn unmet(alloc: Global) -> Option<usize> {
    match Pipes::new(alloc, 4, 7) {
        Ok(mut pipes) => unmet_call(&mut pipes),
        Err(_) => Some(0),
    }
}

/// Pipes move the octets for which they have room.
#[test]
fn pipes_move_what_fits(rt: HostRuntime) {
    all_hold(&rt, unmet(rt.alloc()));
}
