//! Tests of a tool that is called as the program calls it, over a port of this machine: what it sends, what it prints,
//! and the jobs that its completion counts.
//!
//! Only `ended` calls `tool_main`, since each function that calls it is costly to prove.
use crate::line::{Doorway, Line, a_dial, listen_from, new_door, next, rest_of, takes};
use crate::rows::all_hold;
use crate::telegrams::{CONFIRM, CONNECT, DISCONNECT, joined};
use s7_client::{Config, Counter};
use s7_memory::{MemoryFiles, MemoryOut};
use s7_os::TcpDial;
use s7_outer::{Arrival, Octets};
use s7_partner::{Partner, PartnerEvent, Role};
use s7_tool_main::{ToolEnd, tool_main};
use std::alloc::Global;
use std::thread::{Threads, join};

/// The files of all calls: a script, the scripts of a reader and a writer of a rig, and the sends file of a partner.
const FILES: [(&str, &str); 4] = [
    ("a.txt", "read DB1 byte 0 4"),
    ("r.txt", "read DB1 byte 0 4"),
    (
        "w.txt",
        "write DB1 byte 0 aabbccdd\nwrite DB1 byte 0 11223344\n",
    ),
    ("s.txt", "send 00000001 aabbcc\n"),
];

/// The number of octets for which the output has room if a row says nothing else.
const ROOM: usize = 65_536;

/// The negotiation of a client, which is its first job.
const SETUP_1: &[u8] = &[
    0x03, 0x00, 0x00, 0x19, 0x02, 0xF0, 0x80, 0x32, 0x01, 0x00, 0x00, 0x00, 0x01, 0x00, 0x08, 0x00,
    0x00, 0xF0, 0x00, 0x00, 0x01, 0x00, 0x01, 0x01, 0xE0,
];

/// The grant of a PDU length of 480.
const GRANTED_1: &[u8] = &[
    0x03, 0x00, 0x00, 0x1B, 0x02, 0xF0, 0x80, 0x32, 0x03, 0x00, 0x00, 0x00, 0x01, 0x00, 0x08, 0x00,
    0x00, 0x00, 0x00, 0xF0, 0x00, 0x00, 0x01, 0x00, 0x01, 0x01, 0xE0,
];

/// The read of four octets, which is the second job of a client.
const READ_2: &[u8] = &[
    0x03, 0x00, 0x00, 0x1F, 0x02, 0xF0, 0x80, 0x32, 0x01, 0x00, 0x00, 0x00, 0x02, 0x00, 0x0E, 0x00,
    0x00, 0x04, 0x01, 0x12, 0x0A, 0x10, 0x02, 0x00, 0x04, 0x00, 0x01, 0x84, 0x00, 0x00, 0x00,
];

/// The answer to that read.
const ANSWER_2: &[u8] = &[
    0x03, 0x00, 0x00, 0x1D, 0x02, 0xF0, 0x80, 0x32, 0x03, 0x00, 0x00, 0x00, 0x02, 0x00, 0x02, 0x00,
    0x08, 0x00, 0x00, 0x04, 0x01, 0xFF, 0x04, 0x00, 0x20, 0x11, 0x22, 0x33, 0x44,
];

/// The same answer, to a third job.
const ANSWER_3: &[u8] = &[
    0x03, 0x00, 0x00, 0x1D, 0x02, 0xF0, 0x80, 0x32, 0x03, 0x00, 0x00, 0x00, 0x03, 0x00, 0x02, 0x00,
    0x08, 0x00, 0x00, 0x04, 0x01, 0xFF, 0x04, 0x00, 0x20, 0x11, 0x22, 0x33, 0x44,
];

/// The peer of the link.
enum Peer {
    /// There is no peer, and the words name the port.
    Nobody,
    /// A peer that gives these octets.
    Gives(&'static [&'static [u8]]),
    /// A passive partner.
    Partner,
}

/// A command over files and a link, or over a rig, and its outcome.
struct Command {
    words: &'static [&'static str],
    /// The number of octets for which the output has room.
    room: usize,
    peer: Peer,
    /// The octets that come to the peer.
    came: &'static [&'static [u8]],
    status: u8,
    /// The text that is printed, if the row names one.
    report: Option<&'static str>,
    /// The number of jobs that the completion counts, and the number and the code of the last one.
    told: (u64, Option<(u8, u32)>),
}

/// The commands. Without a peer, nobody listens on the port. The completion of a rig counts the first client's jobs.
const COMMANDS: &[Command] = &[
    Command {
        words: &["run", "a.txt"],
        room: ROOM,
        peer: Peer::Gives(&[CONFIRM, GRANTED_1, ANSWER_2]),
        came: &[CONNECT, SETUP_1, READ_2, DISCONNECT],
        status: 0,
        report: Some("0 connect 00000000 -\n1 read 00000000 11223344\n"),
        told: (3, Some((25, 0))),
    },
    // Another message closes the client, and the disconnect has nothing to do.
    Command {
        words: &["run", "a.txt"],
        room: ROOM,
        peer: Peer::Gives(&[CONFIRM, GRANTED_1, ANSWER_3]),
        came: &[CONNECT, SETUP_1, READ_2],
        status: 6,
        report: Some("0 connect 00000000 -\n1 read 00800000 -\n"),
        told: (3, Some((25, 0x0001_0000))),
    },
    // The output fails at the read.
    Command {
        words: &["run", "a.txt"],
        room: 27,
        peer: Peer::Gives(&[CONFIRM, GRANTED_1, ANSWER_2]),
        came: &[CONNECT, SETUP_1, READ_2],
        status: 5,
        report: Some("0 connect 00000000 -\n1 read"),
        told: (2, Some((2, 0))),
    },
    // A partner's blocks are no jobs.
    Command {
        words: &["partner", "s.txt"],
        room: ROOM,
        peer: Peer::Partner,
        came: &[b"\xAA\xBB\xCC"],
        status: 0,
        report: Some("a sent\n"),
        told: (0, None),
    },
    Command {
        words: &["run", "a.txt", "--port", "24001"],
        room: ROOM,
        peer: Peer::Nobody,
        came: &[],
        status: 4,
        report: None,
        told: (0, None),
    },
    Command {
        words: &["run", "b.txt"],
        room: ROOM,
        peer: Peer::Nobody,
        came: &[],
        status: 3,
        report: None,
        told: (0, None),
    },
    Command {
        words: &["run"],
        room: ROOM,
        peer: Peer::Nobody,
        came: &[],
        status: 1,
        report: None,
        told: (0, None),
    },
    Command {
        words: &["rig", "DB1=1122", "r.txt", "w.txt"],
        room: ROOM,
        peer: Peer::Nobody,
        came: &[],
        status: 6,
        report: None,
        told: (3, Some((25, 0))),
    },
    Command {
        words: &["rig", "DB1=11223344", "w.txt", "r.txt"],
        room: ROOM,
        peer: Peer::Nobody,
        came: &[],
        status: 0,
        report: None,
        told: (4, Some((25, 0))),
    },
    Command {
        words: &["rig", "DB1=11223344", "r.txt"],
        room: 10,
        peer: Peer::Nobody,
        came: &[],
        status: 5,
        report: None,
        told: (3, Some((25, 0))),
    },
    Command {
        words: &["rig", "DB1=11223344", "x.txt"],
        room: ROOM,
        peer: Peer::Nobody,
        came: &[],
        status: 3,
        report: None,
        told: (0, None),
    },
];

/// The outcome of a call: what came to its peer, its status, the completion that came back, and its output.
#[derive(Drop)]
pub(crate) struct Told {
    came: Octets,
    pub(crate) status: u8,
    done: Option<Counter>,
    pub(crate) out: MemoryOut,
}

/// Inserts a file. Reports whether memory is left for it.
fn inserts(files: &mut MemoryFiles, alloc: Global, path: &str, text: Option<Octets>) -> bool {
    match text {
        Some(text) => files.insert(alloc, path, text).is_ok(),
        None => false,
    }
}

/// Inserts these files. Reports whether memory is left for them.
pub(crate) fn inserts_all(files: &mut MemoryFiles, alloc: Global, texts: &[(&str, &str)]) -> bool {
    for (path, text) in texts {
        if !inserts(files, alloc, path, joined(alloc, &[text.as_bytes()])) {
            return false;
        }
    }
    true
}

/// The files.
fn files(alloc: Global) -> Option<MemoryFiles> {
    let mut files = MemoryFiles::new();
    if inserts_all(&mut files, alloc, &FILES) {
        Some(files)
    } else {
        None
    }
}

/// An output of this room.
fn an_output(alloc: Global, room: usize) -> Option<MemoryOut> {
    MemoryOut::new(alloc, room).ok()
}

/// The end of a call, whose completion counted nothing before it.
fn ended(
    alloc: Global,
    words: &[&str],
    files: &mut MemoryFiles,
    dial: &mut TcpDial<HostRuntime>,
    out: &mut MemoryOut,
) -> ToolEnd<Line, Counter> {
    tool_main(alloc, words, files, dial, out, Some(Counter::new()))
}

/// The outcome with this end and this output, without what came to the peer.
fn outcome_of(alloc: Global, end: ToolEnd<Line, Counter>, out: MemoryOut) -> Told {
    let ToolEnd { status, done, .. } = end;
    Told {
        came: Octets::of_vec(Vec::new(alloc)),
        status,
        done,
        out,
    }
}

/// The outcome of a call over these files, without what came to its peer. The call's link is closed here, since the peer
/// waits for the end of what comes.
pub(crate) fn tells_over(
    host: HostRuntime,
    words: &[&str],
    files: &mut MemoryFiles,
    room: usize,
) -> Option<Told> {
    let mut out = an_output(host.alloc(), room)?;
    let end = ended(host.alloc(), words, files, &mut a_dial(&host), &mut out);
    Some(outcome_of(host.alloc(), end, out))
}

/// The outcome of a call, without what came to its peer.
fn tells(host: HostRuntime, words: &[&str], room: usize) -> Option<Told> {
    tells_over(host, words, &mut files(host.alloc())?, room)
}

/// A port as a word.
pub(crate) fn word_of(alloc: Global, port: u16) -> Option<String> {
    format!(in alloc; "{port}").ok()
}

/// The outcome of a call of two words, which are followed by a port.
fn tells_at(host: HostRuntime, command: &Command, port: u16) -> Option<Told> {
    let [name, file] = command.words else {
        return None;
    };
    let port = word_of(host.alloc(), port)?;
    tells(host, &[*name, *file, "--port", port.as_str()], command.room)
}

/// A partner that listens.
fn a_partner(alloc: Global) -> Option<Partner> {
    Partner::new(alloc, Role::Passive, Config::new(1, 0, 2)).ok()
}

/// The event of a poll. There is none if memory is missing.
fn polled(alloc: Global, partner: &mut Partner, line: &mut Line) -> Option<PartnerEvent> {
    partner.poll(alloc, line).ok()
}

/// Reports whether the partner closed. A block that it received under R_ID 1 is appended. The answer is missing after
/// another event of a block.
fn is_closed(event: PartnerEvent, came: &mut Vec<Octets>) -> Option<bool> {
    match event {
        PartnerEvent::Received { rid: 1, body } => match came.push(body) {
            Ok(()) => Some(false),
            Err(_) => None,
        },
        PartnerEvent::Received { .. } | PartnerEvent::Sent => None,
        PartnerEvent::Pending | PartnerEvent::Idle => Some(false),
        PartnerEvent::Closed(_) => Some(true),
    }
}

/// Polls a partner once. Reports whether it closed. A block that it received under R_ID 1 is appended.
fn closes(
    alloc: Global,
    partner: &mut Partner,
    line: &mut Line,
    came: &mut Vec<Octets>,
) -> Option<bool> {
    match polled(alloc, partner, line) {
        Some(event) => is_closed(event, came),
        None => None,
    }
}

/// Reports whether a partner closes. The blocks that it received under R_ID 1 are appended.
fn goes_on_to_the_end(
    alloc: Global,
    partner: &mut Partner,
    line: &mut Line,
    came: &mut Vec<Octets>,
) -> bool {
    for _ in 0..1_000u32 {
        match closes(alloc, partner, line, came) {
            Some(false) => {}
            Some(true) => return true,
            None => return false,
        }
    }
    false
}

/// The last block, if the partner closed.
fn last_of(mut came: Vec<Octets>, has_closed: bool) -> Option<Octets> {
    if has_closed { came.pop() } else { None }
}

/// The block under R_ID 1 that a passive partner delivers on a link before it ends.
fn handed_out(alloc: Global, line: &mut Line) -> Option<Octets> {
    let mut came = Vec::new(alloc);
    let has_closed = goes_on_to_the_end(alloc, &mut a_partner(alloc)?, line, &mut came);
    last_of(came, has_closed)
}

/// The octets that come up to the end to a peer that gives these.
fn answered(alloc: Global, line: &mut Line, given: &[&[u8]]) -> Option<Octets> {
    let given = joined(alloc, given)?;
    if takes(line, given.as_slice()) {
        rest_of(alloc, line)
    } else {
        None
    }
}

/// What comes to a peer on a link.
fn comes_on(alloc: Global, line: &mut Line, peer: &Peer) -> Option<Octets> {
    match peer {
        Peer::Gives(given) => answered(alloc, line, given),
        Peer::Partner => handed_out(alloc, line),
        Peer::Nobody => None,
    }
}

/// What comes to a peer on the next link of a door.
fn comes(host: HostRuntime, mut door: Doorway, peer: &Peer) -> Option<Octets> {
    match next(&mut door) {
        Arrival::Link(mut line) => comes_on(host.alloc(), &mut line, peer),
        Arrival::End | Arrival::Failed => None,
    }
}

/// What came to the peer of a call at this door, and the outcome without that.
fn both<R: Threads>(
    rt: &R,
    host: HostRuntime,
    command: &Command,
    door: Doorway,
    port: u16,
) -> (Option<Octets>, Option<Told>) {
    join(
        rt,
        move || comes(host, door, &command.peer),
        move || tells_at(host, command, port),
    )
}

/// The outcome with what came to its peer.
fn with_came((came, told): (Option<Octets>, Option<Told>)) -> Option<Told> {
    let mut told = told?;
    told.came = came?;
    Some(told)
}

/// The outcome of a call over TCP, with what came to its peer.
fn over_tcp<R: Threads>(rt: &R, host: HostRuntime, command: &Command) -> Option<Told> {
    let mut door = new_door(&host);
    match listen_from(&mut door, 24_102) {
        Some(port) => with_came(both(rt, host, command, door, port)),
        None => None,
    }
}

/// The outcome of a command.
fn told_of<R: Threads>(rt: &R, host: HostRuntime, command: &Command) -> Option<Told> {
    match command.peer {
        Peer::Nobody => tells(host, command.words, command.room),
        Peer::Gives(_) | Peer::Partner => over_tcp(rt, host, command),
    }
}

/// Reports whether the completion counted this number of jobs, and the last one has this number and this code.
fn counts(done: &Option<Counter>, calls: u64, last: Option<(u8, u32)>) -> bool {
    match done {
        Some(counter) => counter.calls() == calls && counter.last() == last,
        None => false,
    }
}

/// Reports whether this text was printed, if there is one.
fn prints(out: &MemoryOut, report: &Option<&str>) -> bool {
    match report {
        Some(report) => out.text() == report.as_bytes(),
        None => true,
    }
}

/// Reports whether these octets are those of the telegrams.
fn is_joined(alloc: Global, came: &Octets, telegrams: &[&[u8]]) -> bool {
    match joined(alloc, telegrams) {
        Some(octets) => came.as_slice() == octets.as_slice(),
        None => false,
    }
}

/// Reports whether this is the outcome of a command.
fn is_told(alloc: Global, told: &Told, command: &Command) -> bool {
    let (calls, last) = command.told;
    told.status == command.status
        && is_joined(alloc, &told.came, command.came)
        && prints(&told.out, &command.report)
        && counts(&told.done, calls, last)
}

/// Reports whether a command has its outcome.
fn goes<R: Threads>(rt: &R, host: HostRuntime, command: &Command) -> bool {
    match told_of(rt, host, command) {
        Some(told) => is_told(host.alloc(), &told, command),
        None => false,
    }
}

/// The number of the first command that doesn't have its outcome.
fn unmet<R: Threads>(rt: &R, host: HostRuntime, commands: &[Command]) -> Option<usize> {
    for (number, command) in commands.iter().enumerate() {
        if !goes(rt, host, command) {
            return Some(number);
        }
    }
    None
}

/// Tools send, print and count what the commands say.
#[test]
fn tools_send_and_print_and_tell_of_jobs_alone(rt: HostRuntime) {
    all_hold(&rt, unmet(&rt, rt, COMMANDS));
}
