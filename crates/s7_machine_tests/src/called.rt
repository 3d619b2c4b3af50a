//! A server that a test calls as the program calls it, on a port of this machine, and its callers.
//!
//! Only `serve` calls `server_main`, since each function that calls it is costly to prove.
ghost use Rattle.std.specs.Prelude.{IfSome, None};
ghost use Rattle.std.specs.List.{AllByRecursion};
ghost use Rattle.s7_plant.specs.Observers.{IsFresh};

use crate::callers::{Callers, Told, come_to};
use crate::line::{Doorway, Line, listen_from, new_door, next};
use s7_memory::{HoldGate, MemoryFiles, MemoryOut};
use s7_os::RealLink;
use s7_outer::{Arrival, Door, DoorFailed, Octets};
use s7_plant::{Entry, Tail};
use s7_server_main::{Run, ServerEnd, server_main};
use s7_session::Outcome;
use std::alloc::Global;
use std::sync::{OnceLock, Wait};
use std::thread::{Threads, join};
use std::time::Clock;

/// A door over TCP that reports its port as soon as it listens. The port is the requested one, or one of the next if
/// that is taken. A door that has reported its port stays there.
#[derive(Drop)]
pub(crate) struct TellingDoor<'a> {
    door: Doorway,
    told: &'a Told,
    port: u16,
    listens: u64,
    faults: u64,
}

/// The port on which a door listens from now on: the one that it has reported, or one from this one on.
fn heard_on(door: &mut Doorway, told: &Told, port: u16) -> Option<u16> {
    match told.get() {
        Some(heard) => *heard,
        None => listen_from(door, port),
    }
}

impl Door<Line> for TellingDoor<'_> {
    ghost shows = { λ d. record {
      coming = None;
      heard = d.port;
      listens = d.listens;
      faults = λ _. d.faults;
      lent = None;
    } };

    /// Listens, and reports the port.
    fn listen(&mut self, port: u16) -> Result<(), DoorFailed> {
        self.port = port;
        self.listens = self.listens.saturating_add(1);
        let heard = heard_on(&mut self.door, self.told, port);
        let _ = self.told.try_set(heard);
        if heard.is_some() {
            return Ok(());
        }
        self.faults = self.faults.saturating_add(1);
        Err(DoorFailed)
    }

    /// The next link. A failure is counted.
    fn next(&mut self) -> Arrival<Line> {
        let came = next(&mut self.door);
        if matches!(came, Arrival::Failed) {
            self.faults = self.faults.saturating_add(1);
        }
        came
    }
}

/// The area file of a server.
pub(crate) enum AreaFile {
    /// There is no area file.
    Nothing,
    /// The area file has this text.
    Text(&'static [u8]),
    /// The area file has no area: a first line, and a comment that fills it to this length.
    Long(usize),
}

/// How a server is called: its words, its area file, the link that a gate delays at its first request and the link
/// whose second request releases it (0 for none), the mask of the observer, and the callers.
pub(crate) struct Call {
    pub(crate) words: &'static [&'static str],
    pub(crate) areas: AreaFile,
    pub(crate) kept: u32,
    pub(crate) until: u32,
    pub(crate) mask: u32,
    pub(crate) callers: Callers,
}

/// The state after a server: what came to each of its callers, its status, what it served, its output, and whether its
/// gate gave up.
#[derive(Drop)]
pub(crate) struct Left {
    pub(crate) came: Vec<Vec<Octets>>,
    pub(crate) status: u8,
    pub(crate) run: Option<Run<Line, Tail>>,
    pub(crate) out: MemoryOut,
    pub(crate) gave_up: bool,
}

/// A part of a comment.
fn a_comment(alloc: Global) -> Option<Vec<u8>> {
    vec![in alloc; b'#'; 65_536].ok()
}

/// Fills a text to this length by a comment. Reports whether memory is left for it.
fn is_filled(text: &mut Vec<u8>, comment: &[u8], count: usize) -> bool {
    for _ in 0..=count / 65_536 {
        if text.extend_from_slice(comment).is_err() {
            return false;
        }
    }
    text.truncate(count);
    true
}

/// An area file without an area: a first line, and a comment that fills it to this length.
fn long_areas(alloc: Global, count: usize) -> Option<Vec<u8>> {
    let mut text = copy_of(alloc, b"s7 areas 1\n")?;
    if is_filled(&mut text, a_comment(alloc)?.as_slice(), count) {
        Some(text)
    } else {
        None
    }
}

/// A copy of a text.
fn copy_of(alloc: Global, text: &[u8]) -> Option<Vec<u8>> {
    Vec::from_slice(alloc, text).ok()
}

/// The text of an area file.
fn text_of(alloc: Global, areas: &AreaFile) -> Option<Vec<u8>> {
    match areas {
        AreaFile::Nothing => None,
        AreaFile::Text(text) => copy_of(alloc, text),
        AreaFile::Long(count) => long_areas(alloc, *count),
    }
}

/// Inserts the area file. Reports whether memory is left for it.
fn inserts(files: &mut MemoryFiles, alloc: Global, text: Option<Vec<u8>>) -> bool {
    match text {
        Some(text) => files.insert(alloc, "a.txt", Octets::of_vec(text)).is_ok(),
        None => false,
    }
}

/// The files of a call.
fn files(alloc: Global, areas: &AreaFile) -> Option<MemoryFiles> {
    let mut files = MemoryFiles::new();
    if matches!(areas, AreaFile::Nothing) || inserts(&mut files, alloc, text_of(alloc, areas)) {
        Some(files)
    } else {
        None
    }
}

/// A link over the standard streams.
pub(crate) fn a_pipe(host: HostRuntime) -> Option<Line> {
    RealLink::standard(host.alloc(), host).ok()
}

/// An output of ample room.
pub(crate) fn an_output(alloc: Global) -> Option<MemoryOut> {
    MemoryOut::new(alloc, 65_536).ok()
}

/// A door that reports its port.
pub(crate) fn a_door(host: HostRuntime, told: &Told) -> TellingDoor<'_> {
    TellingDoor {
        door: new_door(&host),
        told,
        port: 0,
        listens: 0,
        faults: 0,
    }
}

/// Makes a door listen, which reports its port. Reports whether it listens.
pub(crate) fn listens(door: &mut TellingDoor<'_>, port: u16) -> bool {
    door.listen(port).is_ok()
}

/// An observer that is shown the events of this mask, and keeps the newest one.
fn a_tail(alloc: Global, mask: u32) -> Option<Vec<Tail>>
    ensures { IfSome result (λ tails. AllByRecursion (λ o. IsFresh o) tails.items) }
{
    let tail = Tail::new(alloc, mask, 1).ok()?;
    let mut tails = Vec::new(alloc);
    tails.push(tail).ok()?;
    Some(tails)
}

/// The outcome of serving, watched by an observer of this mask.
pub(crate) fn serve<R: Threads + Wait + Clock + Sync>(
    rt: &R,
    alloc: Global,
    words: &[&str],
    mask: u32,
    files: &mut MemoryFiles,
    pipe: Line,
    door: &mut TellingDoor<'_>,
    gate: &HoldGate,
    out: &mut MemoryOut,
) -> Option<ServerEnd<Line, Tail>> {
    let tails = a_tail(alloc, mask)?;
    Some(server_main(rt, alloc, words, files, pipe, door, gate, out, tails))
}

/// The outcome of a call, over these objects and a new door.
fn end_of<R: Threads + Wait + Clock + Sync>(
    rt: &R,
    host: HostRuntime,
    told: &Told,
    call: &Call,
    files: &mut MemoryFiles,
    gate: &HoldGate,
    out: &mut MemoryOut,
) -> Option<ServerEnd<Line, Tail>> {
    let pipe = a_pipe(host)?;
    let mut door = a_door(host, told);
    let alloc = host.alloc();
    serve(
        rt, alloc, call.words, call.mask, files, pipe, &mut door, gate, out,
    )
}

/// The state after a server with this outcome.
fn left_of(
    alloc: Global,
    end: Option<ServerEnd<Line, Tail>>,
    out: MemoryOut,
    gave_up: bool,
) -> Option<Left> {
    let ServerEnd { status, run, .. } = end?;
    Some(Left {
        came: Vec::new(alloc),
        status,
        run,
        out,
        gave_up,
    })
}

/// The state after a server over these files, without what came to its callers.
fn left_over<R: Threads + Wait + Clock + Sync>(
    rt: &R,
    host: HostRuntime,
    told: &Told,
    call: &Call,
    files: &mut MemoryFiles,
) -> Option<Left> {
    let mut out = an_output(host.alloc())?;
    let gate = HoldGate::new(call.kept, call.until, 1_000_000_000);
    let end = end_of(rt, host, told, call, files, &gate, &mut out);
    left_of(host.alloc(), end, out, gate.gave_up())
}

/// The state after a server, without what came to its callers.
fn left_by<R: Threads + Wait + Clock + Sync>(
    rt: &R,
    host: HostRuntime,
    told: &Told,
    call: &Call,
) -> Option<Left> {
    left_over(rt, host, told, call, &mut files(host.alloc(), &call.areas)?)
}

/// The same. If the server never asked its door to listen, no port is reported.
fn told_by<R: Threads + Wait + Clock + Sync>(
    rt: &R,
    host: HostRuntime,
    told: &Told,
    call: &Call,
) -> Option<Left> {
    let left = left_by(rt, host, told, call);
    let _ = told.try_set(None);
    left
}

/// What came to the callers of a server, who call while it serves, and the state after it without that.
fn both<R: Threads + Wait + Clock + Sync>(
    rt: &R,
    host: HostRuntime,
    told: &Told,
    call: &Call,
) -> (Option<Vec<Vec<Octets>>>, Option<Left>) {
    join(
        rt,
        || come_to(rt, host, told, &call.callers),
        || told_by(rt, host, told, call),
    )
}

/// The state after a server, with what came to its callers.
fn with_came(came: Option<Vec<Vec<Octets>>>, left: Option<Left>) -> Option<Left> {
    let mut left = left?;
    left.came = came?;
    Some(left)
}

/// The state after a server, and what came to its callers, who call while it serves.
pub(crate) fn called<R: Threads + Wait + Clock + Sync>(
    rt: &R,
    host: HostRuntime,
    call: &Call,
) -> Option<Left> {
    let told = OnceLock::new();
    let (came, left) = both(rt, host, &told, call);
    with_came(came, left)
}

/// Reports whether this number of links was served, and they made this number of entries together. Each link ended
/// without a fault, and its entries are those of its number in the journal.
pub(crate) fn is_whole(left: &Left, links: usize, entries: usize) -> bool {
    match &left.run {
        Some(run) => is_run_whole(run, run.book.journal.as_slice(), links, entries),
        None => false,
    }
}

/// Reports the same of a run with this journal.
fn is_run_whole(run: &Run<Line, Tail>, journal: &[Entry], links: usize, entries: usize) -> bool {
    let mut all = 0usize;
    for served in &run.links {
        let count = count_of(journal, served.link);
        all = all.saturating_add(count);
        if served.outcome != Outcome::Ended || served.entries != count as u64 {
            return false;
        }
    }
    all == entries && journal.len() == entries && run.links.len() == links && !run.door_failed
}

/// The number of entries of a link.
fn count_of(journal: &[Entry], link: u32) -> usize {
    let mut count = 0usize;
    for entry in journal {
        if entry.link == link {
            count = count.saturating_add(1);
        }
    }
    count
}
