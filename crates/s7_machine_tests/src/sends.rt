//! Tests of outside objects that move between threads.
use crate::line::{moment, new_door, next};
use s7_memory::{FailingLink, HoldGate, MemoryDoor, MemoryLink};
use s7_os::RealLink;
use s7_outer::{Arrival, Clock, Door, Gate, Octets, OpenGate, Tick};
use std::alloc::Global;
use std::sync::Wait;
use std::thread::{Threads, join};

/// The value after a thread had it.
fn moved<R: Threads, T: Send + Drop>(rt: &R, value: T) -> T {
    let (value, ()) = join(rt, move || value, || ());
    value
}

/// A link that fails.
type Line = FailingLink<MemoryLink>;

/// Octets.
fn some_octets(alloc: Global) -> Option<Octets> {
    Octets::copy_of(alloc, b"a").ok()
}

/// A link in memory.
fn memory_link(alloc: Global) -> Option<MemoryLink> {
    MemoryLink::new(alloc, some_octets(alloc)?, 1, 1, 7).ok()
}

/// A link that fails, over this one.
fn failing_link(alloc: Global, link: MemoryLink) -> Line {
    FailingLink::new(link, Vec::new(alloc))
}

/// A link that fails, over a link in memory.
fn a_link<R: Threads>(rt: &R, alloc: Global) -> Option<Line> {
    match memory_link(alloc) {
        Some(link) => Some(moved(rt, failing_link(alloc, moved(rt, link)))),
        None => None,
    }
}

/// The only link of a door.
fn only(alloc: Global, link: Line) -> Option<Vec<Line>> {
    let mut links = Vec::new(alloc);
    match links.push(link) {
        Ok(()) => Some(links),
        Err(_) => None,
    }
}

/// A door in memory with such a link.
fn a_door<R: Threads>(rt: &R, alloc: Global) -> Option<MemoryDoor<Line>> {
    match only(alloc, a_link(rt, alloc)?) {
        Some(links) => Some(moved(rt, MemoryDoor::new(links, None))),
        None => None,
    }
}

/// The next arrival at a door.
fn arrives(door: &mut MemoryDoor<Line>) -> Arrival<Line> {
    door.next()
}

/// The moment of a link.
fn now(line: &mut Line) -> Tick {
    line.now()
}

/// The moment of the door's link.
fn shown<R: Threads>(rt: &R, alloc: Global) -> Option<Tick> {
    match arrives(&mut a_door(rt, alloc)?) {
        Arrival::Link(mut link) => Some(now(&mut link)),
        Arrival::End | Arrival::Failed => None,
    }
}

/// Reports whether the clock of a link over the machine shows a moment.
fn has_moment<R: Threads>(rt: &R, host: &HostRuntime) -> bool {
    match RealLink::standard(host.alloc(), *host) {
        Ok(link) => moment(&mut moved(rt, link)).is_some(),
        Err(_) => false,
    }
}

/// Reports whether a door over TCP that doesn't listen fails.
fn fails<R: Threads>(rt: &R, host: &HostRuntime) -> bool {
    matches!(next(&mut moved(rt, new_door(host))), Arrival::Failed)
}

/// Reports whether a gate that delays a link gives up.
fn gives_up<R: Threads + Wait>(rt: &R) -> bool {
    moved(rt, OpenGate).pass(rt, 1, 0);
    let gate = moved(rt, HoldGate::new(1, 2, 3));
    gate.pass(rt, 1, 0);
    gate.gave_up()
}

/// Reports whether all objects work after they moved between threads.
fn all_work<R: Threads + Wait>(rt: &R, host: &HostRuntime) -> bool {
    shown(rt, host.alloc()) == Some(Tick::At(7))
        && has_moment(rt, host)
        && fails(rt, host)
        && gives_up(rt)
}

/// Outside objects work after they moved between threads.
#[test]
fn objects_move_between_threads(rt: HostRuntime) {
    assert!(rt; all_work(&rt, &rt));
}
