//! Tests of links that come by a door in memory: the number of links that are served, their answers, and the order in
//! which the door and the links are called.
//!
//! Only `host` calls `serve_door`, since each function that calls it is costly to prove.
use crate::books::{a_book, a_link, is_answered};
use crate::rows::all_hold;
use crate::telegrams::{ANSWER, CONFIRM, CONNECT, GRANTED, READ, SETUP, joined};
use crate::watched::{WatchedDoor, WatchedLink};
use s7_listener::{Hosted, NotHosted, Served, serve_door};
use s7_memory::{HoldGate, MemoryDoor, MemoryLink};
use s7_outer::{Gate, Octets, OpenGate};
use s7_plant::{Book, Tail};
use std::alloc::Global;
use std::sync::Wait;
use std::thread::Threads;
use std::time::Clock;

/// A link in memory that counts late calls.
type Line = WatchedLink<MemoryLink>;

/// A door in memory that counts its calls.
type Doorway = WatchedDoor<MemoryDoor<Line>>;

/// The links of a door: their number, the number of reads of each, the call of the door that fails, and the greatest
/// number of links that are served.
type Coming = (usize, usize, Option<usize>, u16);

/// The links of a door, the link that a gate delays at its first request and the link whose second request
/// releases it (0 for none), and the number of links that are served and whether the door failed. Nothing is left if no
/// link is served.
type Row = (Coming, (u32, u32), Option<(usize, bool)>);

/// The rows. No order in which one link is served after the other releases both links of the last two.
const DOORS: &[Row] = &[
    ((2, 2, Some(0), 2), (0, 0), None),
    ((2, 2, Some(1), 2), (0, 0), Some((1, true))),
    ((2, 2, Some(2), 2), (0, 0), Some((2, false))),
    ((2, 2, None, 3), (0, 0), Some((2, false))),
    ((3, 2, None, 2), (0, 0), Some((2, false))),
    ((0, 2, None, 2), (0, 0), Some((0, false))),
    ((1_024, 2, None, 1_024), (0, 0), Some((1_024, false))),
    ((2, 1, None, 2), (0, 0), Some((2, false))),
    ((2, 1, None, 3), (0, 0), Some((2, false))),
    ((3, 1, None, 2), (0, 0), Some((2, false))),
    ((2, 1, Some(1), 2), (0, 0), Some((1, true))),
    ((2, 1, Some(0), 2), (0, 0), None),
    ((2, 2, None, 2), (1, 2), Some((2, false))),
    ((2, 2, None, 2), (2, 1), Some((2, false))),
];

/// What is left after the links of a door are served, and the door.
#[derive(Drop)]
struct Left {
    hosted: Result<Hosted<Book<Tail>, Line>, NotHosted>,
    door: Doorway,
}

/// Serves the links of a door, at most `most`, on a book that has room for 2,048 entries.
fn host<R: Threads + Wait + Clock + Sync, G: Gate + Sync>(
    rt: &R,
    alloc: Global,
    gate: &G,
    door: Doorway,
    most: u16,
) -> Option<Left> {
    let book = a_book(alloc, 2_048).ok()?;
    let (hosted, door) = serve_door(rt, alloc, book, gate, None, door, 102, most);
    Some(Left { hosted, door })
}

/// The telegrams of a link that reads once or twice.
fn asks_of(reads: usize) -> &'static [&'static [u8]] {
    if reads == 1 {
        &[CONNECT, SETUP, READ]
    } else {
        &[CONNECT, SETUP, READ, READ]
    }
}

/// The answers to these telegrams.
fn answers_of(reads: usize) -> &'static [&'static [u8]] {
    if reads == 1 {
        &[CONFIRM, GRANTED, ANSWER]
    } else {
        &[CONFIRM, GRANTED, ANSWER, ANSWER]
    }
}

/// Appends a link. Reports whether it is there, and memory is left for it.
fn appends(links: &mut Vec<Line>, link: Option<MemoryLink>) -> bool {
    match link {
        Some(link) => {
            let line = WatchedLink {
                link,
                is_shut: false,
                late: 0,
            };
            links.push(line).is_ok()
        }
        None => false,
    }
}

/// Appends this number of links that each read `reads` times. Reports whether memory is left for them.
fn appends_all(alloc: Global, links: &mut Vec<Line>, count: usize, reads: usize) -> bool {
    for _ in 0..count {
        if !appends(links, a_link(alloc, asks_of(reads))) {
            return false;
        }
    }
    true
}

/// A door of these links.
fn door_of(links: Vec<Line>, fail_at: Option<usize>) -> Doorway {
    WatchedDoor {
        door: MemoryDoor::new(links, fail_at),
        listens: 0,
        port: 0,
        is_over: false,
        late: 0,
    }
}

/// A door of links that each read `reads` times.
fn a_door(alloc: Global, count: usize, reads: usize, fail_at: Option<usize>) -> Option<Doorway> {
    let mut links = Vec::new(alloc);
    if appends_all(alloc, &mut links, count, reads) {
        Some(door_of(links, fail_at))
    } else {
        None
    }
}

/// What is left after the links of a door are served, of which a gate delays one. There is nothing if it was delayed for
/// too long.
fn served_late<R: Threads + Wait + Clock + Sync>(
    rt: &R,
    alloc: Global,
    door: Doorway,
    most: u16,
    gates: &(u32, u32),
) -> Option<Left> {
    let (kept, until) = *gates;
    let gate = HoldGate::new(kept, until, 1_000_000_000);
    let left = host(rt, alloc, &gate, door, most);
    if gate.gave_up() { None } else { left }
}

/// What is left after the links of a door are served. There is nothing if a link was delayed for too long.
fn served<R: Threads + Wait + Clock + Sync>(
    rt: &R,
    alloc: Global,
    coming: &Coming,
    gates: &(u32, u32),
) -> Option<Left> {
    let (count, reads, fail_at, most) = *coming;
    let door = a_door(alloc, count, reads, fail_at)?;
    if gates.0 == 0 {
        host(rt, alloc, &OpenGate, door, most)
    } else {
        served_late(rt, alloc, door, most, gates)
    }
}

/// Reports whether the door was asked once to listen, and never for a link after its end or its failure.
fn is_called_in_order(door: &Doorway) -> bool {
    door.listens == 1 && door.port == 102 && door.late == 0
}

/// Reports whether a link has this number, these answers and this number of entries. It was shut, and no octet was
/// asked of it after that.
fn is_served(served: &Served<Line>, number: u32, answers: &Octets, entries: u64) -> bool {
    let line = &served.line;
    served.link == number
        && line.is_shut
        && line.late == 0
        && is_answered(served, &line.link, answers, entries)
}

/// Reports whether the links have the numbers from 1 on, and each was served so.
fn are_served(links: &[Served<Line>], answers: &Octets, entries: u64) -> bool {
    let mut number = 0u32;
    for served in links {
        number = number.saturating_add(1);
        if !is_served(served, number, answers, entries) {
            return false;
        }
    }
    true
}

/// The number of entries of link 1.
fn count_of_first(book: &Book<Tail>) -> u64 {
    let mut count = 0u64;
    for entry in book.journal.as_slice() {
        if entry.link == 1 {
            count = count.saturating_add(1);
        }
    }
    count
}

/// Reports whether the book has `entries` entries of each of the links. They are counted for link 1 and for all links.
fn has_all(book: &Book<Tail>, links: usize, entries: u64) -> bool {
    let count = links as u64;
    let all = count.saturating_mul(entries);
    book.journal.len() == all && count_of_first(book) == entries.min(all)
}

/// Reports whether this number of links is left, each with this number of entries and these answers, and the door
/// failed or not.
fn are_left(
    hosted: &Hosted<Book<Tail>, Line>,
    answers: &Octets,
    entries: u64,
    left: (usize, bool),
) -> bool {
    (hosted.links.len(), hosted.door_failed) == left
        && has_all(&hosted.keeper, hosted.links.len(), entries)
        && are_served(hosted.links.as_slice(), answers, entries)
}

/// Reports whether a door of links that each read `reads` times, and have these answers, leaves what is wanted.
fn leaves(left: &Left, answers: &Octets, reads: usize, wanted: &Option<(usize, bool)>) -> bool {
    match (&left.hosted, wanted) {
        (Ok(hosted), Some(wanted)) => are_left(hosted, answers, reads as u64, *wanted),
        (Err(NotHosted::Door), None) => true,
        _ => false,
    }
}

/// Reports whether a row holds. The answer is missing if memory is missing, or a link was delayed for too long.
fn goes<R: Threads + Wait + Clock + Sync>(rt: &R, alloc: Global, row: &Row) -> Option<bool> {
    let (coming, gates, wanted) = row;
    let answers = joined(alloc, answers_of(coming.1))?;
    let left = served(rt, alloc, coming, gates)?;
    Some(leaves(&left, &answers, coming.1, wanted) && is_called_in_order(&left.door))
}

/// The number of the first row that doesn't hold.
fn unmet<R: Threads + Wait + Clock + Sync>(rt: &R, alloc: Global, rows: &[Row]) -> Option<usize> {
    for (number, row) in rows.iter().enumerate() {
        if goes(rt, alloc, row) != Some(true) {
            return Some(number);
        }
    }
    None
}

/// Doors end and fail as the rows say, and their links are served at the same time.
#[test]
fn doors_end_and_fail_in_order_and_their_links_are_served_at_once(rt: HostRuntime) {
    all_hold(&rt, unmet(&rt, rt.alloc(), DOORS));
}
