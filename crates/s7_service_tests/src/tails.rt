//! Tails of events, and rows of books that have two of them as observers.
ghost use Rattle.std.specs.Prelude.{IfSome};
ghost use Rattle.std.specs.List.{AllByRecursion};
ghost use Rattle.s7_plant.specs.Observers.{IsFresh};

use crate::books::Scene;
use crate::fields::{field, hex_number, number, part};
use crate::rows::all_hold;
use s7_plant::{Book, Event, Observer, Tail};
use std::alloc::Global;

/// The two tails that a text states, with a bar between them, or no tail if the text is empty. A tail is stated as a
/// mask in hexadecimal and a depth.
pub(crate) fn tails_of(alloc: Global, text: &str) -> Option<Vec<Tail>>
    ensures { IfSome result (λ tails. AllByRecursion IsFresh tails.items) }
{
    if text.is_empty() {
        return Some(Vec::new(alloc));
    }
    let mut tails = Vec::with_capacity(alloc, 2).ok()?;
    tails.push_reserved(a_tail(alloc, part(text, '|', 0))?);
    tails.push_reserved(a_tail(alloc, part(text, '|', 1))?);
    Some(tails)
}

/// The tail that a text states, before it has counted anything.
fn a_tail(alloc: Global, text: &str) -> Option<Tail>
    ensures { IfSome result IsFresh }
{
    let mask = hex_number(field(text, 0));
    let depth = field(text, 1).parse::<usize>().ok()?;
    if depth < 1 {
        return None;
    }
    Tail::new(alloc, mask, depth).ok()
}

/// The index of a tail, which a row states in its second field.
fn place_of(row: &str) -> Option<usize> {
    field(row, 1).parse::<usize>().ok()
}

/// Whether the tail at the index of a row has the row's events.
pub(crate) fn has_tail(book: &Book<Tail>, row: &str) -> Option<bool> {
    let watcher = book.observers.get(place_of(row)?)?;
    has(&watcher.observer, part(row, '|', 1))
}

/// Whether the tail that was swapped or removed last has the row's events.
pub(crate) fn is_gone(scene: &Scene, row: &str) -> Option<bool> {
    has(scene.gone.as_ref()?, part(row, '|', 1))
}

/// Replaces the tail at the index of a row, and keeps the old one. False if there is no tail at that index.
pub(crate) fn is_swapped(scene: &mut Scene, row: &str) -> Option<bool> {
    let place = place_of(row)?;
    let comes = a_tail(scene.alloc, part(row, '|', 1))?;
    if place >= scene.book.observers.len() {
        return Some(false);
    }
    scene.gone = Some(scene.book.swap_observer(place, comes));
    Some(true)
}

/// Removes the tail at the index of a row, and keeps it. False if there is no tail at that index.
pub(crate) fn is_removed(scene: &mut Scene, row: &str) -> Option<bool> {
    let place = place_of(row)?;
    if place >= scene.book.observers.len() {
        return Some(false);
    }
    scene.gone = Some(scene.book.remove_observer(place));
    Some(true)
}

/// Whether the tail counted the stated number of events and keeps exactly the stated ones, newest first.
fn has(tail: &Tail, text: &str) -> Option<bool> {
    let (count, events) = text.split_once(' ').unwrap_or((text, ""));
    let mut n = 0usize;
    for word in events.split_ascii_whitespace() {
        if !is_event(&tail.newest(n)?, word) {
            return Some(false);
        }
        n = n.saturating_add(1);
    }
    Some(tail.count() == number(count) && ends_at(tail, n))
}

/// Whether the tail keeps at most `n` events.
fn ends_at(tail: &Tail, n: usize) -> bool {
    tail.newest(n).is_none() && tail.newest(n.saturating_add(1)).is_none()
}

/// Whether the event is the one that a text states.
fn is_event(event: &Event, text: &str) -> bool {
    event.number == number(part(text, ':', 0))
        && u64::from(event.link) == number(part(text, ':', 1))
        && event.code == hex_number(part(text, ':', 2))
        && u32::from(event.error) == hex_number(part(text, ':', 3))
}

/// A write, of which one tail is notified. Then the journal is full. A request that is handed back notifies no tail.
pub(crate) const HEARD: &str = "\
    7 write 0501.120A10020001000184000000 00040008AA | 0 | 0 0501 FF\n\
    tail 0 | 1 0:7:40000:0\n\
    tail 1 | 0\n\
    8 write 0501.120A10020001000184000000 00040008BB | full | 0 0501 FF\n\
    tail 0 | 1 0:7:40000:0\n\
    tail 1 | 0";

/// Both tails are notified of controls and of writes, and not of the read. The second stop is answered with a status,
/// and the deletion of a block that doesn't exist with an error.
pub(crate) const LAST: &str = "\
    1 stop | 0 | 0 2900 -\n\
    2 read 0401.120A10020002000184000010 | 1 | 0 0401 FF0400103344\n\
    3 delete 38 7 | 2 | D209 - -\n\
    tail 0 | 2 2:3:4000000:D209\n\
    tail 1 | 2 2:3:4000000:D209 0:1:4000000:0\n\
    1 write 0501.120A10020001000184000000 00040008AA | 3 | 0 0501 FF\n\
    2 stop | 4 | 0 2907 -\n\
    tail 0 | 4 4:2:4000000:0\n\
    tail 1 | 4 4:2:4000000:0 3:1:40000:0 2:3:4000000:D209";

/// After the first of two stops another tail replaces the first tail.
pub(crate) const SWAPPED: &str = "\
    1 stop | 0 | 0 2900 -\n\
    swap 0 | 04000000 2\n\
    1 stop | 1 | 0 2907 -\n\
    gone | 1 0:1:4000000:0\n\
    tail 0 | 1 1:1:4000000:0\n\
    tail 1 | 2 1:1:4000000:0 0:1:4000000:0";

/// After the first of two stops the first tail is removed, and the second one takes its index.
pub(crate) const REMOVED: &str = "\
    1 stop | 0 | 0 2900 -\n\
    remove 0\n\
    1 stop | 1 | 0 2907 -\n\
    gone | 1 0:1:4000000:0\n\
    tail 0 | 2 1:1:4000000:0";

/// The tail that a text states, after it was notified of `count` reads.
fn told(alloc: Global, text: &str, count: u64) -> Option<Tail> {
    let mut tail = a_tail(alloc, text)?;
    for number in 0..count {
        tail.tell(&Event {
            number,
            link: 1,
            code: 0x0002_0000,
            error: 0,
        });
    }
    Some(tail)
}

/// Whether the event that `behind` newer ones follow is that of the entry with this number.
fn is_at(tail: &Tail, behind: usize, number: u64) -> bool {
    match tail.newest(behind) {
        Some(event) => event.number == number,
        None => false,
    }
}

/// A tail, the index of its oldest event counted from the newest, and the number of that event's entry.
const DEPTHS: &[(&str, usize, u64)] = &[("00020000 1", 0, 9_999), ("00020000 1000", 999, 9_000)];

/// Whether a tail that was notified of ten thousand events keeps the last of them.
fn has_last(alloc: Global, row: &(&str, usize, u64)) -> Option<bool> {
    let (text, oldest, number) = *row;
    let tail = told(alloc, text, 10_000)?;
    let is_so = tail.count() == 10_000
        && is_at(&tail, 0, 9_999)
        && is_at(&tail, oldest, number)
        && tail.newest(oldest.saturating_add(1)).is_none();
    Some(is_so)
}

/// The number of the first tail that doesn't keep its last events.
fn unmet(alloc: Global, rows: &[(&str, usize, u64)]) -> Option<usize> {
    for (number, row) in rows.iter().enumerate() {
        if has_last(alloc, row) != Some(true) {
            return Some(number);
        }
    }
    None
}

/// Tails keep the last of ten thousand events.
#[test]
fn ten_thousand_events(rt: HostRuntime) {
    all_hold(&rt, unmet(rt.alloc(), DEPTHS));
}
