//! Tests of links that are served in one hall, one after another.
ghost use Rattle.std.specs.Prelude.{◌≡◌, [], ◌∷◌, Some, IfOk};
ghost use Rattle.s7_turn.specs.Histories.{calls};
ghost use Rattle.s7_turn.specs.Seats.{IsOf, caller, callers, next, seen};

use crate::books::{a_book, a_link, is_answered};
use crate::telegrams::{
    ANSWER_AFTER_WRITE, CONFIRM, CONNECT, GRANTED, NO_ROOM, READ, SETUP, WRITE, WRITTEN, joined,
};
use s7_listener::{Keeper, Served, serve_link};
use s7_memory::MemoryLink;
use s7_outer::{Memory, OpenGate};
use s7_plant::{Book, Tail};
use s7_turn::{Hall, Seat};
use std::alloc::Global;
use std::sync::Wait;
use std::time::Clock;

/// A hall with a book that has room for two entries, and its first seat.
fn a_hall(alloc: Global) -> Result<(Hall<Book<Tail>>, Seat<Book<Tail>>), Memory>
    ensures hall { IfOk result (λ r. IsOf r.0 r.1) }
    ensures number { IfOk result (λ r. next r.1 ≡ Some 1) }
{
    let book = a_book(alloc, 2)?;
    match Hall::new(alloc, book) {
        Ok(opened) => Ok(opened),
        Err((memory, _)) => Err(memory),
    }
}

/// Serves a link from a new seat.
fn serve<R: Wait + Clock>(
    rt: &R,
    alloc: Global,
    hall: &Hall<Book<Tail>>,
    seat: Seat<Book<Tail>>,
    line: MemoryLink,
) -> (Seat<Book<Tail>>, Served<MemoryLink>)
    requires hall { IsOf hall.now seat }
    requires alone { callers seat ≡ caller seat ∷ [] }
    requires new { calls (caller seat) (seen seat) ≡ [] }
    ensures { IsOf hall.entry.now result.0 }
{
    serve_link(rt, alloc, hall, seat, &OpenGate, None, line)
}

/// Serves two links. Their seats are split off before.
fn both_served<R: Wait + Clock>(
    rt: &R,
    alloc: Global,
    hall: &Hall<Book<Tail>>,
    first: Seat<Book<Tail>>,
    lines: (MemoryLink, MemoryLink),
) -> (Seat<Book<Tail>>, (Served<MemoryLink>, Served<MemoryLink>))
    requires hall { IsOf hall.now first }
    requires number { next first ≡ Some 1 }
    ensures { IsOf hall.entry.now result.0 }
{
    let (one, two) = lines;
    let mut first = first;
    let writer = hall.split(&mut first);
    let reader = hall.split(&mut first);
    let (writer, written) = serve(rt, alloc, hall, writer, one);
    let (reader, read) = serve(rt, alloc, hall, reader, two);
    let all = hall.meet(hall.meet(first, writer), reader);
    (all, (written, read))
}

/// Two links after they were served one after another, and the book after both.
#[derive(Drop)]
struct Left {
    written: Served<MemoryLink>,
    read: Served<MemoryLink>,
    book: Book<Tail>,
}

/// Serves two links one after another, and closes the hall after both.
fn served<R: Wait + Clock>(rt: &R, alloc: Global, lines: (MemoryLink, MemoryLink)) -> Option<Left> {
    let (hall, first) = a_hall(alloc).ok()?;
    let (all, (written, read)) = both_served(rt, alloc, &hall, first, lines);
    let book = hall.close(rt, all);
    Some(Left {
        written,
        read,
        book,
    })
}

/// Reports whether a link has this number and these answers, and made one entry, which has the other number.
fn is_so(
    alloc: Global,
    served: &Served<MemoryLink>,
    answers: &[&[u8]],
    link: u32,
    entry: u64,
) -> Option<bool> {
    let answers = joined(alloc, answers)?;
    let is_numbered = served.link == link && served.last == Some(entry);
    Some(is_numbered && is_answered(served, &served.line, &answers, 1))
}

/// Reports whether the book has an entry of link 1, and one of link 2 after it.
fn has_both(book: &Book<Tail>) -> bool {
    match book.journal.as_slice() {
        [one, two] => one.link == 1 && two.link == 2 && Keeper::entries(book) == 2,
        _ => false,
    }
}

/// The links of a writer and of a reader.
fn lines(alloc: Global) -> Option<(MemoryLink, MemoryLink)> {
    let writer = a_link(alloc, &[CONNECT, SETUP, WRITE])?;
    Some((writer, a_link(alloc, &[CONNECT, SETUP, READ, READ])?))
}

/// Reports whether both links were answered, and the book has their entries.
fn are_answered(alloc: Global, left: &Left) -> Option<bool> {
    let read = &[CONFIRM, GRANTED, ANSWER_AFTER_WRITE, NO_ROOM];
    Some(
        is_so(alloc, &left.written, &[CONFIRM, GRANTED, WRITTEN], 1, 0)?
            && is_so(alloc, &left.read, read, 2, 1)?
            && has_both(&left.book),
    )
}

/// Reports whether a writer and a reader after it are answered.
fn answer_one_another<R: Wait + Clock>(rt: &R, alloc: Global) -> Option<bool> {
    are_answered(alloc, &served(rt, alloc, lines(alloc)?)?)
}

/// A link is answered by what the links before it left.
#[test]
fn links_are_answered_by_what_others_left(rt: HostRuntime) {
    assert!(rt; answer_one_another(&rt, rt.alloc()) == Some(true));
}
