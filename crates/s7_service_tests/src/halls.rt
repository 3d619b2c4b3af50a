//! Halls that serve a book.
ghost use Rattle.std.specs.Prelude.{◌≡◌, IfSome, Some};
ghost use Rattle.s7_turn.specs.Seats.{IsOf, next};

use crate::areas::AREAS;
use crate::books::{a_book, are_of_links};
use crate::plants::{says, shows};
use crate::requests::{can_be_done, is_ready, request_of};
use s7_plant::{Ask, BODY_ROOM, Book, Reply, Request, Tail};
use s7_turn::{Hall, Seat};
use std::alloc::Global;
use std::sync::Wait;
use std::thread::{Threads, join_mut};

/// A hall with a book whose journal takes `limit` entries, and the hall's first seat.
fn opened(alloc: Global, limit: u64) -> Option<(Hall<Book<Tail>>, Seat<Book<Tail>>)>
    ensures { IfSome result (λ r. IsOf r.0 r.1 × (next r.1 ≡ Some 1)) }
{
    let book = a_book(alloc, AREAS, limit, Vec::new(alloc))?;
    match Hall::new(alloc, book) {
        Ok(opened) => Some(opened),
        Err((_, _book)) => None,
    }
}

/// How a call at a hall ends.
#[derive(Clone, Copy)]
enum Called {
    /// It made the entry of this number.
    Entered(u64),
    /// The history is full, and the request was handed back.
    Full,
    /// It wasn't made, since the request can't be carried out or the reply isn't ready.
    Unfit,
}

/// Has the hall carry out the request, if it can be carried out.
fn call<R: Wait>(
    rt: &R,
    hall: &Hall<Book<Tail>>,
    seat: &mut Seat<Book<Tail>>,
    request: Request,
    reply: &mut Reply,
) -> Called
    requires { IsOf hall.now seat.old }
    ensures { IsOf hall.now seat.new }
{
    if !can_be_done(&request) || !is_ready(reply) {
        return Called::Unfit;
    }
    let ask = Ask {
        right: true,
        request,
    };
    match hall.act(rt, seat, ask, reply) {
        Ok(done) => Called::Entered(done.number),
        Err(_) => Called::Full,
    }
}

/// A write of the first octet of data block 1, and its answer.
const WRITE: (&str, &str) = (
    "0 write 0501.120A10020001000184000000 00040008AA",
    "0 0501 FF",
);

/// A read of the four octets of data block 1, and its answer.
const READ: (&str, &str) = (
    "0 read 0401.120A10020004000184000000",
    "0 0401 FF04002011223344",
);

/// Makes a row's request. `Some(true)` if it was entered as the first and was answered as the row states, `Some(false)`
/// if it was handed back and the reply stayed empty, and `None` otherwise.
fn is_first<R: Wait>(
    rt: &R,
    alloc: Global,
    hall: &Hall<Book<Tail>>,
    seat: &mut Seat<Book<Tail>>,
    row: (&str, &str),
) -> Option<bool>
    requires { IsOf hall.now seat.old }
    ensures { IsOf hall.now seat.new }
{
    let (asked, answer) = row;
    let request = request_of(alloc, asked)?;
    let mut reply = Reply::new(alloc, BODY_ROOM).ok()?;
    match call(rt, hall, seat, request, &mut reply) {
        Called::Entered(0) if says(alloc, &reply, answer) => Some(true),
        Called::Full if says(alloc, &reply, "0 - -") => Some(false),
        _ => None,
    }
}

/// The book after one write, and whether the write was entered and answered as it should be.
fn written<R: Wait>(rt: &R, alloc: Global) -> Option<(bool, Book<Tail>)> {
    let (hall, mut seat) = opened(alloc, 2)?;
    let is_so = is_first(rt, alloc, &hall, &mut seat, WRITE).unwrap_or(false);
    Some((is_so, hall.close(rt, seat)))
}

/// Whether the book has one entry, and its plant shows this.
fn holds_it(alloc: Global, book: &Book<Tail>, shown: &str) -> bool {
    book.journal.len() == 1 && shows(alloc, &book.plant, shown).unwrap_or(false)
}

/// Whether a write at a hall was entered, and the area holds what was written.
fn is_served<R: Wait>(rt: &R, alloc: Global) -> Option<bool> {
    let (is_so, book) = written(rt, alloc)?;
    Some(is_so && holds_it(alloc, &book, "holds 84 1 AA223344"))
}

/// A hall enters a write in its book.
#[test]
fn a_hall_serves_a_book(rt: HostRuntime) {
    assert!(rt; is_served(&rt, rt.alloc()) == Some(true));
}

/// Two seats read once each, in two threads, and neither is held up. The results are those of `is_first`.
fn both_read<R: Threads + Wait + Sync>(
    rt: &R,
    alloc: Global,
    hall: &Hall<Book<Tail>>,
    one: &mut Seat<Book<Tail>>,
    two: &mut Seat<Book<Tail>>,
) -> (Option<bool>, Option<bool>)
    requires one { IsOf hall.now one.old }
    requires two { IsOf hall.now two.old }
    ensures one { IsOf hall.now one.new }
    ensures two { IsOf hall.now two.new }
{
    let mut first = || -> Option<bool>
        requires { IsOf hall.now one.now }
        ensures { IsOf hall.entry.now one.exit.now }
    { is_first(rt, alloc, hall, one, READ) };
    let mut second = || -> Option<bool>
        requires { IsOf hall.now two.now }
        ensures { IsOf hall.entry.now two.exit.now }
    { is_first(rt, alloc, hall, two, READ) };
    join_mut(rt, &mut first, &mut second)
}

/// The row of the entry's link, if one of the two seats was entered and the other was refused. No book meets the row
/// otherwise.
fn links_of(first: (Option<bool>, Option<bool>)) -> &'static str {
    match first {
        (Some(true), Some(false)) => "links 0",
        (Some(false), Some(true)) => "links 1",
        _ => "links none",
    }
}

/// Two reads at a book that takes one entry: the row of the entry's link, and the book.
fn one_read<R: Threads + Wait + Sync>(rt: &R, alloc: Global) -> Option<(&'static str, Book<Tail>)> {
    let (hall, mut one) = opened(alloc, 1)?;
    let mut two = hall.split(&mut one);
    let links = links_of(both_read(rt, alloc, &hall, &mut one, &mut two));
    let both = hall.meet(one, two);
    Some((links, hall.close(rt, both)))
}

/// Whether one of two reads at a book that takes one entry was entered, and the other one wasn't.
fn is_refused<R: Threads + Wait + Sync>(rt: &R, alloc: Global) -> Option<bool> {
    let (links, book) = one_read(rt, alloc)?;
    let is_so = holds_it(alloc, &book, "holds 84 1 11223344") && are_of_links(&book, links);
    Some(is_so)
}

/// A book that takes one entry refuses one of two reads.
#[test]
fn a_full_book_refuses_one_of_two(rt: HostRuntime) {
    assert!(rt; is_refused(&rt, rt.alloc()) == Some(true));
}
