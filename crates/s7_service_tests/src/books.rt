//! Rows that a book has to meet.
ghost use Rattle.std.specs.Prelude.{◌≡◌, [], map, IfSome};
ghost use Rattle.std.specs.List.{AllByRecursion};
ghost use Rattle.s7_plant.specs.Books.{seen_of};
ghost use Rattle.s7_plant.specs.Journals.{entries_of};
ghost use Rattle.s7_plant.specs.Observers.{IsFresh, fresh};

use crate::areas::AREAS;
use crate::fields::{field, number, octets, part};
use crate::plants::{a_plant, says, shows};
use crate::requests::{can_be_done, is_ready, is_write, request_of, write_of};
use crate::rows::all_lines_hold;
use crate::tails::{has_tail, is_gone, is_removed, is_swapped, tails_of};
use crate::{areas, blocks, control, images, tails};
use s7_plant::{Ask, BODY_ROOM, Book, Observer, Plant, Reply, Request, Steps, Tail};
use std::alloc::Global;
use std::marker::Brand;
use std::sync::ledger::{Blank, Ledger};

/// A test of a book: the rows that its plant is given, its tails, how many entries its journal takes, and the rows that
/// the book has to meet then.
type Row = (&'static str, &'static str, u64, &'static str);

/// A book, and what its rows need beside it.
pub(crate) struct Scene {
    pub(crate) alloc: Global,
    pub(crate) book: Book<Tail>,
    /// The tail that was swapped or removed last.
    pub(crate) gone: Option<Tail>,
    reply: Reply,
}

// This drop is a function of its own, so that the proof of a function that drops a scene takes less time.
impl Drop for Scene {
    fn drop(self) {
        let Scene {
            alloc: _,
            book: _,
            gone: _,
            reply: _,
        } = self;
    }
}

/// The first row that the book of a test doesn't meet, `None` if it meets all. A row makes a request or states what the
/// book shows. `SHOWN` is what `plants::shows` describes.
///
///     LINK REQUEST | NUMBER | ANSWER     a link asks with the right: the entry's number, and the answer
///     LINK REQUEST | full | ANSWER       a write of one item is handed back, and the reply is still this answer
///     writes COUNT                       link 1 writes COUNT times to the first octet of DB 1: 0, 1, 2 and so on
///     links LINK ..                      the links of the journal's entries, in order
///     opening | SHOWN                    what the plant showed before the first entry
///     now | SHOWN                        what the plant shows
///     image NUMBER | SHOWN               what the plant showed after the first NUMBER entries
///     tail PLACE | COUNT EVENT ..        the tail at index PLACE counted COUNT events and keeps these, newest first
///     swap PLACE | MASK DEPTH            another tail replaces the one at index PLACE
///     remove PLACE                       the tail at index PLACE is removed
///     gone | COUNT EVENT ..              the same as `tail` for the tail that was swapped or removed last
///
/// An event is `NUMBER:LINK:CODE:ERROR`, the last two in hexadecimal.
fn unmet_by(alloc: Global, row: &Row) -> Option<&'static str> {
    let (given, tails, limit, rows) = *row;
    match a_scene(alloc, given, tails, limit) {
        Some(mut scene) => unmet(&mut scene, rows),
        None => Some(given),
    }
}

/// A book of this kind before its rows. `None` if it can't be made.
fn a_scene(alloc: Global, given: &str, tails: &str, limit: u64) -> Option<Scene> {
    let reply = Reply::new(alloc, BODY_ROOM).ok()?;
    let book = a_book(alloc, given, limit, tails_of(alloc, tails)?)?;
    Some(Scene {
        alloc,
        book,
        gone: None,
        reply,
    })
}

/// A book whose plant was given these rows, whose journal takes `limit` entries, and whose observers are these tails.
pub(crate) fn a_book(alloc: Global, given: &str, limit: u64, tails: Vec<Tail>) -> Option<Book<Tail>>
    requires { AllByRecursion IsFresh tails.items }
    ensures journal { IfSome result (λ book. book.journal ≡ entries_of [] limit) }
    ensures untold { IfSome result (λ book.
        seen_of ⟦<Tail as Observer>⟧.seen book ≡ map fresh (seen_of ⟦<Tail as Observer>⟧.seen book)) }
{
    let plant = a_plant(alloc, given)?;
    if limit < 1 || limit > 262_144 || plant.blocks.limit() != 1_024 {
        return None;
    }
    Book::new(alloc, plant.areas, plant.blocks, limit, tails).ok()
}

/// The first row that the book doesn't meet, `None` if it meets all.
fn unmet<'a>(scene: &mut Scene, rows: &'a str) -> Option<&'a str> {
    for row in rows.lines() {
        match does_row(scene, row) {
            Some(true) => {}
            _ => return Some(row),
        }
    }
    None
}

/// Whether the book meets a row.
fn does_row(scene: &mut Scene, row: &str) -> Option<bool> {
    match field(row, 0) {
        "writes" => are_entered(scene, number(field(row, 1))),
        "links" => Some(are_of_links(&scene.book, row)),
        "opening" => shows(scene.alloc, &scene.book.opening, part(row, '|', 1)),
        "now" => shows(scene.alloc, &scene.book.plant, part(row, '|', 1)),
        "image" => image_shows(scene.alloc, &scene.book, row),
        "tail" => has_tail(&scene.book, row),
        "swap" => is_swapped(scene, row),
        "remove" => is_removed(scene, row),
        "gone" => is_gone(scene, row),
        _ => enters(scene, row),
    }
}

/// Whether `count` writes are entered, each of the next octet.
fn are_entered(scene: &mut Scene, count: u64) -> Option<bool> {
    for n in 0..count {
        let request = a_write(scene.alloc, n.to_be_bytes()[7])?;
        if step(&mut scene.book, 1, request, &mut scene.reply).is_err() {
            return Some(false);
        }
    }
    Some(true)
}

/// A write of this octet to the first one of data block 1.
fn a_write(alloc: Global, octet: u8) -> Option<Request> {
    let mut data = octets(alloc, "00040008")?;
    data.push(octet).ok()?;
    write_of(alloc, "0501.120A10020001000184000000", data)
}

/// Whether the journal's entries are those of the links that the row names, in order.
pub(crate) fn are_of_links(book: &Book<Tail>, row: &str) -> bool {
    let mut place = 1usize;
    for entry in book.journal.as_slice() {
        if u64::from(entry.link) != number(field(row, place)) {
            return false;
        }
        place = place.saturating_add(1);
    }
    field(row, place).is_empty()
}

/// Whether a link's request is entered or handed back as the row states, and the reply is the row's answer.
fn enters(scene: &mut Scene, row: &str) -> Option<bool> {
    let link = u32::try_from(number(field(row, 0))).ok()?;
    let request = request_of(scene.alloc, row)?;
    let is_so = match step(&mut scene.book, link, request, &mut scene.reply) {
        Ok(entered) => entered == number(part(row, '|', 1)),
        Err(back) => is_back(scene.alloc, &back, row),
    };
    Some(is_so && says(scene.alloc, &scene.reply, part(row, '|', 2)))
}

/// The number of the entry that the request makes. If there is none, the error is what the book handed back, or `None`
/// if the request can't be carried out.
fn step(
    book: &mut Book<Tail>,
    link: u32,
    request: Request,
    reply: &mut Reply,
) -> Result<u64, Option<Ask>> {
    if !can_be_done(&request) || !is_ready(reply) {
        return Err(None);
    }
    let ask = Ask {
        right: true,
        request,
    };
    match book.step(link, ask, reply) {
        Ok(number) => Ok(number),
        Err(back) => Err(Some(back)),
    }
}

/// Whether the row states that the journal is full, and the book handed back the row's write.
fn is_back(alloc: Global, back: &Option<Ask>, row: &str) -> bool {
    match back {
        Some(ask) => {
            ask.right && part(row, '|', 1) == "full" && is_write(alloc, &ask.request, row)
        }
        None => false,
    }
}

/// Whether the plant after the first entries shows what the row states.
fn image_shows(alloc: Global, book: &Book<Tail>, row: &str) -> Option<bool> {
    let image = image_of::<Brand>(alloc, book, number(field(row, 1)), Blank::new(1))?;
    shows(alloc, &image, part(row, '|', 1))
}

/// The plant after the first `n` entries. `None` if the journal has fewer, or if memory ran out.
fn image_of<S: Ledger>(alloc: Global, book: &Book<Tail>, n: u64, blank: Blank) -> Option<Plant>
    requires name { blank.name ≡ S.name }
    requires parts { blank.parts ≡ S.parts }
    requires one { blank.parts ≡ 1 }
{
    if n > book.journal.len() {
        return None;
    }
    let mut steps = Steps::<S>::new(blank);
    book.image_at(alloc, n, &mut steps).ok()
}

/// The tests of books.
const BOOKS: &[Row] = &[
    (AREAS, "", 3, areas::STEPS),
    (AREAS, "", 262_144, areas::STEPS),
    (AREAS, "", 1, areas::WRITTEN),
    (AREAS, "", 1, areas::FULL),
    (blocks::BLOCKS, "", 4, blocks::REPLAYED),
    (AREAS, "", 4, control::IMAGES),
    (AREAS, "", 5_000, images::WRITTEN),
    (AREAS, "", 9_000, images::LOADED),
    (AREAS, "00040000 1 | 00020000 1", 1, tails::HEARD),
    (AREAS, "04040000 1 | 04040000 3", 5, tails::LAST),
    (AREAS, "04000000 2 | 04000000 2", 2, tails::SWAPPED),
    (AREAS, "04000000 2 | 04000000 1", 2, tails::REMOVED),
];

/// The first row that a book of the tests doesn't meet, `None` if all meet theirs.
fn unmet_by_any(alloc: Global, rows: &[Row]) -> Option<&'static str> {
    for row in rows {
        let unmet = unmet_by(alloc, row);
        if unmet.is_some() {
            return unmet;
        }
    }
    None
}

/// Each book meets its rows.
#[test]
fn books_meet_their_rows(rt: HostRuntime) {
    all_lines_hold(&rt, unmet_by_any(rt.alloc(), BOOKS));
}
