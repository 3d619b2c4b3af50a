//! The command `serve`, which serves the links of a door.
ghost use Rattle.std.specs.Prelude.{◌≡◌, ◌≢◌, [], IfOk, IfSome, IsErrOf, None, if◌then◌else◌, is_some, map};
ghost use Rattle.std.specs.List.{AllByRecursion};
ghost use Rattle.s7_plant.specs.Books.{book_told, seen_of};
ghost use Rattle.s7_plant.specs.Observers.{IsFresh, fresh, told};
ghost use Rattle.s7_plant.specs.State.{begins_with, state_of};
ghost use Rattle.s7_listener.specs.Given.{HasFailed};
ghost use Rattle.s7_session.specs.Books.{history_of};
ghost use Rattle.s7_server_main.specs.Asked.{asked_told};
ghost use Rattle.s7_script.specs.Naming.{naming};
ghost use Rattle.s7_server_main.specs.End.{Ends, ReadsNamed, ServesNamed};
ghost use Rattle.s7_server_main.specs.Hosts.{ServesDoor};
ghost use Rattle.s7_server_main.specs.Saving.{ChangesOnly};
ghost use Rattle.s7_server_main.specs.Told.{events_of, run_told};

use crate::asked::Asked;
use crate::closing::close;
use crate::lent_door::LentDoor;
use crate::opening::open_book;
use crate::run::{Ended, Run};
use s7_listener::{NotHosted, serve_door};
use s7_outer::{Clock, Door, Files, Gate, Link, Out};
use s7_plant::{Book, Observer};
use s7_program::print_as;
use std::alloc::Global;
use std::sync::Wait;
use std::thread::Threads;
use std::time;

/// Serves the links of the door over the areas that are asked for, saves the areas that are left, and prints the
/// report.
pub(crate) fn run_serve<
    R: Threads + Wait + time::Clock + Sync,
    F: Files,
    L: Link + Clock + Send + Drop,
    D: Door<L>,
    G: Gate + Sync,
    U: Out,
    O: Observer + Send,
>(
    rt: &R,
    alloc: Global,
    asked: Asked<'_>,
    port: u16,
    links: u16,
    files: &mut F,
    door: &mut D,
    gate: &G,
    out: &mut U,
    observers: Vec<O>,
) -> (Ended, Option<Run<L, O>>)
    requires fresh { AllByRecursion (λ o. IsFresh (O.seen o)) observers.items }
    ensures served { IfSome result.1 (λ run. ServesNamed (asked_told asked.entry) (F.shows files.old)
        (λ opening limit. ServesDoor L.shows port links opening limit (D.shows door.old) (D.shows door.new)
        (run_told L.shows run))) }
    ensures told { IfSome result.1 (λ run. seen_of O.seen run.book
        ≡ map (λ o. told (O.seen o) (events_of (book_told run.book))) observers.items) }
    ensures none_came { result.1 ≡ None → (D.shows door.new).coming ≡ (D.shows door.old).coming }
    ensures untouched { result.1 ≡ None → result.0 ≢ Ended.Door → D.shows door.new ≡ D.shows door.old }
    ensures unfailed { result.0 ≢ Ended.File → result.0 ≢ Ended.Memory
        → (F.shows files.new).faults ≡ (F.shows files.old).faults }
    ensures changed { ChangesOnly (if is_some result.1 then (asked_told asked.entry).save else None)
        (F.shows files.old) (F.shows files.new) }
    ensures ended { Ends L.shows (asked_told asked.entry)
        (ReadsNamed (naming (asked_told asked.entry).areas) (F.shows files.old)
        × HasFailed port (D.shows door.old) (D.shows door.new))
        result.1 (F.shows files.old) (F.shows files.new) (U.shows out.old) (U.shows out.new) result.0 }
{
    let book = match open_book(alloc, asked, files, out, observers) {
        Ok(book) => book,
        Err(ended) => return (ended, None),
    };
    match serve_book(rt, alloc, book, port, links, door, gate) {
        Ok(run) => (close(alloc, asked, &run, files, out), Some(run)),
        Err(NotHosted::Door) => (print_as(Ended::Door, b"door failed\n", out), None),
        Err(NotHosted::Memory) => (print_as(Ended::Memory, b"memory\n", out), None),
    }
}

/// Serves the links of the borrowed door over a fresh book. Each link begins with the guard of the areas.
fn serve_book<
    R: Threads + Wait + time::Clock + Sync,
    L: Link + Clock + Send + Drop,
    D: Door<L>,
    G: Gate + Sync,
    O: Observer + Send,
>(
    rt: &R,
    alloc: Global,
    book: Book<O>,
    port: u16,
    links: u16,
    door: &mut D,
    gate: &G,
) -> Result<Run<L, O>, NotHosted>
    requires empty { history_of (book_told book) ≡ [] }
    requires fresh { map fresh (seen_of O.seen book) ≡ seen_of O.seen book }
    requires begins { state_of book.opening ≡ begins_with book.opening.areas }
    requires plant { state_of book.plant ≡ begins_with book.opening.areas }
    ensures served { IfOk result (λ run. ServesDoor L.shows port links book.opening.areas book.journal.limit
        (D.shows door.old) (D.shows door.new) (run_told L.shows run)) }
    ensures told { IfOk result (λ run. seen_of O.seen run.book
        ≡ map (λ s. told s (events_of (book_told run.book))) (seen_of O.seen book)) }
    ensures failed { IsErrOf result NotHosted.Door → HasFailed port (D.shows door.old) (D.shows door.new) }
    ensures memory { IsErrOf result NotHosted.Memory → D.shows door.new ≡ D.shows door.old }
{
    let mut run = Err(NotHosted::Memory);
    let lent = LentDoor { door };
    let _lent = host(rt, alloc, book, port, links, lent, gate, &mut run);
    run
}

/// Serves the links of an owned door over a fresh book. The door is returned by itself, not with the run, so that
/// contracts can state that a borrowed door is the one that was handed in.
fn host<
    R: Threads + Wait + time::Clock + Sync,
    L: Link + Clock + Send + Drop,
    D: Door<L> + Drop,
    G: Gate + Sync,
    O: Observer + Send,
>(
    rt: &R,
    alloc: Global,
    book: Book<O>,
    port: u16,
    links: u16,
    door: D,
    gate: &G,
    run: &mut Result<Run<L, O>, NotHosted>,
) -> D
    requires empty { history_of (book_told book) ≡ [] }
    requires fresh { map fresh (seen_of O.seen book) ≡ seen_of O.seen book }
    requires begins { state_of book.opening ≡ begins_with book.opening.areas }
    requires plant { state_of book.plant ≡ begins_with book.opening.areas }
    ensures served { IfOk run.new (λ run. ServesDoor L.shows port links book.opening.areas book.journal.limit
        (D.shows door) (D.shows result) (run_told L.shows run)) }
    ensures told { IfOk run.new (λ run. seen_of O.seen run.book
        ≡ map (λ s. told s (events_of (book_told run.book))) (seen_of O.seen book)) }
    ensures failed { IsErrOf run.new NotHosted.Door → HasFailed port (D.shows door) (D.shows result) }
    ensures memory { IsErrOf run.new NotHosted.Memory → D.shows result ≡ D.shows door }
{
    let guard = book.opening.areas.guard();
    let (hosted, door) = serve_door(rt, alloc, book, gate, guard, door, port, links);
    *run = match hosted {
        Ok(hosted) => Ok(Run {
            book: hosted.keeper,
            links: hosted.links,
            door_failed: hosted.door_failed,
        }),
        Err(why) => Err(why),
    };
    door
}
