//! The command `pipe`, which serves one link.
ghost use Rattle.std.specs.Prelude.{◌≡◌, ◌≢◌, ◌∷◌, [], IfErr, IfOk, IfSome, None, Some, if◌then◌else◌, is_some, map};
ghost use Rattle.std.specs.List.{AllByRecursion};
ghost use Rattle.s7_plant.specs.Books.{book_told, seen_of};
ghost use Rattle.s7_plant.specs.Observers.{IsFresh as IsFreshSeen, told};
ghost use Rattle.s7_plant.specs.State.{begins_with, state_of};
ghost use Rattle.s7_listener.specs.Served.{IsServedLink, IsShut, served_told, told_of};
ghost use Rattle.s7_session.specs.Books.{history_of};
ghost use Rattle.s7_session.specs.Legal.{IsLegalBook};
ghost use Rattle.s7_session.specs.LinkRun.{IsFresh};
ghost use Rattle.s7_session.specs.Stands.{entry_count, newest};
ghost use Rattle.s7_server_main.specs.Asked.{asked_told};
ghost use Rattle.s7_server_main.specs.End.{Ends, ServesNamed};
ghost use Rattle.s7_server_main.specs.Hosts.{HostsOver, ServesPipe, first_of, piped_link};
ghost use Rattle.s7_server_main.specs.Saving.{ChangesOnly};
ghost use Rattle.s7_server_main.specs.Told.{events_of, run_told};

use crate::asked::Asked;
use crate::closing::close;
use crate::opening::open_book;
use crate::run::{CommandEnd, Ended, Run};
use s7_listener::Served;
use s7_outer::{Clock, Files, Link, Out};
use s7_plant::{Book, Observer};
use s7_program::print_as;
use s7_session::{BookDoer, Outcome, Session};
use std::alloc::Global;
use std::sync::Wait;
use std::time;

/// The number of the one link.
const LINK: u32 = 1;

/// Serves the link over the areas that are asked for, saves the areas that are left, and prints the report.
pub(crate) fn run_pipe<
    R: Wait + time::Clock,
    F: Files,
    L: Link + Clock + Drop,
    U: Out,
    O: Observer,
>(
    rt: &R,
    alloc: Global,
    asked: Asked<'_>,
    files: &mut F,
    pipe: L,
    out: &mut U,
    observers: Vec<O>,
) -> CommandEnd<L, O>
    requires fresh { AllByRecursion (λ o. IsFreshSeen (O.seen o)) observers.items }
    ensures served { IfSome result.run (λ run. ServesNamed (asked_told asked.entry) (F.shows files.old)
        (λ opening limit. ServesPipe opening limit (L.shows pipe) (run_told L.shows run))) }
    ensures told { IfSome result.run (λ run. seen_of O.seen run.book
        ≡ map (λ o. told (O.seen o) (events_of (book_told run.book))) observers.items) }
    ensures unserved { result.pipe ≡ (if is_some result.run then None else Some pipe) }
    ensures unfailed { result.ended ≢ Ended.File → result.ended ≢ Ended.Memory
        → (F.shows files.new).faults ≡ (F.shows files.old).faults }
    ensures changed { ChangesOnly (if is_some result.run then (asked_told asked.entry).save else None)
        (F.shows files.old) (F.shows files.new) }
    ensures ended { Ends L.shows (asked_told asked.entry) ⊥ result.run
        (F.shows files.old) (F.shows files.new) (U.shows out.old) (U.shows out.new) result.ended }
{
    let book = match open_book(alloc, asked, files, out, observers) {
        Ok(book) => book,
        Err(ended) => {
            return CommandEnd {
                ended,
                run: None,
                pipe: Some(pipe),
            };
        }
    };
    match serve_book(rt, alloc, book, pipe) {
        Ok(run) => CommandEnd {
            ended: close(alloc, asked, &run, files, out),
            run: Some(run),
            pipe: None,
        },
        Err(pipe) => CommandEnd {
            ended: print_as(Ended::Memory, b"memory\n", out),
            run: None,
            pipe: Some(pipe),
        },
    }
}

/// Serves the link over a fresh book. If the allocation of the list of links fails, hands the link back unused.
fn serve_book<R: Wait + time::Clock, L: Link + Clock + Drop, O: Observer>(
    rt: &R,
    alloc: Global,
    mut book: Book<O>,
    pipe: L,
) -> Result<Run<L, O>, L>
    requires empty { history_of (book_told book) ≡ [] }
    requires begins { state_of book.opening ≡ begins_with book.opening.areas }
    requires plant { state_of book.plant ≡ begins_with book.opening.areas }
    ensures served { IfOk result (λ run.
        ServesPipe book.opening.areas book.journal.limit (L.shows pipe) (run_told L.shows run)) }
    ensures told { IfOk result (λ run. seen_of O.seen run.book
        ≡ map (λ s. told s (events_of (book_told run.book))) (seen_of O.seen book)) }
    ensures back { IfErr result (λ back. back ≡ pipe) }
{
    let Ok(mut links) = Vec::with_capacity(alloc, 1) else {
        return Err(pipe);
    };
    links.push_reserved(serve_link(rt, alloc, pipe, &mut book));
    Ok(Run {
        book,
        links,
        door_failed: false,
    })
}

/// Serves a link over a fresh book.
fn serve_link<R: Wait + time::Clock, L: Link + Clock + Drop, O: Observer>(
    rt: &R,
    alloc: Global,
    pipe: L,
    book: &mut Book<O>,
) -> Served<L>
    requires empty { history_of (book_told book.old) ≡ [] }
    requires begins { state_of book.old.opening ≡ begins_with book.old.opening.areas }
    requires plant { state_of book.old.plant ≡ begins_with book.old.opening.areas }
    ensures hosts { HostsOver book.old.opening.areas book.old.journal.limit (L.shows pipe ∷ [])
        (told_of L.shows result ∷ []) (book_told book.new) }
    ensures told { seen_of O.seen book.new
        ≡ map (λ s. told s (events_of (book_told book.new))) (seen_of O.seen book.old) }
{
    let mut line = pipe;
    let Ok(mut session) = Session::new(alloc, LINK, book.opening.areas.guard()) else {
        line.shutdown();
        return Served {
            link: LINK,
            line,
            outcome: Outcome::Memory,
            entries: 0,
            last: None,
        };
    };
    let outcome = serve_session(rt, alloc, &mut session, &mut line, book);
    // each entry is of this link
    prove!(session.entries() == book.journal.len());
    Served {
        link: LINK,
        line,
        outcome,
        entries: session.entries(),
        last: session.last(),
    }
}

/// Serves a link over a fresh book with a fresh session, and then shuts it down.
fn serve_session<R: Wait + time::Clock, L: Link + Clock, O: Observer>(
    rt: &R,
    alloc: Global,
    session: &mut Session,
    line: &mut L,
    book: &mut Book<O>,
) -> Outcome
    requires fresh { IsFresh (first_of book.old.opening.areas) session.old }
    requires empty { history_of (book_told book.old) ≡ [] }
    requires begins { state_of book.old.opening ≡ begins_with book.old.opening.areas }
    ensures served { IsServedLink (begins_with book.old.opening.areas) book.old.journal.limit
        (first_of book.old.opening.areas) (history_of (book_told book.new)) (L.shows line.old)
        (served_told piped_link (L.shows line.new) result (entry_count session.new) (newest session.new)) }
    ensures legal_book { IsLegalBook (begins_with book.old.opening.areas) book.old.journal.limit
        ((piped_link, entry_count session.new) ∷ []) (book_told book.new) }
    ensures told { seen_of O.seen book.new
        ≡ map (λ s. told s (events_of (book_told book.new))) (seen_of O.seen book.old) }
    ensures shut { IsShut (L.shows line.old) (L.shows line.new) }
{
    let mut doer = BookDoer { book, link: LINK };
    let outcome = session.serve(rt, alloc, line, &mut doer);
    line.shutdown();
    outcome
}
