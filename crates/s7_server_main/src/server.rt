//! The whole program, over files, links, a door and an output that are handed in.
ghost use Rattle.std.specs.Prelude.{◌≡◌, ◌≢◌, ◌⊎◌, IfSome, IsSome, IsNone, Some, None, is_some, if◌then◌else◌, map};
ghost use Rattle.std.specs.List.{AllByRecursion};
ghost use Rattle.s7_outer.specs.Count.{Rose};
ghost use Rattle.s7_plant.specs.Books.{book_told, seen_of};
ghost use Rattle.s7_plant.specs.Observers.{IsFresh, told};
ghost use Rattle.s7_script.specs.Loading.{FailedOnce};
ghost use Rattle.s7_args.specs.Shown.{HasRoom, server_told_of};
ghost use Rattle.s7_server_main.specs.Asked.{asked_by, asked_told, command_of};
ghost use Rattle.s7_server_main.specs.End.{DoorFails, FileFails, KeepsDoor, Refuses, Serves};
ghost use Rattle.s7_server_main.specs.End.{areas_path, entry_asked, handed_back, save_path};
ghost use Rattle.s7_program.specs.Lines.{memory_line};
ghost use Rattle.s7_program.specs.Output.{BreaksOff, Gains, Printed};
ghost use Rattle.s7_server_main.specs.Report.{report_text, usage_line};
ghost use Rattle.s7_server_main.specs.Saving.{HoldsAreas, KeepsBut};
ghost use Rattle.s7_server_main.specs.Statuses as status;
ghost use Rattle.s7_server_main.specs.Told.{events_of, run_told};

use crate::asked::Asked;
use crate::pipe::run_pipe;
use crate::run::{CommandEnd, Ended, ServerEnd};
use crate::serve::run_serve;
use s7_args::{ServerWords, read_server_words};
use s7_outer::{Clock, Door, Files, Gate, Link, Out};
use s7_plant::Observer;
use s7_program::{DONE, FILE, MEMORY, OUTPUT, REFUSED, UNREACHED, USAGE, print_line};
use std::alloc::Global;
use std::sync::Wait;
use std::thread::Threads;
use std::time;

/// Parses the words, loads the areas that they name, serves links over these areas with a journal of the stated length,
/// saves the areas that are left if the words ask for it, and prints the report. `pipe` serves the one link. `serve`
/// serves the links that come by the door while it listens on the port that the words name, at most as many as they
/// state.
///
/// The status is
///
/// - 1 if the words are no command;
/// - 2 if the areas can't be read: a line is faulty, an inline word included, or the file has more than 67,108,864
///   octets;
/// - 3 if the area file failed, or the file to save to;
/// - 4 if the door can't listen, or failed before a link came;
/// - 5 if the output failed at the report;
/// - 9 if memory ran out outside the links' sessions, which may happen instead of 1, 2 and 3, too;
/// - 0 otherwise.
///
/// For 1, 2, 3, 4 and 9 one line is printed instead of the report, and a failure of the output is ignored.
///
/// Each observer must have counted nothing. It is notified of each entry inside the entry's turn, in order, so a slow
/// observer delays all links.
///
/// `run` is `Some` if links were served, or if the door ended before a link came. It holds the book with its observers,
/// the served links in the order of their numbers, from 1 on, and whether the door failed after the first link. All
/// memory except that of the links' sessions is allocated before a link is read or the door is asked to listen. If
/// `run` is `None`, `pipe` is handed back unused, no file was changed and the door gave no link; with every status but
/// 4 the door wasn't used at all. `serve` never uses the link, and `pipe` never the door. If `run` is `Some`, no file
/// was changed except the one to save to. With status 0 or 5 that file holds the areas that are left; with 3 or 9 its
/// content isn't specified.
pub fn server_main<
    R: Threads + Wait + time::Clock + Sync,
    F: Files,
    L: Link + Clock + Send + Drop,
    D: Door<L>,
    G: Gate + Sync,
    U: Out,
    O: Observer + Send,
>(
    rt: &R,
    alloc: Global,
    words: &[&str],
    files: &mut F,
    pipe: L,
    door: &mut D,
    gate: &G,
    out: &mut U,
    observers: Vec<O>,
) -> ServerEnd<L, O>
    requires fresh { AllByRecursion (λ o. IsFresh (O.seen o)) observers.items }
    // The statuses.
    ensures statuses { (result.status ≡ status.done) ⊎ (result.status ≡ status.usage) ⊎ (result.status ≡ status.areas)
        ⊎ (result.status ≡ status.file) ⊎ (result.status ≡ status.door) ⊎ (result.status ≡ status.output)
        ⊎ (result.status ≡ status.memory) }
    ensures usage { result.status ≡ status.usage → command_of words.now ≡ None }
    ensures usage_words { command_of words.now ≡ None
        → (result.status ≡ status.usage) ⊎ (result.status ≡ status.memory) }
    ensures refused { result.status ≡ status.areas
        → Refuses (command_of words.now) (F.shows files.old) (Printed (U.shows out.old) (U.shows out.new)) }
    ensures file_failed { result.status ≡ status.file
        → FileFails (if is_some result.run then save_path (command_of words.now) else areas_path (command_of words.now))
        (F.shows files.old) (F.shows files.new) (U.shows out.old) (U.shows out.new) }
    ensures door_failed { result.status ≡ status.door → DoorFails (command_of words.now) (F.shows files.old)
        (D.shows door.old) (D.shows door.new) (U.shows out.old) (U.shows out.new) }
    ensures output_failed { result.status ≡ status.output → Rose (U.shows out.old).faults (U.shows out.new).faults }

    // Links were served over the areas that the words name, or the link is handed back unused.
    ensures served { IfSome result.run (λ run. Serves L.shows (command_of words.now) (F.shows files.old)
        (L.shows pipe) (D.shows door.old) (D.shows door.new) (run_told L.shows run)) }
    // Each observer was notified of each entry, once and in order, and of nothing else.
    ensures told { IfSome result.run (λ run. seen_of O.seen run.book
        ≡ map (λ o. told (O.seen o) (events_of (book_told run.book))) observers.items) }
    ensures unserved { result.pipe ≡ handed_back (command_of words.now) result.run pipe }
    ensures door_kept { KeepsDoor (command_of words.now) (D.shows door.old) (D.shows door.new) }
    ensures none_came { IsNone result.run → (D.shows door.new).coming ≡ (D.shows door.old).coming }
    ensures untouched { IsNone result.run → result.status ≢ status.door → D.shows door.new ≡ D.shows door.old }
    ensures run { (result.status ≡ status.done) ⊎ (result.status ≡ status.output) → IsSome result.run }
    ensures no_run { (result.status ≡ status.usage) ⊎ (result.status ≡ status.areas) ⊎ (result.status ≡ status.door)
        → IsNone result.run }

    // The content of the files.
    ensures saved { (result.status ≡ status.done) ⊎ (result.status ≡ status.output) → IfSome result.run (λ run.
        HoldsAreas (save_path (command_of words.now)) (F.shows files.old) (F.shows files.new) run.book.plant.areas) }
    ensures paths { KeepsBut (if is_some result.run then save_path (command_of words.now) else None)
        (F.shows files.old) (F.shows files.new) }
    // At most one call on a path failed, and none unless the status says that a file failed or memory ran out.
    ensures file_faults { FailedOnce (F.shows files.old).faults (F.shows files.new).faults }
    ensures unfailed { result.status ≢ status.file → result.status ≢ status.memory
        → (F.shows files.new).faults ≡ (F.shows files.old).faults }
    ensures unread { command_of words.now ≡ None → F.shows files.new ≡ F.shows files.old }

    // The text that was printed.
    ensures done { result.status ≡ status.done → IfSome result.run (λ run.
        Gains (U.shows out.old) (U.shows out.new)
        (report_text (run_told L.shows run) (entry_asked (command_of words.now)))) }
    ensures broken_off { result.status ≡ status.output → IfSome result.run (λ run.
        BreaksOff (U.shows out.old) (U.shows out.new)
        (report_text (run_told L.shows run) (entry_asked (command_of words.now)))) }
    ensures usage_line { result.status ≡ status.usage → Printed (U.shows out.old) (U.shows out.new) usage_line }
    ensures memory_line { result.status ≡ status.memory → Printed (U.shows out.old) (U.shows out.new) memory_line }
{
    match read_server_words(alloc, words) {
        Ok(Some(command)) => {
            let asked = asked_of(command);
            match command {
                ServerWords::Pipe { .. } => {
                    let CommandEnd { ended, run, pipe } = run_pipe(
                        rt, alloc, asked, files, pipe, out, observers,
                    );
                    ServerEnd {
                        status: status_of(ended),
                        run,
                        pipe,
                    }
                }
                ServerWords::Serve { port, links, .. } => {
                    let (ended, run) = run_serve(
                        rt, alloc, asked, port, links, files, door, gate, out, observers,
                    );
                    ServerEnd {
                        status: status_of(ended),
                        run,
                        pipe: Some(pipe),
                    }
                }
            }
        }
        Ok(None) => unserved(
            USAGE,
            b"usage: s7server pipe AREAS, s7server serve AREAS\n",
            pipe,
            out,
        ),
        Err(_) => unserved(MEMORY, b"memory\n", pipe, out),
    }
}

/// What a command asks to be served.
fn asked_of<'a>(command: ServerWords<'a>) -> Asked<'a>
    requires { HasRoom command }
    ensures { asked_told result ≡ asked_by (server_told_of command.entry) }
{
    match command {
        ServerWords::Pipe {
            areas,
            save,
            journal,
        } => Asked {
            areas,
            save,
            journal,
            at: None,
        },
        ServerWords::Serve {
            areas,
            save,
            journal,
            at,
            ..
        } => Asked {
            areas,
            save,
            journal,
            at,
        },
    }
}

/// The status for how a command ended.
fn status_of(ended: Ended) -> u8
    ensures { result ≡ status.status_of ended }
{
    match ended {
        Ended::Done => DONE,
        Ended::Areas => REFUSED,
        Ended::File => FILE,
        Ended::Door => UNREACHED,
        Ended::Output => OUTPUT,
        Ended::Memory => MEMORY,
    }
}

/// The end of the program if the words ask for nothing to be served: prints one line, and ignores a failure of the
/// output.
fn unserved<L: Link + Drop, U: Out, O>(
    status: u8,
    line: &[u8],
    pipe: L,
    out: &mut U,
) -> ServerEnd<L, O>
    ensures status { result.status ≡ status }
    ensures run { result.run ≡ None }
    ensures pipe { result.pipe ≡ Some pipe }
    ensures line { Printed (U.shows out.old) (U.shows out.new) line.now }
{
    print_line(line, out);
    ServerEnd {
        status,
        run: None,
        pipe: Some(pipe),
    }
}
