//! The whole program, over files, links, a dial and an output that are handed in.
ghost use Rattle.std.specs.Prelude.{◌≡◌, ◌≢◌, ◌⊎◌, ◌∷◌, IfOk, IsNone, IsSome, None, codes, is_some, map, option_map};
ghost use Rattle.s7_outer.specs.Count.{Rose};
ghost use Rattle.s7_script.specs.Loading.{FailedOnce};
ghost use Rattle.s7_relay.specs.Doer.{doer_model};
ghost use Rattle.s7_args.specs.RelayShown.{relay_told_of};
ghost use Rattle.s7_program.specs.Lines.{memory_line};
ghost use Rattle.s7_program.specs.Output.{BreaksOff, Gains, Printed};
ghost use Rattle.s7_relay_main.specs.Asked.{asked_by};
ghost use Rattle.s7_relay_main.specs.End.{Ends, FileFails, HasReport, Refuses, Serves};
ghost use Rattle.s7_relay_main.specs.Report.{usage_line};
ghost use Rattle.s7_relay_main.specs.Statuses as status;

use crate::ended::{Ended, RelayEnd, RunEnd};
use crate::near::serve_near;
use crate::opening::open_doer;
use crate::output::print_report;
use s7_args::{RelayWords, read_relay_words};
use s7_outer::{Clock, Dial, Files, Link, Out};
use s7_program::{DONE, FILE, MEMORY, OUTPUT, REFUSED, USAGE, print_line};
use std::alloc::{AllocError, Global};
use std::sync::Wait;
use std::time;

/// Parses the words, loads the windows file that they name, serves the near link over these windows as link 1, shuts
/// it, and prints the report. What the near link asks of a window is asked of the server that `dial` reaches at the
/// host and port that the words name.
///
/// The status is
///
/// - 1 if the words are no command line;
/// - 2 if the windows can't be read: a line is faulty, or the file has more than 67,108,864 octets;
/// - 3 if the windows file failed;
/// - 5 if the output failed at the report;
/// - 9 if memory ran out outside the link's session, which may happen instead of 1, 2 and 3, too;
/// - 0 otherwise.
///
/// For 1, 2, 3 and 9 one line is printed instead of the report, and a failure of the output is ignored.
///
/// `outcome` and `doer` are `Some` if the session began. `doer` has the telegrams that it answered, at most as many as
/// the words state, and the far link that was dialled last. If they are `None`, `line` is `pipe`, unused. The dial is
/// dropped then. It wasn't called, but no clause can say so. No file is changed.
pub fn relay_main<
    R: Wait + time::Clock,
    F: Files,
    L: Link + Clock + Drop,
    M: Link + Drop,
    K: Dial<M> + Drop,
    O: Out,
>(
    rt: &R,
    alloc: Global,
    words: &[&str],
    files: &mut F,
    pipe: L,
    dial: K,
    out: &mut O,
) -> RelayEnd<L, K, M>
    // The statuses.
    ensures statuses { (result.status ≡ status.done) ⊎ (result.status ≡ status.usage) ⊎ (result.status ≡ status.windows)
        ⊎ (result.status ≡ status.file) ⊎ (result.status ≡ status.output) ⊎ (result.status ≡ status.memory) }
    ensures usage { result.status ≡ status.usage → asked_by words.now ≡ None }
    ensures usage_words { asked_by words.now ≡ None
        → (result.status ≡ status.usage) ⊎ (result.status ≡ status.memory) }
    ensures refused { result.status ≡ status.windows
        → Refuses (asked_by words.now) (F.shows files.old) (Printed (O.shows out.old) (O.shows out.new)) }
    ensures file_failed { result.status ≡ status.file → FileFails (asked_by words.now)
        (F.shows files.old) (F.shows files.new) (Printed (O.shows out.old) (O.shows out.new)) }
    ensures output_failed { result.status ≡ status.output → Rose (O.shows out.old).faults (O.shows out.new).faults }

    // The link was served over the windows that the words name, or it is handed back unused.
    ensures served { Serves M.shows (asked_by words.now) (F.shows files.old) (K.shows dial)
        (L.shows pipe) (L.shows result.line) result.outcome (option_map (doer_model K.shows M.shows) result.doer) }
    ensures both { is_some result.outcome ≡ is_some result.doer }
    ensures untouched { IsNone result.doer → result.line ≡ pipe }
    ensures run { (result.status ≡ status.done) ⊎ (result.status ≡ status.output) → IsSome result.doer }
    ensures no_run { (result.status ≡ status.usage) ⊎ (result.status ≡ status.windows) ⊎ (result.status ≡ status.file)
        → IsNone result.doer }

    // No file is changed. At most one call on a path failed, and none unless the status says that the file failed or
    // memory ran out.
    ensures paths { F.shows files.new ≡ record (F.shows files.old) { faults = (F.shows files.new).faults } }
    ensures file_faults { FailedOnce (F.shows files.old).faults (F.shows files.new).faults }
    ensures unfailed { result.status ≢ status.file → result.status ≢ status.memory
        → F.shows files.new ≡ F.shows files.old }
    ensures unread { asked_by words.now ≡ None → F.shows files.new ≡ F.shows files.old }

    // The text that was printed.
    ensures done { result.status ≡ status.done → HasReport result.outcome
        (option_map (doer_model K.shows M.shows) result.doer) (Gains (O.shows out.old) (O.shows out.new)) }
    ensures broken_off { result.status ≡ status.output → HasReport result.outcome
        (option_map (doer_model K.shows M.shows) result.doer) (BreaksOff (O.shows out.old) (O.shows out.new)) }
    ensures usage_line { result.status ≡ status.usage → Printed (O.shows out.old) (O.shows out.new) usage_line }
    ensures memory_line { result.status ≡ status.memory → Printed (O.shows out.old) (O.shows out.new) memory_line }
{
    let Ok(named) = with_name(alloc, words) else {
        return unserved(MEMORY, b"memory\n", pipe, out);
    };
    match read_relay_words(alloc, named.as_slice()) {
        Ok(Some(asked)) => {
            let RunEnd {
                ended,
                line,
                outcome,
                doer,
            } = run_relay(rt, alloc, asked, files, pipe, dial, out);
            RelayEnd {
                status: status_of(ended),
                line,
                outcome,
                doer,
            }
        }
        Ok(None) => unserved(USAGE, b"usage: s7relay WINDOWS\n", pipe, out),
        Err(_) => unserved(MEMORY, b"memory\n", pipe, out),
    }
}

/// The name of the program, which the parser passes over, and then the words.
fn with_name<'a>(alloc: Global, words: &[&'a str]) -> Result<Vec<&'a str>, AllocError>
    ensures { IfOk result (λ named. map (λ w. w.now) named.items ≡ codes "s7relay" ∷ map (λ w. w.now) words.now) }
{
    let mut named = Vec::new(alloc);
    named.push("s7relay")?;
    named.extend_from_slice(words)?;
    Ok(named)
}

/// Loads the windows file, serves the link and prints the report.
fn run_relay<
    R: Wait + time::Clock,
    F: Files,
    L: Link + Clock + Drop,
    M: Link + Drop,
    K: Dial<M> + Drop,
    O: Out,
>(
    rt: &R,
    alloc: Global,
    asked: RelayWords<'_>,
    files: &mut F,
    pipe: L,
    dial: K,
    out: &mut O,
) -> RunEnd<L, K, M>
    ensures served { Serves M.shows (Some (relay_told_of asked.entry)) (F.shows files.old) (K.shows dial)
        (L.shows pipe) (L.shows result.line) result.outcome (option_map (doer_model K.shows M.shows) result.doer) }
    ensures both { is_some result.outcome ≡ is_some result.doer }
    ensures untouched { IsNone result.doer → result.line ≡ pipe }
    ensures paths { F.shows files.new ≡ record (F.shows files.old) { faults = (F.shows files.new).faults } }
    ensures counts { FailedOnce (F.shows files.old).faults (F.shows files.new).faults }
    ensures unfailed { result.ended ≢ Ended.File → result.ended ≢ Ended.Memory
        → F.shows files.new ≡ F.shows files.old }
    ensures ended { Ends (relay_told_of asked.entry) result.outcome (option_map (doer_model K.shows M.shows) result.doer)
        (F.shows files.old) (F.shows files.new) (O.shows out.old) (O.shows out.new) result.ended }
{
    let mut doer = match open_doer(alloc, asked, files, dial, out) {
        Ok(doer) => doer,
        Err(ended) => {
            return RunEnd {
                ended,
                line: pipe,
                outcome: None,
                doer: None,
            };
        }
    };
    let mut line = pipe;
    let outcome = serve_near(rt, alloc, &mut line, &mut doer);
    let entries = doer.kept().len() as u64;
    RunEnd {
        ended: print_report(alloc, outcome, entries, out),
        line,
        outcome: Some(outcome),
        doer: Some(doer),
    }
}

/// The status for how the program ended.
fn status_of(ended: Ended) -> u8
    ensures { result ≡ status.status_of ended }
{
    match ended {
        Ended::Done => DONE,
        Ended::Windows => REFUSED,
        Ended::File => FILE,
        Ended::Output => OUTPUT,
        Ended::Memory => MEMORY,
    }
}

/// The end of the program if nothing is served: prints one line, and ignores a failure of the output.
fn unserved<L: Link + Drop, K, M, O: Out>(
    status: u8,
    line: &[u8],
    pipe: L,
    out: &mut O,
) -> RelayEnd<L, K, M>
    ensures status { result.status ≡ status }
    ensures line { result.line ≡ pipe }
    ensures outcome { result.outcome ≡ None }
    ensures doer { result.doer ≡ None }
    ensures printed { Printed (O.shows out.old) (O.shows out.new) line.now }
{
    print_line(line, out);
    RelayEnd {
        status,
        line: pipe,
        outcome: None,
        doer: None,
    }
}
