//! The whole program, over files, a dial and an output that are handed in.
ghost use Rattle.std.specs.Prelude.{◌≡◌, ◌≢◌, ◌⊎◌, IsNone, IsSome, None, is_some, option_map};
ghost use Rattle.s7_client.specs.Completions.{told_of_results};
ghost use Rattle.s7_outer.specs.Count.{Rose, RoseExactly};
ghost use Rattle.s7_outer.specs.Dial.{NoHostFell};
ghost use Rattle.s7_program.specs.Output.{Printed};
ghost use Rattle.s7_tool_main.specs.Asked.{command_of};
ghost use Rattle.s7_tool_main.specs.End.{CarriesOut, DialFails, FileFails, IsUnrun, LacksMemory, LeavesOnly};
ghost use Rattle.s7_tool_main.specs.End.{HeardWanting, ReadsNone, Refuses, heard};
ghost use Rattle.s7_tool_main.specs.Loading.{KeepsPaths};
ghost use Rattle.s7_tool_main.specs.Report.{usage_line};
ghost use Rattle.s7_tool_main.specs.Statuses as status;

pub use crate::ended::RunEnd;
use crate::ended::{Ended, ToolEnd};
use crate::made::gen_run::run_gen;
use crate::rigs::rigging::run_rigging;
use crate::scripts::partner_run::run_partner;
use crate::scripts::script_run::run_script;
use s7_args::{ToolWords, read_tool_words};
use s7_client::Completion;
use s7_outer::{Dial, Files, Link, Out};
use s7_program::{DONE, FILE, JOBS, MEMORY, OUTPUT, REFUSED, UNREACHED, USAGE, print_line};
use std::alloc::Global;

/// Parses the words, and carries out their command.
///
/// `run` reads the script, dials the controller, and carries out a connect, the jobs of the script in order, and a
/// disconnect. Each result but the disconnect's is printed as soon as its job is done; the connect's is printed as that
/// of line 0.
///
/// `rig` reads the areas and then the scripts in order. It runs a client for each script, with a connect before the
/// script and a disconnect after it, on one book of these areas. At the end it prints, for each client, its results but
/// the disconnect's, and a line if not all of its jobs were done; and then the journal's length.
///
/// `gen` makes areas and four scripts from its number, and runs them as `rig` does. It prints, for each client, how
/// many results but the disconnect's it has, how many of them have a code other than 0, and how many octets they have;
/// and then the journal's length, and the sum of the octets that the areas have at the end.
///
/// `partner` reads the sends files in order. With two files it runs two partners in memory, and prints their news at
/// the end. With one it dials, and runs the active partner over the link; each piece of news is printed as it comes.
///
/// With `--tags`, `run` and `rig` read the tag file before all other files. The lines of scripts may then name its
/// tags, and the result of a line that names one is printed with the value of the tag.
///
/// With `--watch`, `rig` reads the tags of that file next. Its last client is then the watcher: it connects, reads
/// these tags in as many rounds as the words say, and disconnects, at once after a read that failed. Its lines come
/// after those of the scripts. There is a line for each sample that is the first of its tag or differs from the last
/// one, and one for a read that failed. The samples are those that the areas held at the entries of the watcher's
/// telegrams: all samples of one telegram have one entry, and the numbers of the entries rise. With status 0 there are
/// samples of all tags in all rounds.
///
/// The status is
///
/// - 1 if the words are no command;
/// - 2 if a tag file, a script, a sends file or the areas can't be read: a line is faulty, the file of `--watch` has no
///   tag, or the file has more than 67,108,864 octets;
/// - 3 if a file that the words name failed;
/// - 4 if the dial failed;
/// - 5 if the output failed at a result or a piece of news, which ends a run, or at the text of a rig or of two
///   partners;
/// - 6 if a result's code isn't 0, a client of a rig isn't finished, or a block of a partner wasn't acknowledged;
/// - 9 if memory ran out, which may happen instead of 1 to 4, too;
/// - 0 otherwise.
///
/// The first file that can't be read decides. For 1 to 4 and 9 one line is printed, with 9 after what was printed
/// before, and a failure of the output is ignored.
///
/// No file is changed. `run` is `Some` exactly if a link was dialled, by one call. With status 0 or 6 it has the result
/// of each job, and with 5 or 9 the results of the jobs that were done. If it is `None`, the dial wasn't used, except
/// with status 4. `rig` is `Some` exactly for `rig` and `gen` with status 0, 5 or 6. These two dial nothing, and `gen`
/// reads no file. A run of `partner` has no results.
///
/// The completion is handed back. It was notified of each job of `run`, or of the first client of `rig` or `gen`, when
/// the job was done, once, in order, and of nothing else; with 9 and a rig, of the jobs that were done by then, or of
/// none.
pub fn tool_main<F: Files, L: Link + Drop, K: Dial<L>, O: Out, C: Completion>(
    alloc: Global,
    words: &[&str],
    files: &mut F,
    dial: &mut K,
    out: &mut O,
    done: Option<C>,
) -> ToolEnd<L, C>
    // The statuses.
    ensures statuses { (result.status ≡ status.done) ⊎ (result.status ≡ status.usage)
        ⊎ (result.status ≡ status.script) ⊎ (result.status ≡ status.file) ⊎ (result.status ≡ status.dial)
        ⊎ (result.status ≡ status.output) ⊎ (result.status ≡ status.jobs) ⊎ (result.status ≡ status.memory) }
    ensures usage { result.status ≡ status.usage → command_of words.now ≡ None }
    ensures usage_words { command_of words.now ≡ None
        → (result.status ≡ status.usage) ⊎ (result.status ≡ status.memory) }
    ensures refused { result.status ≡ status.script
        → Refuses (command_of words.now) (F.shows files.old) (Printed (O.shows out.old) (O.shows out.new)) }
    ensures file_failed { result.status ≡ status.file → FileFails (command_of words.now)
        (F.shows files.old) (F.shows files.new) (Printed (O.shows out.old) (O.shows out.new)) }
    ensures dial_failed { result.status ≡ status.dial → DialFails (command_of words.now) (F.shows files.old)
        (K.shows dial.old) (K.shows dial.new) (Printed (O.shows out.old) (O.shows out.new)) }
    ensures output_failed { result.status ≡ status.output → Rose (O.shows out.old).faults (O.shows out.new).faults }

    // What was done, if all went well, if not all did, if the output failed, and if memory ran out.
    ensures done { result.status ≡ status.done → CarriesOut L.shows (command_of words.now)
        (F.shows files.old) (K.shows dial.old) (O.shows out.old) (O.shows out.new) result Ended.Done }
    ensures jobs { result.status ≡ status.jobs → CarriesOut L.shows (command_of words.now)
        (F.shows files.old) (K.shows dial.old) (O.shows out.old) (O.shows out.new) result Ended.Jobs }
    ensures broken_off { result.status ≡ status.output → CarriesOut L.shows (command_of words.now)
        (F.shows files.old) (K.shows dial.old) (O.shows out.old) (O.shows out.new) result Ended.Output }
    ensures wanting { result.status ≡ status.memory → LacksMemory L.shows (command_of words.now)
        (F.shows files.old) (K.shows dial.old) (O.shows out.old) (O.shows out.new) result }

    // What is left.
    ensures left { LeavesOnly (command_of words.now) result }
    ensures unrun { (result.status ≡ status.usage) ⊎ (result.status ≡ status.script)
        ⊎ (result.status ≡ status.file) ⊎ (result.status ≡ status.dial) → IsUnrun result }

    // What else was printed.
    ensures usage_line { result.status ≡ status.usage → Printed (O.shows out.old) (O.shows out.new) usage_line }

    // No file is changed. A call on a path failed only if the status says so or memory ran out, and then only one.
    // Nothing is dialled except for a run, and for that once.
    ensures paths { KeepsPaths (F.shows files.old) (F.shows files.new) }
    ensures unfailed { result.status ≢ status.file → result.status ≢ status.memory
        → F.shows files.new ≡ F.shows files.old }
    ensures unread { ReadsNone (command_of words.now) → F.shows files.new ≡ F.shows files.old }
    ensures dial_faults { NoHostFell (K.shows dial.old).faults (K.shows dial.new).faults }
    ensures undialled { IsNone result.run → result.status ≢ status.dial → dial.new ≡ dial.old }
    ensures dialled_once { IsSome result.run ⊎ (result.status ≡ status.dial)
        → RoseExactly 1 (K.shows dial.old).calls (K.shows dial.new).calls }
    ensures undropped { result.status ≡ status.dial → (K.shows dial.new).next ≡ (K.shows dial.old).next }

    // The completion is handed back, notified of the results that are left. A rig for which memory ran out leaves no
    // results; the completion was notified of those that there were by then, or of none.
    ensures handed_back { is_some result.done ≡ is_some done }
    ensures told { (result.status ≢ status.memory) ⊎ IsSome result.run → option_map C.told result.done
        ≡ option_map (λ t. told_of_results t (heard result)) (option_map C.told done) }
    ensures told_wanting { result.status ≡ status.memory → IsNone result.run → HeardWanting (command_of words.now)
        (F.shows files.old) (option_map C.told done) (option_map C.told result.done) }
{
    let mut done = done;
    match read_tool_words(alloc, words) {
        Ok(Some(ToolWords::Run(words))) => {
            let (ended, run) = run_script(alloc, words, files, dial, out, &mut done);
            ToolEnd {
                status: status_of(ended),
                rig: None,
                run,
                done,
            }
        }
        Ok(Some(ToolWords::Rig(words))) => {
            let (ended, rig) = run_rigging(alloc, words, files, out, &mut done);
            ToolEnd {
                status: status_of(ended),
                rig,
                run: None,
                done,
            }
        }
        Ok(Some(ToolWords::Gen(seed))) => {
            let (ended, rig) = run_gen(alloc, seed, out, &mut done);
            ToolEnd {
                status: status_of(ended),
                rig,
                run: None,
                done,
            }
        }
        Ok(Some(ToolWords::Partner(words))) => {
            let (ended, run) = run_partner(alloc, words, files, dial, out);
            ToolEnd {
                status: status_of(ended),
                rig: None,
                run,
                done,
            }
        }
        Ok(None) => unrun(
            USAGE,
            b"usage: s7tool run SCRIPT, rig AREAS SCRIPT..., gen N, partner A [B]\n",
            out,
            done,
        ),
        Err(_) => unrun(MEMORY, b"memory\n", out, done),
    }
}

/// The status for how a command ended.
fn status_of(ended: Ended) -> u8
    ensures { result ≡ status.status_of ended }
{
    match ended {
        Ended::Done => DONE,
        Ended::Refused => REFUSED,
        Ended::File => FILE,
        Ended::Dial => UNREACHED,
        Ended::Output => OUTPUT,
        Ended::Jobs => JOBS,
        Ended::Memory => MEMORY,
    }
}

/// The end of the program if the words name nothing to be run: prints one line, and ignores a failure of the output.
fn unrun<L: Link + Drop, O: Out, C>(
    status: u8,
    line: &[u8],
    out: &mut O,
    done: Option<C>,
) -> ToolEnd<L, C>
    ensures status { result.status ≡ status }
    ensures unrun { IsUnrun result }
    ensures done { result.done ≡ done }
    ensures line { Printed (O.shows out.old) (O.shows out.new) line.now }
{
    print_line(line, out);
    ToolEnd {
        status,
        rig: None,
        run: None,
        done,
    }
}
