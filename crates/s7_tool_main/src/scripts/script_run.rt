//! The command `run`, which runs a script against a server.
ghost use Rattle.std.specs.Prelude.{◌≡◌, ◌≢◌, ◌⊎◌, ◌≤◌, ◌+◌, [], IfOk, IsSome, None, is_some, option_map, vec_len};
ghost use Rattle.std.specs.Prelude.{if◌then◌else◌};
ghost use Rattle.std.specs.Vec.{vec_capacity};
ghost use Rattle.std.specs.List.{list_all};
ghost use Rattle.s7_outer.specs.Count.{RoseExactly};
ghost use Rattle.s7_outer.specs.Dial.{NoHostFell};
ghost use Rattle.s7_client.specs.Completions.{completion_of, connection_of, told_of_results};
ghost use Rattle.s7_client.specs.Polling.{config_of, job_of};
ghost use Rattle.s7_client.specs.Runs.{between_of, fresh};
ghost use Rattle.s7_rig.specs.Tells.{Tells};
ghost use Rattle.s7_args.specs.Shown.{run_told_of};
ghost use Rattle.s7_tool_main.specs.Asked.{config_by};
ghost use Rattle.s7_tool_main.specs.End.{results_in};
ghost use Rattle.s7_tool_main.specs.Loading.{KeepsPaths};
ghost use Rattle.s7_tool_main.specs.Ran.{LinesEnd, RunEnds, RunsOver};
ghost use Rattle.s7_tool_main.specs.Run.{Goes, is_good, place};

use crate::ended::{Ended, RunEnd};
use crate::load::{TextKind, load_script, load_tags};
use crate::output::print_refusal;
use crate::scripts::jobs::{ScriptRun, Stop, all_good};
use s7_args::RunWords;
use s7_client::{Client, Completion, Config, JobResult};
use s7_outer::{Dial, Dialled, Files, Link, Out};
use s7_program::print_as;
use s7_script::ScriptLine;
use std::alloc::{AllocError, Global};

/// Reads the tag file and the script that the words name, dials the controller, and runs the script over the link.
pub(crate) fn run_script<F: Files, L: Link + Drop, K: Dial<L>, O: Out, C: Completion>(
    alloc: Global,
    words: RunWords<'_>,
    files: &mut F,
    dial: &mut K,
    out: &mut O,
    done: &mut Option<C>,
) -> (Ended, Option<RunEnd<L>>)
    ensures ended { RunEnds L.shows (run_told_of words.entry) (F.shows files.old) (F.shows files.new)
        (K.shows dial.old) (K.shows dial.new) (O.shows out.old) (O.shows out.new) result.1 result.0 }
    ensures unfailed { result.0 ≢ Ended.File → result.0 ≢ Ended.Memory → F.shows files.new ≡ F.shows files.old }
    ensures paths { KeepsPaths (F.shows files.old) (F.shows files.new) }
    ensures dial_faults { NoHostFell (K.shows dial.old).faults (K.shows dial.new).faults }
    ensures undialled { result.1 ≡ None → result.0 ≢ Ended.Dial → dial.new ≡ dial.old }
    ensures dialled_once { IsSome result.1 ⊎ (result.0 ≡ Ended.Dial)
        → RoseExactly 1 (K.shows dial.old).calls (K.shows dial.new).calls }
    ensures undropped { result.0 ≡ Ended.Dial → (K.shows dial.new).next ≡ (K.shows dial.old).next }
    ensures told { option_map C.told done.new
        ≡ option_map (λ t. told_of_results t (results_in result.1)) (option_map C.told done.old) }
    ensures handed { is_some done.new ≡ is_some done.old }
{
    let tags = match load_tags(alloc, files, words.tags) {
        Ok(tags) => tags,
        Err(refused) => {
            let ended = print_refusal(alloc, TextKind::Tags, refused.fault, refused.path, out);
            return (ended, None);
        }
    };
    match load_script(alloc, files, tags.as_ref(), words.script) {
        Ok(script) => run_lines(alloc, &words, script.into_vec(), dial, out, done),
        Err(fault) => {
            let ended = print_refusal(alloc, TextKind::Script, fault, words.script, out);
            (ended, None)
        }
    }
}

/// Dials the controller, and runs these lines over the link. All room is allocated before the dial, so a link that was
/// dialled is never dropped. The client has the completion during the run.
fn run_lines<L: Link + Drop, K: Dial<L>, O: Out, C: Completion>(
    alloc: Global,
    words: &RunWords<'_>,
    lines: Vec<ScriptLine>,
    dial: &mut K,
    out: &mut O,
    done: &mut Option<C>,
) -> (Ended, Option<RunEnd<L>>)
    ensures ended { LinesEnd L.shows (run_told_of words.now) lines.items (K.shows dial.old) (K.shows dial.new)
        (O.shows out.old) (O.shows out.new) result.1 result.0 }
    ensures dial_faults { NoHostFell (K.shows dial.old).faults (K.shows dial.new).faults }
    ensures undialled { result.1 ≡ None → result.0 ≢ Ended.Dial → dial.new ≡ dial.old }
    ensures dialled_once { IsSome result.1 ⊎ (result.0 ≡ Ended.Dial)
        → RoseExactly 1 (K.shows dial.old).calls (K.shows dial.new).calls }
    ensures undropped { result.0 ≡ Ended.Dial → (K.shows dial.new).next ≡ (K.shows dial.old).next }
    ensures told { option_map C.told done.new
        ≡ option_map (λ t. told_of_results t (results_in result.1)) (option_map C.told done.old) }
    ensures handed { is_some done.new ≡ is_some done.old }
{
    let (Ok(results), Ok(client)) = (
        results_for(alloc, lines.len()),
        Client::new(alloc, config_of(words), None),
    ) else {
        return (print_as(Ended::Memory, b"memory\n", out), None);
    };
    match dial.call(words.host, words.port) {
        Dialled::Link(line) => {
            let run = ScriptRun {
                client,
                line,
                results,
            };
            let (ended, run) = run_over(alloc, lines, run, out, done);
            (ended, Some(run))
        }
        Dialled::Failed => (print_as(Ended::Dial, b"dial failed\n", out), None),
    }
}

/// Room for the results of this number of lines, of a connect and of a disconnect.
fn results_for(alloc: Global, lines: usize) -> Result<Vec<JobResult>, AllocError>
    ensures items { IfOk result (λ v. v.items ≡ []) }
    ensures len { IfOk result (λ v. vec_len v ≡ 0) }
    ensures room { IfOk result (λ v. lines + 2 ≤ vec_capacity v) }
{
    match lines.checked_add(2) {
        Some(count) => Vec::with_capacity(alloc, count),
        None => Err(AllocError),
    }
}

/// The configuration of the client, by the words.
fn config_of(words: &RunWords<'_>) -> Config
    ensures value { result ≡ config_by (run_told_of words.now) }
    ensures least_pdu { 64 ≤ result.pdu }
    ensures most_pdu { result.pdu ≤ 1920 }
    ensures least_jobs { 1 ≤ result.jobs }
    ensures most_jobs { result.jobs ≤ 8 }
    ensures polls { 1 ≤ result.polls }
{
    let usual = Config::new(words.kind, words.rack, words.slot);
    Config {
        pdu: words.pdu,
        jobs: words.jobs,
        polls: words.polls,
        ..usual
    }
}

/// Runs the jobs of these lines, and returns how that ended and what it leaves. The client has the completion during
/// the run.
fn run_over<L: Link + Drop, O: Out, C: Completion>(
    alloc: Global,
    lines: Vec<ScriptLine>,
    run: ScriptRun<L, C>,
    out: &mut O,
    done: &mut Option<C>,
) -> (Ended, RunEnd<L>)
    requires idle { job_of (connection_of run.client) ≡ None }
    requires fresh { between_of (connection_of run.client) ≡ fresh }
    requires none { run.results.items ≡ [] }
    requires room { vec_len run.results + vec_len lines + 2 ≤ vec_capacity run.results }
    ensures over { RunsOver L.shows (config_of (connection_of run.client)) lines.items (L.shows run.line)
        (O.shows out.old) (O.shows out.new) result.1 result.0 }
    ensures tells { Tells [] result.1.results.items (option_map C.told done.old) (option_map C.told done.new) }
{
    let mut run = run;
    let _none = run.client.set_completion(done.take());
    let ended = run_jobs(alloc, lines, &mut run, out);
    *done = run.client.set_completion(None);
    let ScriptRun { line, results, .. } = run;
    (ended, RunEnd { line, results })
}

/// Runs the jobs of these lines, and returns how that ended.
fn run_jobs<L: Link + Drop, O: Out, C: Completion>(
    alloc: Global,
    lines: Vec<ScriptLine>,
    run: &mut ScriptRun<L, C>,
    out: &mut O,
) -> Ended
    requires idle { job_of (connection_of run.old.client) ≡ None }
    requires room { vec_len run.old.results + vec_len lines + 2 ≤ vec_capacity run.old.results }
    ensures goes { Goes (config_of (connection_of run.old.client)) lines.items
        (place L.shows run.old (O.shows out.old)) (place L.shows run.new (O.shows out.new)) result }
    ensures tells { Tells run.old.results.items run.new.results.items
        (option_map C.told (completion_of run.old.client)) (option_map C.told (completion_of run.new.client)) }
{
    match run.do_all(alloc, lines, out) {
        Ok(()) => ended_by(run.results.as_slice()),
        Err(Stop::Memory) => print_as(Ended::Memory, b"memory\n", out),
        Err(Stop::Output) => Ended::Output,
    }
}

/// How a command ends whose jobs were all done.
fn ended_by(results: &[JobResult]) -> Ended
    ensures { result ≡ (if list_all is_good results.now then Ended.Done else Ended.Jobs) }
{
    if all_good(results) {
        Ended::Done
    } else {
        Ended::Jobs
    }
}
