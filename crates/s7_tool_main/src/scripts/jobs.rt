//! Carrying out the jobs of a script.
ghost use Rattle.std.specs.Prelude.{◌≡◌, ◌≢◌, ◌+◌, ◌<◌, ◌≤◌, ◌==◌, [], ◌∷◌, ◌++◌, None};
ghost use Rattle.std.specs.Prelude.{OnOk, OnErr, IfOk, IsErrOf, Err, option_map, vec_len};
ghost use Rattle.std.specs.Vec.{vec_capacity};
ghost use Rattle.std.specs.List.{list_all};
ghost use Rattle.s7_outer.specs.Count.{Rose};
ghost use Rattle.s7_outer.specs.OutShown.{OutShown};
ghost use Rattle.s7_dialogue.specs.declared.job.Job.TheVariants as job;
ghost use Rattle.s7_client.specs.Completions.{completion_of, connection_of, told_of_result};
ghost use Rattle.s7_client.specs.Polling.{job_of, config_of};
ghost use Rattle.s7_client.specs.Runs.{JobRun, between_of};
ghost use Rattle.s7_rig.specs.Tells.{Tells};
ghost use Rattle.s7_script.specs.Printing.{IsPrintable};
ghost use Rattle.s7_program.specs.Output.{Gains};
ghost use Rattle.s7_tool_main.specs.Report.{line_by};
ghost use Rattle.s7_tool_main.specs.Run.{PrintsFront, connect_line, is_good};

use crate::head::Head;
use s7_client::{Client, Completion, Job, JobResult};
use s7_outer::{Link, Out};
use s7_script::{ScriptLine, ends_print};
use std::alloc::Global;

/// Why a run ended early.
#[derive(Clone, Copy, Debug, PartialEq, Eq)]
pub(crate) enum Stop {
    /// An allocation failed.
    Memory,
    /// The output failed.
    Output,
}

/// A run under way: the client, the link over which it works, and the results so far.
#[derive(Drop)]
pub(crate) struct ScriptRun<L: Link + Drop, C> {
    pub client: Client<C>,
    pub line: L,
    pub results: Vec<JobResult>,
}

impl<L: Link + Drop, C: Completion> ScriptRun<L, C> {
    ghost use Rattle.s7_tool_main.specs.Run.{DoesAll, DoesJob, DoesLines, EndsEarly, FailsOutput, PrintsNothing, place};

    /// Carries out a connect, the jobs of these lines, and a disconnect. Keeps each result, and prints all but the
    /// disconnect's.
    pub fn do_all<O: Out>(
        &mut self,
        alloc: Global,
        lines: Vec<ScriptLine>,
        out: &mut O,
    ) -> Result<(), Stop>
        requires idle { job_of (connection_of self.old.client) ≡ None }
        requires room { vec_len self.old.results + vec_len lines + 2 ≤ vec_capacity self.old.results }
        ensures ok { OnOk result (DoesAll (config_of (connection_of self.old.client)) lines.items
            (place L.shows self.old (O.shows out.old)) (place L.shows self.new (O.shows out.new))) }
        ensures output { IsErrOf result Stop.Output → FailsOutput
            (config_of (connection_of self.old.client)) (connect_line ∷ lines.items)
            (place L.shows self.old (O.shows out.old)) (place L.shows self.new (O.shows out.new)) }
        ensures memory { IsErrOf result Stop.Memory → EndsEarly PrintsNothing
            (config_of (connection_of self.old.client)) (connect_line ∷ lines.items)
            (place L.shows self.old (O.shows out.old)) (place L.shows self.new (O.shows out.new)) }
        ensures faults { (O.shows out.old).faults ≤ (O.shows out.new).faults }
        ensures tells { Tells self.old.results.items self.new.results.items
            (option_map C.told (completion_of self.old.client)) (option_map C.told (completion_of self.new.client)) }
    {
        let connect = ScriptLine {
            line: 0,
            job: Job::Connect,
            tag: None,
        };
        self.do_job(alloc, connect, out)?;
        self.do_lines(alloc, lines, out)?;
        self.disconnect(alloc)
    }

    /// Carries out the jobs of these lines in order.
    fn do_lines<O: Out>(
        &mut self,
        alloc: Global,
        lines: Vec<ScriptLine>,
        out: &mut O,
    ) -> Result<(), Stop>
        requires idle { job_of (connection_of self.old.client) ≡ None }
        requires room { vec_len self.old.results + vec_len lines ≤ vec_capacity self.old.results }
        ensures ok { OnOk result (DoesLines (config_of (connection_of self.old.client)) lines.items
            (place L.shows self.old (O.shows out.old)) (place L.shows self.new (O.shows out.new))) }
        ensures output { IsErrOf result Stop.Output → FailsOutput
            (config_of (connection_of self.old.client)) lines.items
            (place L.shows self.old (O.shows out.old)) (place L.shows self.new (O.shows out.new)) }
        ensures memory { IsErrOf result Stop.Memory → EndsEarly PrintsNothing
            (config_of (connection_of self.old.client)) lines.items
            (place L.shows self.old (O.shows out.old)) (place L.shows self.new (O.shows out.new)) }
        ensures faults { (O.shows out.old).faults ≤ (O.shows out.new).faults }
        ensures tells { Tells self.old.results.items self.new.results.items
            (option_map C.told (completion_of self.old.client)) (option_map C.told (completion_of self.new.client)) }
        ensures idle { job_of (connection_of self.new.client) ≡ None }
        ensures config { config_of (connection_of self.new.client) ≡ config_of (connection_of self.old.client) }
        ensures len { OnOk result (vec_len self.new.results ≡ vec_len self.old.results + vec_len lines) }
        ensures capacity { vec_capacity self.old.results ≤ vec_capacity self.new.results }
    {
        for next in lines {
            self.do_job(alloc, next, out)?;
        }
        Ok(())
    }

    /// Carries out the job of a line.
    fn do_job<O: Out>(&mut self, alloc: Global, next: ScriptLine, out: &mut O) -> Result<(), Stop>
        requires idle { job_of (connection_of self.old.client) ≡ None }
        requires room { vec_len self.old.results < vec_capacity self.old.results }
        ensures ok { OnOk result (DoesLines (config_of (connection_of self.old.client)) (next ∷ [])
            (place L.shows self.old (O.shows out.old)) (place L.shows self.new (O.shows out.new))) }
        ensures output { IsErrOf result Stop.Output → FailsOutput
            (config_of (connection_of self.old.client)) (next ∷ [])
            (place L.shows self.old (O.shows out.old)) (place L.shows self.new (O.shows out.new)) }
        ensures memory { IsErrOf result Stop.Memory → EndsEarly PrintsNothing
            (config_of (connection_of self.old.client)) (next ∷ [])
            (place L.shows self.old (O.shows out.old)) (place L.shows self.new (O.shows out.new)) }
        ensures faults { (O.shows out.old).faults ≤ (O.shows out.new).faults }
        ensures tells { Tells self.old.results.items self.new.results.items
            (option_map C.told (completion_of self.old.client)) (option_map C.told (completion_of self.new.client)) }
        ensures idle { job_of (connection_of self.new.client) ≡ None }
        ensures config { config_of (connection_of self.new.client) ≡ config_of (connection_of self.old.client) }
        ensures len { OnOk result (vec_len self.new.results ≡ vec_len self.old.results + 1) }
        ensures capacity { vec_capacity self.old.results ≤ vec_capacity self.new.results }
    {
        let head = Head::of(&next);
        let told = carry_out(alloc, next.job, &mut self.client, &mut self.line)?;
        let printed = print(alloc, head, &told, out);
        keep(&mut self.results, told);
        printed
    }

    /// Carries out the disconnect. Prints nothing of it, whatever the output shows.
    fn disconnect(&mut self, alloc: Global) -> Result<(), Stop>
        requires idle { job_of (connection_of self.old.client) ≡ None }
        requires room { vec_len self.old.results < vec_capacity self.old.results }
        ensures ok { OnOk result ((out : OutShown) → DoesJob (config_of (connection_of self.old.client)) job.Disconnect
            (place L.shows self.old out) (place L.shows self.new out)) }
        ensures err { OnErr result ((out : OutShown) → place L.shows self.new out ≡ place L.shows self.old out) }
        ensures memory { result ≢ Err Stop.Output }
        ensures tells { Tells self.old.results.items self.new.results.items
            (option_map C.told (completion_of self.old.client)) (option_map C.told (completion_of self.new.client)) }
    {
        let told = carry_out(alloc, Job::Disconnect, &mut self.client, &mut self.line)?;
        keep(&mut self.results, told);
        Ok(())
    }
}

/// Carries out a job. The completion is notified of it.
fn carry_out<L: Link, C: Completion>(
    alloc: Global,
    job: Job,
    client: &mut Client<C>,
    link: &mut L,
) -> Result<JobResult, Stop>
    requires { job_of (connection_of client.old) ≡ None }
    ensures run { IfOk result (λ told. JobRun (config_of (connection_of client.old))
        (between_of (connection_of client.old)) job (L.shows link.old) (L.shows link.new) told
        (between_of (connection_of client.new))) }
    ensures printable { IfOk result (λ told. IsPrintable told) }
    ensures told { IfOk result (λ told. option_map C.told (completion_of client.new)
        ≡ option_map (λ t. told_of_result t told) (option_map C.told (completion_of client.old))) }
    ensures idle { job_of (connection_of client.new) ≡ None }
    ensures config { config_of (connection_of client.new) ≡ config_of (connection_of client.old) }
    ensures refused { OnErr result (L.shows link.new ≡ L.shows link.old) }
    ensures unchanged { OnErr result (between_of (connection_of client.new) ≡ between_of (connection_of client.old)) }
    ensures untold { OnErr result (completion_of client.new ≡ completion_of client.old) }
    ensures memory { OnErr result (result ≡ Err Stop.Memory) }
{
    ends_print();
    match client.carry_out(alloc, job, link) {
        Ok(told) => Ok(told),
        Err(_) => Err(Stop::Memory),
    }
}

/// Keeps a result. The list must have room for it.
fn keep(results: &mut Vec<JobResult>, told: JobResult)
    requires { vec_len results.old < vec_capacity results.old }
    ensures items { results.new.items ≡ results.old.items ++ told ∷ [] }
    ensures len { vec_len results.new ≡ vec_len results.old + 1 }
    ensures capacity { vec_capacity results.old ≤ vec_capacity results.new }
{
    results.push_reserved(told);
}

/// Prints the result of a line's job.
fn print<O: Out>(alloc: Global, head: Head, told: &JobResult, out: &mut O) -> Result<(), Stop>
    requires { IsPrintable told.now }
    ensures ok { OnOk result (Gains (O.shows out.old) (O.shows out.new) (line_by head.line head.tag told.now)) }
    ensures front { IsErrOf result Stop.Output → PrintsFront (O.shows out.old) (O.shows out.new)
        (line_by head.line head.tag told.now) }
    ensures rose { IsErrOf result Stop.Output → Rose (O.shows out.old).faults (O.shows out.new).faults }
    ensures memory { IsErrOf result Stop.Memory → out.new ≡ out.old }
    ensures faults { (O.shows out.old).faults ≤ (O.shows out.new).faults }
{
    let Ok(text) = head.print(alloc, told) else {
        return Err(Stop::Memory);
    };
    match out.put(text.as_slice()) {
        Ok(()) => Ok(()),
        Err(_) => Err(Stop::Output),
    }
}

/// Whether all results have code 0.
pub(crate) fn all_good(results: &[JobResult]) -> bool
    ensures { result ≡ list_all is_good results.now }
{
    results.iter().all(|told| is_good(told))
}

/// Whether a result's code is 0.
pub(crate) fn is_good(told: &JobResult) -> bool
    ensures { result ≡ is_good told.now }
{
    told.code == 0
}
