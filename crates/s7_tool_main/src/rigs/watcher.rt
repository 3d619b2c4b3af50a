//! The watcher of a rig, which reads tags in rounds.
ghost use Rattle.std.specs.Prelude.{◌≡◌, ◌<◌, ◌++◌, ◌∷◌, [], IfOk, OnOk, Some, drop, length, map, option_map, slice_get};
ghost use Rattle.std.specs.Option.{ForSome};
ghost use Rattle.s7_rig.specs.Shown.{client_told, script_told};
ghost use Rattle.s7_watched.specs.Watched.{watch_script};
ghost use Rattle.s7_watch.specs.Laws.{taken_lines};
ghost use Rattle.s7_watch.specs.Looks.{jobs_of};
ghost use Rattle.s7_watch.specs.WatchShown.{watch_told};
ghost use Rattle.s7_tool_main.specs.RigText.{has_left, is_disconnect, is_watch_good, is_watcher_good, lines_of};
ghost use Rattle.s7_tool_main.specs.RigText.{watch_text};
ghost use Rattle.s7_tool_main.specs.Taking.{AreTaken, AreWatched, TakesNext, after_taken, next_lines};

use crate::rigs::rig_report::unfinished_line;
use crate::scripts::jobs::all_good;
use s7_client::{Job, JobResult};
use s7_outer::Memory;
use s7_rig::{ClientScript, RigClient};
use s7_symbol::Tags;
use s7_watch::{Watch, results_give_lines};
use std::alloc::{AllocError, Global};

/// A connect, the reads of all tags in this number of rounds, and a disconnect, which follows a failed read at once.
pub(crate) fn watch_script(alloc: Global, tags: &Tags, rounds: u32) -> Result<ClientScript, Memory>
    requires { 0 < length tags.now }
    ensures { IfOk result (λ script. script_told script ≡ watch_script tags.now rounds) }
{
    let mut watch = Watch::new(alloc, tags, rounds)?;
    let mut jobs = Vec::new(alloc);
    add_job(&mut jobs, Job::Connect)?;
    add_reads(alloc, &mut jobs, &mut watch)?;
    add_job(&mut jobs, Job::Disconnect)?;
    Ok(ClientScript { jobs, halts: true })
}

/// Appends the jobs of all reads that are left.
fn add_reads(alloc: Global, jobs: &mut Vec<Job>, watch: &mut Watch) -> Result<(), Memory>
    ensures { OnOk result (jobs.new.items ≡ jobs.old.items ++ jobs_of (watch_told watch.old).ahead) }
{
    while let Some(job) = watch.job(alloc)? {
        add_job(jobs, job)?;
    }
    Ok(())
}

/// Appends a job.
fn add_job(jobs: &mut Vec<Job>, job: Job) -> Result<(), AllocError>
    ensures { OnOk result (jobs.new.items ≡ jobs.old.items ++ job ∷ []) }
{
    jobs.push(job)?;
    Ok(())
}

/// The client after those of this number of scripts, if there is one.
pub(crate) fn watcher_of(clients: &[RigClient], scripts: usize) -> Option<&RigClient>
    ensures { option_map (λ c. client_told c.now) result ≡ slice_get (map client_told clients.now) scripts }
{
    clients.get(scripts)
}

/// The text of the watcher of these tags; it is empty if no tags are watched.
pub(crate) fn watch_text(
    alloc: Global,
    watched: Option<&Tags>,
    rounds: u32,
    watcher: Option<&RigClient>,
) -> Result<Vec<u8>, Memory>
    requires some { ForSome watched (λ tags. 0 < length tags.now) }
    requires taken { AreWatched (option_map (λ t. t.now) watched) rounds
        (option_map (λ c. client_told c.now) watcher) }
    ensures { IfOk result (λ text. text.items ≡ watch_text (option_map (λ t. t.now) watched.entry) rounds
        (option_map (λ c. client_told c.now) watcher.entry)) }
{
    let mut text = Vec::new(alloc);
    if let (Some(tags), Some(client)) = (watched, watcher) {
        add_watcher(alloc, &mut text, tags, rounds, client)?;
    }
    Ok(text)
}

/// Appends the lines of the watcher of these tags, and a line if it didn't come to its disconnect.
fn add_watcher(
    alloc: Global,
    text: &mut Vec<u8>,
    tags: &Tags,
    rounds: u32,
    client: &RigClient,
) -> Result<(), Memory>
    requires some { 0 < length tags.now }
    requires taken { AreWatched (Some tags.now) rounds (Some (client_told client.now)) }
    ensures { OnOk result (text.new.items ≡ text.old.items
        ++ lines_of tags.now rounds (Some (client_told client.now))) }
{
    let results = client.results.as_slice();
    let mut watch = Watch::new(alloc, tags, rounds)?;
    add_lines(alloc, text, &mut watch, after_connect(results))?;
    results_give_lines();
    if !has_left(results) {
        let line = unfinished_line(alloc, client.link)?;
        text.extend_from_slice(line.as_bytes())?;
    }
    Ok(())
}

/// The results after the first one, which is that of the connect.
fn after_connect(results: &[JobResult]) -> &[JobResult]
    ensures { result.now ≡ drop 1 results.now }
{
    if results.is_empty() {
        results
    } else {
        &results[1..]
    }
}

/// Appends the lines of the results of reads, each of which is the next one.
fn add_lines(
    alloc: Global,
    text: &mut Vec<u8>,
    watch: &mut Watch,
    results: &[JobResult],
) -> Result<(), Memory>
    requires { AreTaken (watch_told watch.old).ahead (watch_told watch.old).lasts results.now }
    ensures { OnOk result (text.new.items ≡ text.old.items
        ++ taken_lines (watch_told watch.old).ahead (watch_told watch.old).lasts results.now) }
{
    for told in results {
        add_next(alloc, text, watch, told)?;
    }
    Ok(())
}

/// Appends the lines of the result of the next read; there are none if no read is left.
fn add_next(
    alloc: Global,
    text: &mut Vec<u8>,
    watch: &mut Watch,
    told: &JobResult,
) -> Result<(), Memory>
    requires { TakesNext (watch_told watch.old).ahead told.now }
    ensures text { OnOk result (text.new.items ≡ text.old.items
        ++ next_lines (watch_told watch.old).ahead (watch_told watch.old).lasts told.now) }
    ensures ahead { OnOk result ((watch_told watch.new).ahead
        ≡ (after_taken (watch_told watch.old).ahead (watch_told watch.old).lasts told.now).ahead) }
    ensures lasts { OnOk result ((watch_told watch.new).lasts
        ≡ (after_taken (watch_told watch.old).ahead (watch_told watch.old).lasts told.now).lasts) }
{
    let next = watch.job(alloc)?;
    if next.is_none() {
        return Ok(());
    }
    let lines = watch.take(alloc, told)?;
    text.extend_from_slice(lines.as_slice())?;
    Ok(())
}

/// Whether the watcher came to its disconnect, with code 0 in all results. There is none if no tags are watched.
pub(crate) fn is_watch_good(watched: Option<&Tags>, watcher: Option<&RigClient>) -> bool
    ensures { result ≡ is_watch_good (option_map (λ t. t.now) watched.entry)
        (option_map (λ c. client_told c.now) watcher.entry) }
{
    match watched {
        Some(_) => is_watcher_good(watcher),
        None => true,
    }
}

/// Whether a watcher came to its disconnect, with code 0 in all results.
fn is_watcher_good(watcher: Option<&RigClient>) -> bool
    ensures { result ≡ is_watcher_good (option_map (λ c. client_told c.now) watcher.entry) }
{
    match watcher {
        Some(client) => {
            let results = client.results.as_slice();
            has_left(results) && all_good(results)
        }
        None => false,
    }
}

/// Whether the last result is that of a disconnect.
fn has_left(results: &[JobResult]) -> bool
    ensures { result ≡ has_left results.now }
{
    match results.last() {
        Some(told) => is_disconnect(&told.job),
        None => false,
    }
}

/// Whether a job is a disconnect.
fn is_disconnect(job: &Job) -> bool
    ensures { result ≡ is_disconnect job.now }
{
    match job {
        Job::Disconnect => true,
        _ => false,
    }
}
