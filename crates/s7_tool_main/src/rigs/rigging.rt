//! The command `rig`, which runs scripts together and watches tags.
ghost use Rattle.std.specs.Prelude.{◌≡◌, ◌≢◌, ◌≤◌, ◌<◌, ◌*◌, ◌+◌, ◌&&◌, ◌∷◌, ◌++◌, [], All, IfOk, length, map, vec_len};
ghost use Rattle.std.specs.Prelude.{OnErr, is_some, option_map};
ghost use Rattle.std.specs.Option.{ForSome};
ghost use Rattle.std.specs.List.{AllByRecursion};
ghost use Rattle.s7_rig.specs.Scripts.{BeginsWell};
ghost use Rattle.s7_client.specs.Completions.{told_of_results};
ghost use Rattle.s7_rig.specs.Shown.{client_told, end_told, first_results, script_told};
ghost use Rattle.s7_args.specs.Shown.{rig_told_of};
ghost use Rattle.s7_args.specs.Tool.{client_count};
ghost use Rattle.s7_tool_main.specs.Asked.{rig_config};
ghost use Rattle.s7_tool_main.specs.End.{results_in_rig};
ghost use Rattle.s7_tool_main.specs.Loading.{KeepsPaths};
ghost use Rattle.s7_tool_main.specs.RigText.{ArePrintable, are_clients_good, are_good_by, heads_of, is_watch_good};
ghost use Rattle.s7_tool_main.specs.RigText.{rig_text};
ghost use Rattle.s7_tool_main.specs.Rigging.{JobsWanting, RanJobs, RigEnds, RigWanting, client_script, rig_scripts};
ghost use Rattle.s7_tool_main.specs.Run.{jobs_of};

use crate::ended::Ended;
use crate::head::Head;
use crate::load::{TextKind, load_scripts, load_tags, load_watch};
use crate::output::{print_areas_refusal, print_refusal, print_text};
use crate::rigs::rig_report::{are_good, rig_text};
use crate::rigs::watcher::{is_watch_good, watch_script, watch_text, watcher_of};
use s7_area::Areas;
use s7_args::RigWords;
use s7_client::{Completion, Config, Job};
use s7_outer::{Files, Memory, Out};
use s7_program::print_as;
use s7_rig::{ClientScript, RigClient, RigEnd, Schedule, rigs_are_formed, rigs_follow, run_rig};
use s7_script::{Script, ends_print, load_areas, scripts_keep_links};
use s7_symbol::Tags;
use s7_watched::rigs_show_watches;
use std::alloc::{AllocError, Global};

/// A rig that ran, its text, and whether all went well.
#[derive(Drop)]
pub(crate) struct Rigged {
    pub end: RigEnd,
    pub text: Vec<u8>,
    pub is_good: bool,
}

/// Loads the tags, the watched tags, the areas and the scripts that the words name, runs a client for each script and
/// the watcher, and prints the results. The completion is notified of the first client's jobs.
pub(crate) fn run_rigging<F: Files, O: Out, C: Completion>(
    alloc: Global,
    words: RigWords<'_>,
    files: &mut F,
    out: &mut O,
    done: &mut Option<C>,
) -> (Ended, Option<RigEnd>)
    ensures ended { RigEnds (rig_told_of words.entry) (F.shows files.old) (F.shows files.new)
        (O.shows out.old) (O.shows out.new) result.1 result.0 }
    ensures unfailed { result.0 ≢ Ended.File → result.0 ≢ Ended.Memory → F.shows files.new ≡ F.shows files.old }
    ensures paths { KeepsPaths (F.shows files.old) (F.shows files.new) }
    ensures told { result.0 ≢ Ended.Memory → option_map C.told done.new
        ≡ option_map (λ t. told_of_results t (results_in_rig result.1)) (option_map C.told done.old) }
    ensures told_wanting { result.0 ≡ Ended.Memory → RigWanting (rig_told_of words.entry) (F.shows files.old)
        (option_map C.told done.old) (option_map C.told done.new) }
    ensures handed { is_some done.new ≡ is_some done.old }
{
    let tags = match load_tags(alloc, files, words.tags) {
        Ok(tags) => tags,
        Err(refused) => {
            let ended = print_refusal(alloc, TextKind::Tags, refused.fault, refused.path, out);
            return (ended, None);
        }
    };
    let watched = match load_watch(alloc, files, words.watch) {
        Ok(watched) => watched,
        Err(refused) => {
            let ended = print_refusal(alloc, TextKind::Tags, refused.fault, refused.path, out);
            return (ended, None);
        }
    };
    let areas = match load_areas(alloc, files, words.areas) {
        Ok(areas) => areas,
        Err(fault) => return (print_areas_refusal(alloc, fault, words.areas, out), None),
    };
    scripts_keep_links();
    let scripts = match load_scripts(alloc, files, tags.as_ref(), words.scripts.as_slice()) {
        Ok(scripts) => scripts,
        Err(refused) => {
            let ended = print_refusal(alloc, TextKind::Script, refused.fault, refused.path, out);
            return (ended, None);
        }
    };
    rigs_follow();
    rigs_show_watches();
    match run_scripts(alloc, &words, areas, scripts, watched, done) {
        Ok(rigged) => {
            let ended = print_text(rigged.text.as_slice(), rigged.is_good, out);
            (ended, Some(rigged.end))
        }
        Err(_) => (print_as(Ended::Memory, b"memory\n", out), None),
    }
}

/// Runs these scripts on these areas, with the watcher of these tags, and makes the text of the results.
fn run_scripts<C: Completion>(
    alloc: Global,
    words: &RigWords<'_>,
    areas: Areas,
    scripts: Vec<Script>,
    watched: Option<Tags>,
    done: &mut Option<C>,
) -> Result<Rigged, Memory>
    requires len { vec_len scripts ≡ vec_len words.now.scripts }
    requires watch { is_some watched ≡ is_some words.now.watch }
    requires some { ForSome watched (λ tags. 0 < length tags) }
    requires connects { AllByRecursion BeginsWell (map client_script scripts.items) }
    ensures ran { IfOk result (λ r. RanJobs (rig_told_of words.now) areas
        (rig_scripts scripts.items watched words.now.rounds) (end_told r.end)) }
    ensures text { IfOk result (λ r. r.text.items
        ≡ rig_text scripts.items watched words.now.rounds (end_told r.end)) }
    ensures good { IfOk result (λ r. r.is_good ≡ are_clients_good scripts.items watched (end_told r.end).clients) }
    ensures told { IfOk result (λ r. option_map C.told done.new
        ≡ option_map (λ t. told_of_results t (first_results (end_told r.end))) (option_map C.told done.old)) }
    ensures told_wanting { OnErr result (JobsWanting (rig_told_of words.now) areas
        (rig_scripts scripts.items watched words.now.rounds) (option_map C.told done.old) (option_map C.told done.new)) }
    ensures handed { is_some done.new ≡ is_some done.old }
{
    let heads = all_heads(alloc, scripts.as_slice())?;
    let watched = watched.as_ref();
    let clients = rig_scripts(alloc, scripts, watched, words.rounds)?;
    let count = clients.len();
    let end = run_clients(alloc, words, areas, clients, done)?;
    rigs_follow();
    let watcher = watcher_of(end.clients.as_slice(), heads.len());
    let lines = watch_text(alloc, watched, words.rounds, watcher)?;
    let text = rig_text(alloc, heads.as_slice(), lines.as_slice(), &end)?;
    let is_good = is_rig_good(heads.as_slice(), count, &end, watched, watcher);
    Ok(Rigged { end, text, is_good })
}

/// Runs a client for each of these scripts on these areas.
fn run_clients<C: Completion>(
    alloc: Global,
    words: &RigWords<'_>,
    areas: Areas,
    scripts: Vec<ClientScript>,
    done: &mut Option<C>,
) -> Result<RigEnd, Memory>
    requires len { vec_len scripts ≡ client_count (vec_len words.now.scripts) words.now.watch }
    requires connects { AllByRecursion BeginsWell (map script_told scripts.items) }
    ensures ran { IfOk result (λ end.
        RanJobs (rig_told_of words.now) areas (map script_told scripts.items) (end_told end)) }
    ensures printable { IfOk result (λ end. All ArePrintable (end_told end).clients) }
    ensures told { IfOk result (λ end. option_map C.told done.new
        ≡ option_map (λ t. told_of_results t (first_results (end_told end))) (option_map C.told done.old)) }
    ensures told_wanting { OnErr result (JobsWanting (rig_told_of words.now) areas (map script_told scripts.items)
        (option_map C.told done.old) (option_map C.told done.new)) }
    ensures handed { is_some done.new ≡ is_some done.old }
{
    ends_print();
    rigs_are_formed();
    let schedule = Schedule {
        turns: words.turns.as_slice(),
        seed: words.seed,
        steps: words.steps,
    };
    let config = rig_config(words.pdu, words.jobs);
    run_rig(alloc, areas, words.journal, scripts, config, schedule, done)
}

/// Whether there are this many clients, each client of a script is finished with code 0 in all results, and, if tags
/// are watched, the watcher came to its disconnect with code 0 in all results. The scripts' lines have these heads.
fn is_rig_good(
    heads: &[Vec<Head>],
    count: usize,
    end: &RigEnd,
    watched: Option<&Tags>,
    watcher: Option<&RigClient>,
) -> bool
    ensures { result ≡ (are_good_by (map (λ v. v.items) heads.now) count (end_told end.now).clients
        && is_watch_good (option_map (λ t. t.now) watched.entry)
        (option_map (λ c. client_told c.now) watcher.entry)) }
{
    are_good(heads, count, end.clients.as_slice()) && is_watch_good(watched, watcher)
}

/// The configuration of a rig's clients.
pub(crate) fn rig_config(pdu: u16, jobs: u16) -> Config
    ensures { result ≡ rig_config pdu jobs }
{
    Config {
        pdu,
        jobs,
        polls: 1_000_000,
        ..Config::new(1, 0, 2)
    }
}

/// The heads of the lines of each script, after a head of the connect with number 0.
fn all_heads(alloc: Global, scripts: &[Script]) -> Result<Vec<Vec<Head>>, AllocError>
    ensures { IfOk result (λ all. map (λ v. v.items) all.items ≡ map heads_of scripts.now) }
{
    let mut all = Vec::new(alloc);
    for script in scripts {
        all.push(heads_of(alloc, script)?)?;
    }
    Ok(all)
}

/// The heads of the lines of a script, after a head of the connect.
fn heads_of(alloc: Global, script: &Script) -> Result<Vec<Head>, AllocError>
    ensures { IfOk result (λ heads. heads.items ≡ heads_of script.now) }
{
    let mut heads = Vec::new(alloc);
    heads.push(Head { line: 0, tag: None })?;
    for next in script.as_slice() {
        heads.push(Head::of(next))?;
    }
    Ok(heads)
}

/// The script of each client, and then that of the watcher of these tags.
fn rig_scripts(
    alloc: Global,
    scripts: Vec<Script>,
    watched: Option<&Tags>,
    rounds: u32,
) -> Result<Vec<ClientScript>, Memory>
    requires { ForSome watched (λ tags. 0 < length tags.now) }
    ensures scripts { IfOk result (λ all. map script_told all.items
        ≡ rig_scripts scripts.items (option_map (λ t. t.now) watched.entry) rounds) }
    ensures len { IfOk result (λ all. vec_len all ≡ client_count (vec_len scripts) watched.entry) }
{
    let mut all = client_scripts(alloc, scripts)?;
    if let Some(tags) = watched {
        let script = watch_script(alloc, tags, rounds)?;
        match all.push(script) {
            Ok(()) => {}
            Err(_) => return Err(Memory),
        }
    }
    Ok(all)
}

/// The script of each client.
fn client_scripts(alloc: Global, scripts: Vec<Script>) -> Result<Vec<ClientScript>, AllocError>
    ensures scripts { IfOk result (λ all. map script_told all.items ≡ map client_script scripts.items) }
    ensures len { IfOk result (λ all. vec_len all ≡ vec_len scripts) }
{
    let mut all = Vec::new(alloc);
    for script in scripts {
        let jobs = jobs_of(alloc, script)?;
        all.push(ClientScript { jobs, halts: false })?;
    }
    Ok(all)
}

/// A connect, the jobs of a script, and a disconnect.
fn jobs_of(alloc: Global, script: Script) -> Result<Vec<Job>, AllocError>
    ensures { IfOk result (λ jobs. jobs.items ≡ jobs_of script) }
{
    let mut jobs = Vec::new(alloc);
    jobs.push(Job::Connect)?;
    for next in script.into_vec() {
        jobs.push(next.job)?;
    }
    jobs.push(Job::Disconnect)?;
    Ok(jobs)
}
