//! The command `partner`.
ghost use Rattle.std.specs.Prelude.{◌≡◌, ◌≢◌, ◌⊎◌, [], All, IfOk, IsSome, None};
ghost use Rattle.s7_outer.specs.Count.{RoseExactly};
ghost use Rattle.s7_outer.specs.Dial.{NoHostFell};
ghost use Rattle.s7_script.specs.Sends.{IsSized};
ghost use Rattle.s7_partner_run.specs.Talking.{post_of};
ghost use Rattle.s7_args.specs.Shown.{partner_told_of};
ghost use Rattle.s7_tool_main.specs.End.{results_in};
ghost use Rattle.s7_tool_main.specs.Loading.{KeepsPaths};
ghost use Rattle.s7_tool_main.specs.Partners.{AloneEnds, BothEnd, EndsBy, PairTells, PartnerEnds, TalkedOver};
ghost use Rattle.s7_tool_main.specs.Partners.{partner_config};

use crate::ended::{Ended, RunEnd};
use crate::load::{TextKind, load_sends};
use crate::output::{print_refusal, print_text};
use s7_args::PartnerWords;
use s7_client::Config;
use s7_outer::{Dial, Dialled, Files, Link, Memory, Out};
use s7_partner::Role;
use s7_partner_run::{TalkEnd, Talker, pair_text, run_pair, talk};
use s7_program::print_as;
use s7_script::Sends;
use std::alloc::Global;

/// The news of two partners, and whether every block of both partners was acknowledged.
#[derive(Drop)]
struct Paired {
    text: Vec<u8>,
    is_done: bool,
}

/// Reads the sends files that the words name. With two files, runs two partners in memory; with one file, dials, and
/// runs the active partner over the link. All room is allocated before the dial, so a link that was dialled is never
/// dropped.
pub(crate) fn run_partner<F: Files, L: Link + Drop, K: Dial<L>, O: Out>(
    alloc: Global,
    words: PartnerWords<'_>,
    files: &mut F,
    dial: &mut K,
    out: &mut O,
) -> (Ended, Option<RunEnd<L>>)
    ensures ended { PartnerEnds L.shows (partner_told_of words.entry) (F.shows files.old) (F.shows files.new)
        (K.shows dial.old) (K.shows dial.new) (O.shows out.old) (O.shows out.new) result.1 result.0 }
    ensures unfailed { result.0 ≢ Ended.File → result.0 ≢ Ended.Memory → F.shows files.new ≡ F.shows files.old }
    ensures paths { KeepsPaths (F.shows files.old) (F.shows files.new) }
    ensures dial_faults { NoHostFell (K.shows dial.old).faults (K.shows dial.new).faults }
    ensures undialled { result.1 ≡ None → result.0 ≢ Ended.Dial → dial.new ≡ dial.old }
    ensures dialled_once { IsSome result.1 ⊎ (result.0 ≡ Ended.Dial)
        → RoseExactly 1 (K.shows dial.old).calls (K.shows dial.new).calls }
    ensures undropped { result.0 ≡ Ended.Dial → (K.shows dial.new).next ≡ (K.shows dial.old).next }
    ensures unheard { results_in result.1 ≡ [] }
{
    let one = match load_sends(alloc, files, words.one) {
        Ok(sends) => sends,
        Err(fault) => {
            let ended = print_refusal(alloc, TextKind::Script, fault, words.one, out);
            return (ended, None);
        }
    };
    match words.other {
        Some(path) => (run_both(alloc, &words, one, path, files, out), None),
        None => run_alone(alloc, &words, one, dial, out),
    }
}

/// Reads the second file, and runs two partners in memory.
fn run_both<F: Files, O: Out>(
    alloc: Global,
    words: &PartnerWords<'_>,
    one: Sends,
    path: &str,
    files: &mut F,
    out: &mut O,
) -> Ended
    requires sized { All IsSized one }
    ensures ended { BothEnd (partner_told_of words.now) one path.now (F.shows files.old) (F.shows files.new)
        (O.shows out.old) (O.shows out.new) result }
    ensures unfailed { result ≢ Ended.File → result ≢ Ended.Memory → F.shows files.new ≡ F.shows files.old }
    ensures paths { KeepsPaths (F.shows files.old) (F.shows files.new) }
{
    let other = match load_sends(alloc, files, path) {
        Ok(sends) => sends,
        Err(fault) => return print_refusal(alloc, TextKind::Script, fault, path, out),
    };
    match pair(alloc, one, other, words.seed, words.steps) {
        Ok(paired) => print_text(paired.text.as_slice(), paired.is_done, out),
        Err(_) => print_as(Ended::Memory, b"memory\n", out),
    }
}

/// Runs two partners, and makes the text of their news.
fn pair(alloc: Global, one: Sends, other: Sends, seed: u32, steps: u32) -> Result<Paired, Memory>
    requires sized { All IsSized one }
    requires other_sized { All IsSized other }
    ensures { IfOk result (λ p. PairTells one other seed steps p.text.items p.is_done) }
{
    let end = run_pair(alloc, partner_config(), one, other, seed, steps)?;
    let text = pair_text(alloc, end.events.as_slice())?;
    Ok(Paired {
        text,
        is_done: end.is_done,
    })
}

/// Dials, and runs the active partner over the link.
fn run_alone<L: Link + Drop, K: Dial<L>, O: Out>(
    alloc: Global,
    words: &PartnerWords<'_>,
    one: Sends,
    dial: &mut K,
    out: &mut O,
) -> (Ended, Option<RunEnd<L>>)
    requires sized { All IsSized one }
    ensures ended { AloneEnds L.shows (partner_told_of words.now) one (K.shows dial.old) (K.shows dial.new)
        (O.shows out.old) (O.shows out.new) result.1 result.0 }
    ensures dial_faults { NoHostFell (K.shows dial.old).faults (K.shows dial.new).faults }
    ensures undialled { result.1 ≡ None → result.0 ≢ Ended.Dial → dial.new ≡ dial.old }
    ensures dialled_once { IsSome result.1 ⊎ (result.0 ≡ Ended.Dial)
        → RoseExactly 1 (K.shows dial.old).calls (K.shows dial.new).calls }
    ensures undropped { result.0 ≡ Ended.Dial → (K.shows dial.new).next ≡ (K.shows dial.old).next }
    ensures unheard { results_in result.1 ≡ [] }
{
    let Ok(talker) = Talker::new(alloc, Role::Active, partner_config(), one) else {
        return (print_as(Ended::Memory, b"memory\n", out), None);
    };
    match dial.call(words.host, words.port) {
        Dialled::Link(line) => {
            let (ended, run) = talk_over(alloc, talker, line, out);
            (ended, Some(run))
        }
        Dialled::Failed => (print_as(Ended::Dial, b"dial failed\n", out), None),
    }
}

/// The configuration of partners.
fn partner_config() -> Config
    ensures { result ≡ partner_config }
{
    Config::new(1, 0, 2)
}

/// Runs the partner over the link, and returns how that ended and what it leaves.
fn talk_over<L: Link + Drop, O: Out>(
    alloc: Global,
    talker: Talker,
    line: L,
    out: &mut O,
) -> (Ended, RunEnd<L>)
    ensures { TalkedOver L.shows (post_of talker) (L.shows line) (O.shows out.old) (O.shows out.new) result.1 result.0 }
{
    let mut talker = talker;
    let mut run = RunEnd {
        line,
        results: Vec::new(alloc),
    };
    let end = talk(alloc, &mut talker, &mut run.line, out);
    (ended_by(end, out), run)
}

/// How the command ends. If memory ran out, prints a line that says so.
fn ended_by<O: Out>(end: TalkEnd, out: &mut O) -> Ended
    ensures { EndsBy end (O.shows out.old) (O.shows out.new) result }
{
    match end {
        TalkEnd::Sent => Ended::Done,
        TalkEnd::Unsent => Ended::Jobs,
        TalkEnd::Output => Ended::Output,
        TalkEnd::Memory => print_as(Ended::Memory, b"memory\n", out),
    }
}
