//! The command `rig`.
ghost use Rattle.std.specs.Prelude.{◌≡◌, ◌≤◌, IfOk, codes, drop, length, map, option_and_then, option_map};
ghost use Rattle.clap.specs.Words.{app_of};
ghost use Rattle.s7_args.specs.Built.{app_by};
ghost use Rattle.s7_args.specs.CommandLine.{given_by};
ghost use Rattle.s7_args.specs.Tool.{client_count, lacks_watch, rig_line, rig_of};
ghost use Rattle.s7_args.specs.Shown.{tool_told_of};

use crate::RigWords;
use crate::command::{accepted, bare, number, operand, operands, text};
use crate::tool::ToolWords;
use crate::turns::read_turns;
use clap::Command;
use s7_outer::Memory;
use std::alloc::{AllocError, Global};

/// The greatest number of scripts.
const MOST_SCRIPTS: usize = 1024;

/// Parses the words of `rig`. `None` if they are usage; `Memory` if an allocation fails.
pub(crate) fn read_rig<'a>(
    alloc: Global,
    words: &'a [&'a str],
) -> Result<Option<ToolWords<'a>>, Memory>
    ensures { IfOk result (λ r. option_map tool_told_of r
        ≡ option_and_then rig_of (given_by rig_line (drop 1 (map (λ w. w.now) words.entry.now)))) }
{
    let Some(matches) = accepted(rig_command(alloc)?.try_get_matches_from(words))? else {
        return Ok(None);
    };
    let scripts = matches.get_raw("SCRIPT").unwrap_or(&[]);
    if MOST_SCRIPTS < scripts.len() {
        return Ok(None);
    }
    let watch = matches.get_str("watch");
    let rounds = matches.get_one::<u32>("rounds");
    if lacks_watch(watch, rounds) {
        return Ok(None);
    }
    let actors = 2 * client_count(scripts, watch);
    let Some(turns) = read_turns(alloc, matches.get_str("turns"), actors)? else {
        return Ok(None);
    };
    let rig = RigWords {
        areas: matches.get_str("AREAS").unwrap_or(""),
        scripts: scripts.to_vec(alloc)?,
        turns,
        seed: matches.get_one::<u32>("seed").unwrap_or(0),
        steps: matches.get_one::<u32>("steps").unwrap_or(0),
        pdu: matches.get_one::<u16>("pdu").unwrap_or(480),
        journal: matches.get_one::<u64>("journal").unwrap_or(65_536),
        jobs: matches.get_one::<u16>("jobs").unwrap_or(1),
        tags: matches.get_str("tags"),
        watch,
        rounds: rounds.unwrap_or(1),
    };
    Ok(Some(ToolWords::Rig(rig)))
}

/// Whether rounds were given, and no tags to be read in them.
fn lacks_watch(watch: Option<&str>, rounds: Option<u32>) -> bool
    ensures { result ≡ lacks_watch (option_map (λ w. w.now) watch.entry) rounds }
{
    rounds.is_some() && watch.is_none()
}

/// The number of clients: one for each script, and one more if tags are watched.
fn client_count(scripts: &[&str], watch: Option<&str>) -> u32
    requires { length scripts.now ≤ 1024 }
    ensures { result ≡ client_count (length scripts.now) watch.entry }
{
    let count = scripts.len() as u32;
    match watch {
        Some(_) => count + 1,
        None => count,
    }
}

/// The command `rig` for the parser.
fn rig_command<'a>(alloc: Global) -> Result<Command<'a>, AllocError>
    ensures { IfOk result (λ c. app_of c ≡ app_by (codes "rig") rig_line) }
{
    bare(alloc, "rig")
        .arg(operand(alloc, "AREAS"))?
        .arg(operands(alloc, "SCRIPT"))?
        .arg(text(alloc, "turns"))?
        .arg(number(alloc, "seed", 0, 4_294_967_295))?
        .arg(number(alloc, "steps", 0, 1_000_000))?
        .arg(number(alloc, "pdu", 64, 1_920))?
        .arg(number(alloc, "journal", 1, 262_144))?
        .arg(number(alloc, "jobs", 1, 8))?
        .arg(text(alloc, "tags"))?
        .arg(text(alloc, "watch"))?
        .arg(number(alloc, "rounds", 1, 10_000))
}
