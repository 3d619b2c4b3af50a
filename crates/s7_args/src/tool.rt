//! The commands of the tool.
ghost use Rattle.std.specs.Prelude.{◌≡◌, IfOk, codes, drop, map, option_map};
ghost use Rattle.clap.specs.Words.{app_of};
ghost use Rattle.s7_args.specs.Built.{app_by};
ghost use Rattle.s7_args.specs.CommandLine.{given_by};
ghost use Rattle.s7_args.specs.Tool.{gen_line, gen_of, run_line, run_of, tool_words};
ghost use Rattle.s7_args.specs.Shown.{tool_told_of};

use crate::command::{accepted, bare, number, numeral, operand, text};
use crate::partner::read_partner;
use crate::rig::read_rig;
use crate::{PartnerWords, RigWords, RunWords};
use clap::Command;
use s7_outer::Memory;
use std::alloc::{AllocError, Global};

/// A command of the tool with its operands and options.
#[derive(Debug, PartialEq, Eq, Drop)]
pub enum ToolWords<'a> {
    /// `run SCRIPT [--host HOST] [--port N] [--type N] [--rack N] [--slot N] [--pdu N] [--polls N] [--jobs N] [--tags
    /// PATH]`: runs a script against a controller. `RunWords` states the ranges and defaults.
    Run(RunWords<'a>),
    /// `rig AREAS SCRIPT... [--turns LIST] [--seed N] [--steps N] [--pdu N] [--journal N] [--jobs N] [--tags PATH]
    /// [--watch PATH [--rounds N]]`: runs scripts together, on one set of areas, and watches tags. LIST is one or more
    /// numbers, joined by `,`. `RigWords` states the ranges and defaults.
    Rig(RigWords<'a>),
    /// `gen N`: makes areas and scripts from the seed N, 0 to 4,294,967,295, and runs the scripts together.
    Gen(u32),
    /// `partner A [B] [--host HOST] [--port N] [--seed N] [--steps N]`: runs two partners in memory, or, without B, one
    /// partner over a link. `PartnerWords` states the ranges and defaults.
    Partner(PartnerWords<'a>),
}

/// The command that the words name, or `None` if they are usage: if there are no words, if the first one names no
/// command, or if the others aren't what the command takes.
///
/// The words are parsed as `read_server_words` states. A number is one or more decimal digits; leading zeros are
/// allowed, and so is a `+` before them. A number out of its range is usage.
///
/// Returns `Memory` if an allocation for the parse fails.
pub fn read_tool_words<'a>(
    alloc: Global,
    words: &'a [&'a str],
) -> Result<Option<ToolWords<'a>>, Memory>
    ensures told { IfOk result (λ r. option_map tool_told_of r ≡ tool_words (map (λ w. w.now) words.entry.now)) }
{
    let Some(name) = words.first() else {
        return Ok(None);
    };
    match *name {
        "run" => read_run(alloc, words),
        "rig" => read_rig(alloc, words),
        "gen" => read_gen(alloc, words),
        "partner" => read_partner(alloc, words),
        _ => Ok(None),
    }
}

/// Parses the words of `run`. `None` if they are usage; `Memory` if an allocation fails.
fn read_run<'a>(alloc: Global, words: &'a [&'a str]) -> Result<Option<ToolWords<'a>>, Memory>
    ensures { IfOk result (λ r. option_map tool_told_of r
        ≡ option_map run_of (given_by run_line (drop 1 (map (λ w. w.now) words.entry.now)))) }
{
    let Some(matches) = accepted(run_command(alloc)?.try_get_matches_from(words))? else {
        return Ok(None);
    };
    let run = RunWords {
        script: matches.get_str("SCRIPT").unwrap_or(""),
        host: matches.get_str("host").unwrap_or("127.0.0.1"),
        port: matches.get_one::<u16>("port").unwrap_or(102),
        kind: matches.get_one::<u8>("type").unwrap_or(1),
        rack: matches.get_one::<u8>("rack").unwrap_or(0),
        slot: matches.get_one::<u8>("slot").unwrap_or(2),
        pdu: matches.get_one::<u16>("pdu").unwrap_or(480),
        polls: matches.get_one::<u32>("polls").unwrap_or(50),
        jobs: matches.get_one::<u16>("jobs").unwrap_or(1),
        tags: matches.get_str("tags"),
    };
    Ok(Some(ToolWords::Run(run)))
}

/// The command `run` for the parser.
fn run_command<'a>(alloc: Global) -> Result<Command<'a>, AllocError>
    ensures { IfOk result (λ c. app_of c ≡ app_by (codes "run") run_line) }
{
    bare(alloc, "run")
        .arg(operand(alloc, "SCRIPT"))?
        .arg(text(alloc, "host"))?
        .arg(number(alloc, "port", 1, 65_535))?
        .arg(number(alloc, "type", 1, 3))?
        .arg(number(alloc, "rack", 0, 7))?
        .arg(number(alloc, "slot", 0, 31))?
        .arg(number(alloc, "pdu", 64, 1_920))?
        .arg(number(alloc, "polls", 1, 4_294_967_295))?
        .arg(number(alloc, "jobs", 1, 8))?
        .arg(text(alloc, "tags"))
}

/// Parses the words of `gen`. `None` if they are usage; `Memory` if an allocation fails.
fn read_gen<'a>(alloc: Global, words: &'a [&'a str]) -> Result<Option<ToolWords<'a>>, Memory>
    ensures { IfOk result (λ r. option_map tool_told_of r
        ≡ option_map gen_of (given_by gen_line (drop 1 (map (λ w. w.now) words.entry.now)))) }
{
    let Some(matches) = accepted(gen_command(alloc)?.try_get_matches_from(words))? else {
        return Ok(None);
    };
    let seed = matches.get_one::<u32>("N").unwrap_or(0);
    Ok(Some(ToolWords::Gen(seed)))
}

/// The command `gen` for the parser.
fn gen_command<'a>(alloc: Global) -> Result<Command<'a>, AllocError>
    ensures { IfOk result (λ c. app_of c ≡ app_by (codes "gen") gen_line) }
{
    bare(alloc, "gen").arg(numeral(alloc, "N", 0, 4_294_967_295))
}
