//! The command `partner`.
ghost use Rattle.std.specs.Prelude.{◌≡◌, IfOk, codes, drop, map, option_map};
ghost use Rattle.clap.specs.Words.{app_of};
ghost use Rattle.s7_args.specs.Built.{app_by};
ghost use Rattle.s7_args.specs.CommandLine.{given_by};
ghost use Rattle.s7_args.specs.Tool.{partner_line, partner_of};
ghost use Rattle.s7_args.specs.Shown.{tool_told_of};

use crate::PartnerWords;
use crate::command::{accepted, bare, number, operand, optional, text};
use crate::tool::ToolWords;
use clap::Command;
use s7_outer::Memory;
use std::alloc::{AllocError, Global};

/// Parses the words of `partner`. `None` if they are usage; `Memory` if an allocation fails.
pub(crate) fn read_partner<'a>(
    alloc: Global,
    words: &'a [&'a str],
) -> Result<Option<ToolWords<'a>>, Memory>
    ensures { IfOk result (λ r. option_map tool_told_of r
        ≡ option_map partner_of (given_by partner_line (drop 1 (map (λ w. w.now) words.entry.now)))) }
{
    let Some(matches) = accepted(partner_command(alloc)?.try_get_matches_from(words))? else {
        return Ok(None);
    };
    let partner = PartnerWords {
        one: matches.get_str("A").unwrap_or(""),
        other: matches.get_str("B"),
        host: matches.get_str("host").unwrap_or("127.0.0.1"),
        port: matches.get_one::<u16>("port").unwrap_or(102),
        seed: matches.get_one::<u32>("seed").unwrap_or(0),
        steps: matches.get_one::<u32>("steps").unwrap_or(0),
    };
    Ok(Some(ToolWords::Partner(partner)))
}

/// The command `partner` for the parser.
fn partner_command<'a>(alloc: Global) -> Result<Command<'a>, AllocError>
    ensures { IfOk result (λ c. app_of c ≡ app_by (codes "partner") partner_line) }
{
    bare(alloc, "partner")
        .arg(operand(alloc, "A"))?
        .arg(optional(alloc, "B"))?
        .arg(text(alloc, "host"))?
        .arg(number(alloc, "port", 1, 65_535))?
        .arg(number(alloc, "seed", 0, 4_294_967_295))?
        .arg(number(alloc, "steps", 0, 1_000_000))
}
