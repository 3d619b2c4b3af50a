//! The command line of the relay.
ghost use Rattle.std.specs.Prelude.{◌≡◌, IfOk, codes, drop, map, option_map};
ghost use Rattle.clap.specs.Words.{app_of};
ghost use Rattle.s7_args.specs.Built.{app_by};
ghost use Rattle.s7_args.specs.Relay.{relay_line, relay_words};
ghost use Rattle.s7_args.specs.RelayShown.{relay_told_of};

use crate::RelayWords;
use crate::command::{accepted, bare, number, operand, text};
use clap::Command;
use s7_outer::Memory;
use std::alloc::{AllocError, Global};

/// What the words of the relay say, `WINDOWS [--host HOST] [--port N] [--polls N] [--journal N]`; `None` if they are
/// usage. `RelayWords` states the ranges and defaults.
///
/// The first word is the name of the program, which is skipped. The other words are parsed as `read_server_words`
/// states. A number is one or more decimal digits; leading zeros are allowed, and so is a `+` before them. A number out
/// of its range is usage.
///
/// Returns `Memory` if an allocation for the parse fails.
pub fn read_relay_words<'a>(
    alloc: Global,
    words: &'a [&'a str],
) -> Result<Option<RelayWords<'a>>, Memory>
    ensures { IfOk result (λ r. option_map relay_told_of r
        ≡ relay_words (drop 1 (map (λ w. w.now) words.entry.now))) }
{
    let Some(matches) = accepted(relay_command(alloc)?.try_get_matches_from(words))? else {
        return Ok(None);
    };
    let relay = RelayWords {
        windows: matches.get_str("WINDOWS").unwrap_or(""),
        host: matches.get_str("host").unwrap_or("127.0.0.1"),
        port: matches.get_one::<u16>("port").unwrap_or(102),
        polls: matches.get_one::<u32>("polls").unwrap_or(50),
        journal: matches.get_one::<u64>("journal").unwrap_or(65_536),
    };
    Ok(Some(relay))
}

/// The command line of the relay for the parser.
fn relay_command<'a>(alloc: Global) -> Result<Command<'a>, AllocError>
    ensures { IfOk result (λ c. app_of c ≡ app_by (codes "s7relay") relay_line) }
{
    bare(alloc, "s7relay")
        .arg(operand(alloc, "WINDOWS"))?
        .arg(text(alloc, "host"))?
        .arg(number(alloc, "port", 1, 65_535))?
        .arg(number(alloc, "polls", 1, 4_294_967_295))?
        .arg(number(alloc, "journal", 1, 262_144))
}
