//! The commands of the server.
ghost use Rattle.std.specs.Prelude.{◌≡◌, IfOk, IfSome, codes, drop, map, option_map};
ghost use Rattle.clap.specs.Words.{app_of};
ghost use Rattle.s7_args.specs.Built.{app_by};
ghost use Rattle.s7_args.specs.CommandLine.{given_by};
ghost use Rattle.s7_args.specs.Server.{pipe_line, pipe_of, serve_line, serve_of, server_words};
ghost use Rattle.s7_args.specs.Shown.{server_told_of, HasLinks, HasPort, HasRoom};

use crate::command::{accepted, bare, number, operand, text};
use clap::Command;
use s7_outer::Memory;
use std::alloc::{AllocError, Global};

/// A command of the server with its operands and options.
#[derive(Clone, Copy, Debug, PartialEq, Eq)]
pub enum ServerWords<'a> {
    /// `pipe AREAS [--save PATH] [--journal N]`: serves one link, on standard input and output. `areas` is the path of
    /// the area file to read, and `save` the path to which the areas are saved, if it is given. Both are any text.
    /// `journal` is the greatest number of entries in the journal, 1 to 262,144; the default is 65,536.
    Pipe {
        areas: &'a str,
        save: Option<&'a str>,
        journal: u64,
    },
    /// `serve AREAS [--port N] [--links N] [--journal N] [--save PATH] [--at N]`: serves links over TCP. `port` is the
    /// TCP port, 1 to 65,535; the default is 102. `links` is the number of links that it accepts in all, 1 to 1,024;
    /// the default is 16. `at`, if it is given, is a number of entries, 0 to 262,144, after which the areas are printed
    /// in the end, too. `areas`, `save` and `journal` are as for `Pipe`.
    Serve {
        areas: &'a str,
        port: u16,
        links: u16,
        save: Option<&'a str>,
        journal: u64,
        at: Option<u64>,
    },
}

/// The command that the words name, or `None` if they are usage: if there are no words, if the first one names no
/// command, or if the others aren't what the command takes.
///
/// The first word is the name of the command. An option is `--name VALUE` or `--name=VALUE`, at most once each, before,
/// between or after the operands; after `--` every word is an operand. Before `--`, a word of two or more characters
/// that begins with `-` is neither an operand nor the VALUE of an option before it. `--name=` has the empty VALUE. A
/// number is one or more decimal digits; leading zeros are allowed, and so is a `+` before them. A number out of its
/// range is usage. There is no help flag and no version flag.
///
/// Returns `Memory` if an allocation for the parse fails.
pub fn read_server_words<'a>(
    alloc: Global,
    words: &'a [&'a str],
) -> Result<Option<ServerWords<'a>>, Memory>
    ensures told { IfOk result (λ r. option_map server_told_of r ≡ server_words (map (λ w. w.now) words.entry.now)) }
    ensures journal { IfOk result (λ r. IfSome r HasRoom) }
    ensures port { IfOk result (λ r. IfSome r HasPort) }
    ensures links { IfOk result (λ r. IfSome r HasLinks) }
{
    let Some(name) = words.first() else {
        return Ok(None);
    };
    match *name {
        "pipe" => read_pipe(alloc, words),
        "serve" => read_serve(alloc, words),
        _ => Ok(None),
    }
}

/// Parses the words of `pipe`. `None` if they are usage; `Memory` if an allocation fails.
fn read_pipe<'a>(alloc: Global, words: &'a [&'a str]) -> Result<Option<ServerWords<'a>>, Memory>
    ensures told { IfOk result (λ r. option_map server_told_of r
        ≡ option_map pipe_of (given_by pipe_line (drop 1 (map (λ w. w.now) words.entry.now)))) }
    ensures journal { IfOk result (λ r. IfSome r HasRoom) }
{
    let Some(matches) = accepted(pipe_command(alloc)?.try_get_matches_from(words))? else {
        return Ok(None);
    };
    Ok(Some(ServerWords::Pipe {
        areas: matches.get_str("AREAS").unwrap_or(""),
        save: matches.get_str("save"),
        journal: matches.get_one::<u64>("journal").unwrap_or(65_536),
    }))
}

/// The command `pipe` for the parser.
fn pipe_command<'a>(alloc: Global) -> Result<Command<'a>, AllocError>
    ensures { IfOk result (λ c. app_of c ≡ app_by (codes "pipe") pipe_line) }
{
    bare(alloc, "pipe")
        .arg(operand(alloc, "AREAS"))?
        .arg(text(alloc, "save"))?
        .arg(number(alloc, "journal", 1, 262_144))
}

/// Parses the words of `serve`. `None` if they are usage; `Memory` if an allocation fails.
fn read_serve<'a>(alloc: Global, words: &'a [&'a str]) -> Result<Option<ServerWords<'a>>, Memory>
    ensures told { IfOk result (λ r. option_map server_told_of r
        ≡ option_map serve_of (given_by serve_line (drop 1 (map (λ w. w.now) words.entry.now)))) }
    ensures journal { IfOk result (λ r. IfSome r HasRoom) }
    ensures port { IfOk result (λ r. IfSome r HasPort) }
    ensures links { IfOk result (λ r. IfSome r HasLinks) }
{
    let Some(matches) = accepted(serve_command(alloc)?.try_get_matches_from(words))? else {
        return Ok(None);
    };
    let areas = matches.get_str("AREAS").unwrap_or("");
    let port = matches.get_one::<u16>("port").unwrap_or(102);
    let links = matches.get_one::<u16>("links").unwrap_or(16);
    let save = matches.get_str("save");
    let journal = matches.get_one::<u64>("journal").unwrap_or(65_536);
    Ok(Some(ServerWords::Serve {
        areas,
        port,
        links,
        save,
        journal,
        at: matches.get_one::<u64>("at"),
    }))
}

/// The command `serve` for the parser.
fn serve_command<'a>(alloc: Global) -> Result<Command<'a>, AllocError>
    ensures { IfOk result (λ c. app_of c ≡ app_by (codes "serve") serve_line) }
{
    bare(alloc, "serve")
        .arg(operand(alloc, "AREAS"))?
        .arg(number(alloc, "port", 1, 65_535))?
        .arg(number(alloc, "links", 1, 1024))?
        .arg(number(alloc, "journal", 1, 262_144))?
        .arg(text(alloc, "save"))?
        .arg(number(alloc, "at", 0, 262_144))
}
