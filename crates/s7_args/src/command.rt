//! Building the commands of a program, and the result of a parse.
ghost use Rattle.std.specs.Prelude.{◌≡◌, ◌≢◌, IfOk, IfSome, IfNone, IsErrAnd, Ok, false};
ghost use Rattle.clap.specs.Words.{app_of, kind_of, rule_of};
ghost use Rattle.s7_args.specs.Built.{operand_rule, option_rule, without_help};
ghost use Rattle.s7_args.specs.Fields.{numeral, operand, operands, optional, text, number};

use clap::builder::ValueParser;
use clap::error::ErrorKind;
use clap::{Arg, ArgAction, ArgMatches, Command, Error};
use s7_outer::Memory;
use std::alloc::Global;

/// A command without arguments and without a help flag.
pub(crate) fn bare<'a>(alloc: Global, name: &'a str) -> Command<'a>
    ensures { app_of result ≡ without_help name.entry.now }
{
    Command::new(alloc, name).disable_help_flag(true)
}

/// A required operand of any text.
pub(crate) fn operand<'a>(alloc: Global, name: &'a str) -> Arg<'a>
    ensures rule { rule_of result ≡ operand_rule (operand name.entry.now) }
    ensures local { result.global ≡ false }
{
    Arg::new(alloc, name).required(true)
}

/// An optional operand of any text.
pub(crate) fn optional<'a>(alloc: Global, name: &'a str) -> Arg<'a>
    ensures rule { rule_of result ≡ operand_rule (optional name.entry.now) }
    ensures local { result.global ≡ false }
{
    Arg::new(alloc, name)
}

/// Operands of any text, at least one of which is required.
pub(crate) fn operands<'a>(alloc: Global, name: &'a str) -> Arg<'a>
    ensures rule { rule_of result ≡ operand_rule (operands name.entry.now) }
    ensures local { result.global ≡ false }
{
    Arg::new(alloc, name)
        .required(true)
        .action(ArgAction::Append)
}

/// A required operand of a number from `low` to `high`.
pub(crate) fn numeral<'a>(alloc: Global, name: &'a str, low: u64, high: u64) -> Arg<'a>
    ensures rule { rule_of result ≡ operand_rule (numeral name.entry.now low high) }
    ensures local { result.global ≡ false }
{
    Arg::new(alloc, name)
        .required(true)
        .value_parser(number_parser(low, high))
}

/// An option of a number from `low` to `high`.
pub(crate) fn number<'a>(alloc: Global, name: &'a str, low: u64, high: u64) -> Arg<'a>
    ensures rule { rule_of result ≡ option_rule (number name.entry.now low high) }
    ensures local { result.global ≡ false }
{
    Arg::new(alloc, name)
        .long(name)
        .value_parser(number_parser(low, high))
}

/// The parser of a number from `low` to `high`.
fn number_parser<'a>(low: u64, high: u64) -> ValueParser<'a>
    ensures { result ≡ ValueParser.Unsigned low high }
{
    // the parsers of the signed and the small types would accept `-0`
    ValueParser::Unsigned(low, high)
}

/// An option of any text.
pub(crate) fn text<'a>(alloc: Global, name: &'a str) -> Arg<'a>
    ensures rule { rule_of result ≡ option_rule (text name.entry.now) }
    ensures local { result.global ≡ false }
{
    Arg::new(alloc, name).long(name)
}

/// The matches, or `None` if the words are usage. Every error is usage, except that memory ran out, which returns
/// `Memory`.
pub(crate) fn accepted<'a>(
    parsed: Result<ArgMatches<'a>, Error>,
) -> Result<Option<ArgMatches<'a>>, Memory>
    ensures some { IfOk result (λ r. IfSome r (λ m. parsed.entry ≡ Ok m)) }
    ensures none { IfOk result (λ r. IfNone r (IsErrAnd parsed.entry (λ e.
        kind_of e ≢ ErrorKind.OutOfMemory))) }
{
    match parsed {
        Ok(matches) => Ok(Some(matches)),
        Err(error) => {
            if error.kind() == ErrorKind::OutOfMemory {
                Err(Memory)
            } else {
                Ok(None)
            }
        }
    }
}
