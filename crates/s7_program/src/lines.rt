//! Lines about links, journals and files.
ghost use Rattle.std.specs.Prelude.{◌≡◌, IfOk, string_bytes};
ghost use Rattle.s7_program.specs.Lines.{file_line, journal_line, line_with, outcome_text};

use s7_session::Outcome;
use std::alloc::{AllocError, Global};

/// The line of a link with this number, this text of its outcome and this number of entries. Returns `AllocError` if an
/// allocation fails.
pub fn line_with(
    alloc: Global,
    link: u32,
    outcome: &str,
    entries: u64,
) -> Result<String, AllocError>
    ensures { IfOk result (λ line. string_bytes line ≡ line_with link outcome.now entries) }
{
    format!(in alloc; "link {link} {outcome} entries {entries}\n")
}

/// The text of an outcome. Returns `AllocError` if an allocation fails.
pub fn outcome_text(alloc: Global, outcome: Outcome) -> Result<String, AllocError>
    ensures { IfOk result (λ text. string_bytes text ≡ outcome_text outcome) }
{
    match outcome {
        Outcome::Ended => String::from_str(alloc, "ended"),
        Outcome::Torn(count) => format!(in alloc; "torn {count}"),
        Outcome::BadFrame { at } => format!(in alloc; "bad-frame {at}"),
        Outcome::FrameTooLong { at } => format!(in alloc; "frame-too-long {at}"),
        Outcome::BadTpdu { at } => format!(in alloc; "bad-tpdu {at}"),
        Outcome::Unexpected { at } => format!(in alloc; "unexpected {at}"),
        Outcome::TooManyFragments { at } => format!(in alloc; "too-many-fragments {at}"),
        Outcome::TooLong { at } => format!(in alloc; "too-long {at}"),
        Outcome::NotS7 { at } => format!(in alloc; "not-s7 {at}"),
        Outcome::ReadFault => String::from_str(alloc, "read-fault"),
        Outcome::WriteFault => String::from_str(alloc, "write-fault"),
        Outcome::Spent => String::from_str(alloc, "spent"),
        Outcome::Memory => String::from_str(alloc, "memory"),
    }
}

/// The line of the number of entries in the journal. Returns `AllocError` if an allocation fails.
pub fn journal_line(alloc: Global, entries: u64) -> Result<String, AllocError>
    ensures { IfOk result (λ line. string_bytes line ≡ journal_line entries) }
{
    format!(in alloc; "journal {entries}\n")
}

/// The line for a file whose read or write failed, with its path. Returns `AllocError` if an allocation fails.
pub fn file_line(alloc: Global, path: &str) -> Result<String, AllocError>
    ensures { IfOk result (λ text. string_bytes text ≡ file_line path.now) }
{
    format!(in alloc; "file failed {path}\n")
}
