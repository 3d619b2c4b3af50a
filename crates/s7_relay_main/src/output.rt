//! Printing the report and the lines for failures.
ghost use Rattle.std.specs.Prelude.{◌≡◌, IfOk, Some, string_bytes};
ghost use Rattle.s7_relay_main.specs.Report.{Reports, TellsFault, refusal_line, report_text};

use crate::ended::Ended;
use s7_outer::Out;
use s7_program::{file_line, journal_line, line_with, outcome_text, print_as};
use s7_script::LoadFault;
use s7_session::Outcome;
use std::alloc::{AllocError, Global};

/// The number of the one link.
pub(crate) const LINK: u32 = 1;

/// Prints the report of a link with this outcome, of which this number of telegrams is kept. If memory ran out, prints
/// the line for that instead. Returns how that ended.
pub(crate) fn print_report<O: Out>(
    alloc: Global,
    outcome: Outcome,
    entries: u64,
    out: &mut O,
) -> Ended
    ensures { Reports (report_text outcome entries) (O.shows out.old) (O.shows out.new) result }
{
    let Ok(text) = report(alloc, outcome, entries) else {
        return print_as(Ended::Memory, b"memory\n", out);
    };
    match out.put(text.as_bytes()) {
        Ok(()) => Ended::Done,
        Err(_) => Ended::Output,
    }
}

/// The report: the line of the link and that of the journal.
fn report(alloc: Global, outcome: Outcome, entries: u64) -> Result<String, AllocError>
    ensures { IfOk result (λ text. string_bytes text ≡ report_text outcome entries) }
{
    let outcome = outcome_text(alloc, outcome)?;
    let mut text = line_with(alloc, LINK, outcome.as_str(), entries)?;
    let journal = journal_line(alloc, entries)?;
    text.push_str(journal.as_str())?;
    Ok(text)
}

/// Prints why the windows weren't loaded, and returns how the program ends.
pub(crate) fn print_refusal<O: Out>(
    alloc: Global,
    fault: LoadFault,
    path: &str,
    out: &mut O,
) -> Ended
    ensures { TellsFault fault path.now (O.shows out.old) (O.shows out.new) result }
{
    match fault {
        LoadFault::Failed => match file_line(alloc, path) {
            Ok(text) => print_as(Ended::File, text.as_bytes(), out),
            Err(_) => print_as(Ended::Memory, b"memory\n", out),
        },
        LoadFault::TooLong => print_as(Ended::Windows, b"windows too long\n", out),
        LoadFault::Line(number) => match windows_line(alloc, number) {
            Ok(text) => print_as(Ended::Windows, text.as_bytes(), out),
            Err(_) => print_as(Ended::Memory, b"memory\n", out),
        },
        LoadFault::Memory => print_as(Ended::Memory, b"memory\n", out),
    }
}

/// The line for a windows file whose line of this number is faulty.
fn windows_line(alloc: Global, number: u32) -> Result<String, AllocError>
    ensures { IfOk result (λ text. refusal_line (LoadFault.Line number) ≡ Some (string_bytes text)) }
{
    format!(in alloc; "windows line {number}\n")
}
