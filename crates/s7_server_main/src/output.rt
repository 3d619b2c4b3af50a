//! Printing the report and the lines for failures.
ghost use Rattle.s7_server_main.specs.Report.{Reports, TellsFault, report_text};
ghost use Rattle.s7_server_main.specs.Told.{run_told};

use crate::report::{areas_line, report};
use crate::run::{Ended, Run};
use s7_outer::{Link, Out};
use s7_plant::Observer;
use s7_program::{file_line, print_as};
use s7_script::LoadFault;
use std::alloc::Global;

/// Prints the report, with the areas after the first `at` entries if these are asked for, and returns how that ended.
pub(crate) fn print_report<L: Link + Drop, U: Out, O: Observer>(
    alloc: Global,
    run: &Run<L, O>,
    at: Option<u64>,
    out: &mut U,
) -> Ended
    ensures { Reports (report_text (run_told L.shows run.now) at) (U.shows out.old) (U.shows out.new) result }
{
    let Ok(text) = report(alloc, run, at) else {
        return print_as(Ended::Memory, b"memory\n", out);
    };
    match out.put(text.as_slice()) {
        Ok(()) => Ended::Done,
        Err(_) => Ended::Output,
    }
}

/// Prints why the areas weren't loaded, and returns how the command ends.
pub(crate) fn print_refusal<O: Out>(
    alloc: Global,
    fault: LoadFault,
    path: &str,
    out: &mut O,
) -> Ended
    ensures { TellsFault fault path.now (O.shows out.old) (O.shows out.new) result }
{
    match fault {
        LoadFault::Failed => print_failed(alloc, path, out),
        LoadFault::TooLong => print_as(Ended::Areas, b"areas too long\n", out),
        LoadFault::Line(number) => match areas_line(alloc, number) {
            Ok(text) => print_as(Ended::Areas, text.as_bytes(), out),
            Err(_) => print_as(Ended::Memory, b"memory\n", out),
        },
        LoadFault::Memory => print_as(Ended::Memory, b"memory\n", out),
    }
}

/// Prints that a file failed, and returns how the command ends.
pub(crate) fn print_failed<O: Out>(alloc: Global, path: &str, out: &mut O) -> Ended
    ensures { TellsFault LoadFault.Failed path.now (O.shows out.old) (O.shows out.new) result }
{
    match file_line(alloc, path) {
        Ok(text) => print_as(Ended::File, text.as_bytes(), out),
        Err(_) => print_as(Ended::Memory, b"memory\n", out),
    }
}
