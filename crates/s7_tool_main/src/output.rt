//! Printing texts and the lines for failures.
ghost use Rattle.std.specs.Prelude.{◌≡◌};
ghost use Rattle.s7_tool_main.specs.Loading.{faulty_line, refusal_line};
ghost use Rattle.s7_tool_main.specs.Report.{PrintsText, TellsFault};
ghost use Rattle.s7_tool_main.specs.Rigging.{areas_refusal_line};

use crate::ended::Ended;
use crate::load::TextKind;
use crate::scripts::report::faulty_line;
use s7_outer::Out;
use s7_program::{file_line, print_as};
use s7_script::LoadFault;
use std::alloc::Global;

/// Prints the text of what was done. Returns how that ended, given whether all went well.
pub(crate) fn print_text<O: Out>(text: &[u8], is_good: bool, out: &mut O) -> Ended
    ensures { PrintsText text.now is_good (O.shows out.old) (O.shows out.new) result }
{
    match out.put(text) {
        Ok(()) if is_good => Ended::Done,
        Ok(()) => Ended::Jobs,
        Err(_) => Ended::Output,
    }
}

/// Prints why a text of this kind wasn't loaded, and returns how the command ends.
pub(crate) fn print_refusal<O: Out>(
    alloc: Global,
    kind: TextKind,
    fault: LoadFault,
    path: &str,
    out: &mut O,
) -> Ended
    ensures { TellsFault (refusal_line (faulty_line kind) fault) (fault ≡ LoadFault.Failed) path.now
        (O.shows out.old) (O.shows out.new) result }
{
    match fault {
        LoadFault::Failed => print_failed(alloc, path, out),
        LoadFault::TooLong => print_as(Ended::Refused, b"file too long\n", out),
        LoadFault::Line(number) => match faulty_line(alloc, kind, number) {
            Ok(text) => print_as(Ended::Refused, text.as_bytes(), out),
            Err(_) => print_as(Ended::Memory, b"memory\n", out),
        },
        LoadFault::Memory => print_as(Ended::Memory, b"memory\n", out),
    }
}

/// Prints why the areas weren't loaded, and returns how the command ends.
pub(crate) fn print_areas_refusal<O: Out>(
    alloc: Global,
    fault: LoadFault,
    path: &str,
    out: &mut O,
) -> Ended
    ensures { TellsFault (areas_refusal_line fault) (fault ≡ LoadFault.Failed) path.now
        (O.shows out.old) (O.shows out.new) result }
{
    print_refusal(alloc, TextKind::Areas, fault, path, out)
}

/// Prints that a file failed, and returns how the command ends.
fn print_failed<O: Out>(alloc: Global, path: &str, out: &mut O) -> Ended
    ensures { TellsFault None (Unit {0}) path.now (O.shows out.old) (O.shows out.new) result }
{
    match file_line(alloc, path) {
        Ok(text) => print_as(Ended::File, text.as_bytes(), out),
        Err(_) => print_as(Ended::Memory, b"memory\n", out),
    }
}
