//! The end of a run: saving and printing.
ghost use Rattle.std.specs.Prelude.{◌≡◌, ◌≢◌, Err, IsErrOf, OnOk, Some};
ghost use Rattle.s7_outer.specs.Count.{Rose};
ghost use Rattle.s7_server_main.specs.Asked.{asked_told};
ghost use Rattle.s7_server_main.specs.End.{Ends};
ghost use Rattle.s7_server_main.specs.Saving.{ChangesOnly, HoldsAreas};

use crate::asked::Asked;
use crate::output::{print_failed, print_report};
use crate::run::{Ended, Run};
use s7_area::Areas;
use s7_outer::{FileFault, Files, Link, Out};
use s7_plant::Observer;
use s7_program::print_as;
use s7_script::write_areas;
use std::alloc::Global;

/// Saves the areas that are left if that is asked for, prints the report, with the areas after the first `at` entries
/// if these are asked for, and returns how that ended.
pub(crate) fn close<F: Files, L: Link + Drop, U: Out, O: Observer>(
    alloc: Global,
    asked: Asked<'_>,
    run: &Run<L, O>,
    files: &mut F,
    out: &mut U,
) -> Ended
    ensures unfailed { result ≢ Ended.File → result ≢ Ended.Memory
        → (F.shows files.new).faults ≡ (F.shows files.old).faults }
    ensures changed { ChangesOnly (asked_told asked.entry).save (F.shows files.old) (F.shows files.new) }
    ensures ended { Ends L.shows (asked_told asked.entry) ⊥ (Some run.now)
        (F.shows files.old) (F.shows files.new) (U.shows out.old) (U.shows out.new) result }
{
    let Some(path) = asked.save else {
        return print_report(alloc, run, asked.at, out);
    };
    match save_areas(alloc, &run.book.plant.areas, path, files) {
        Ok(()) => print_report(alloc, run, asked.at, out),
        Err(FileFault::Failed) => print_failed(alloc, path, out),
        Err(_) => print_as(Ended::Memory, b"memory\n", out),
    }
}

/// Writes the area file of these areas to a path.
fn save_areas<F: Files>(
    alloc: Global,
    areas: &Areas,
    path: &str,
    files: &mut F,
) -> Result<(), FileFault>
    ensures saved { OnOk result (HoldsAreas (Some path.now) (F.shows files.old) (F.shows files.new) areas.now) }
    ensures failed { IsErrOf result FileFault.Failed
        → Rose ((F.shows files.old).faults path.now) ((F.shows files.new).faults path.now) }
    ensures unfailed { result ≢ Err FileFault.Failed → (F.shows files.new).faults ≡ (F.shows files.old).faults }
    ensures changed { ChangesOnly (Some path.now) (F.shows files.old) (F.shows files.new) }
{
    let Ok(text) = write_areas(alloc, areas) else {
        return Err(FileFault::Memory);
    };
    files.write(alloc, path, text.as_slice())
}
