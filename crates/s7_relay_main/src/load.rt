//! Loading windows files.
ghost use Rattle.std.specs.Prelude.{◌≡◌, IfErr, IfOk, OnOk};
ghost use Rattle.s7_script.specs.Loading.{FailedOnce};
ghost use Rattle.s7_relay_main.specs.Loading.{AnswersWindows, IsUnloaded, ReadsWindows};

use s7_outer::{FileFault, Files};
use s7_relay::{WindowKind, Windows, read_windows};
use s7_script::LoadFault;
use std::alloc::Global;

/// The windows of the file under this path. No file is changed.
pub(crate) fn load_windows<F: Files>(
    alloc: Global,
    files: &mut F,
    path: &str,
) -> Result<Windows, LoadFault>
    ensures ok { IfOk result (λ windows. ReadsWindows path.now (F.shows files.old) windows) }
    ensures err { IfErr result (λ why. IsUnloaded path.now (F.shows files.old) (F.shows files.new) why) }
    ensures unchanged { OnOk result (F.shows files.new ≡ F.shows files.old) }
    ensures paths { F.shows files.new ≡ record (F.shows files.old) { faults = (F.shows files.new).faults } }
    ensures counts { FailedOnce (F.shows files.old).faults (F.shows files.new).faults }
{
    let mut octets = Vec::new(alloc);
    match files.read(alloc, path, &mut octets) {
        Ok(()) => windows_of(alloc, octets.as_slice()),
        Err(FileFault::Failed) => Err(LoadFault::Failed),
        Err(FileFault::TooLong) => Err(LoadFault::TooLong),
        Err(FileFault::Memory) => Err(LoadFault::Memory),
    }
}

/// The windows of a text, or the number of its first faulty line.
fn windows_of(alloc: Global, text: &[u8]) -> Result<Windows, LoadFault>
    ensures { AnswersWindows text.now result }
{
    match read_windows(alloc, text) {
        Ok(windows) => Ok(windows),
        Err(fault) if fault.kind == WindowKind::Memory => Err(LoadFault::Memory),
        Err(fault) => Err(LoadFault::Line(fault.line)),
    }
}
