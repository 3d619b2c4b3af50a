//! The machine's files.
ghost use Rattle.std.specs.Prelude.{◌≡◌, ◌+◌, ◌≤◌, [], IsErrOf, OnOk, vec_len};
ghost use Rattle.s7_outer.specs.Files.{file_limit};

use s7_outer::{FILE_LIMIT, FileFault, Files, raise};
use std::alloc::Global;
use std::fs;
use std::io::{ErrorKind, Read};
use std::rt::Files as SystemFiles;

/// The machine's files. Contracts see their fault count, but not their octets.
#[derive(Drop)]
pub struct StdFiles<R> {
    rt: R,
    faults: u64,
}

impl<R: SystemFiles + Drop> StdFiles<R> {
    ghost use Rattle.s7_os.specs.StdFiles.{machine_files_of, unused_files};

    /// The files that this runtime can reach.
    pub fn new(rt: R) -> StdFiles<R>
        ensures { machine_files_of result ≡ unused_files }
    {
        StdFiles { rt, faults: 0 }
    }
}

impl<R: SystemFiles + Drop> Files for StdFiles<R> {
    ghost use Rattle.s7_os.specs.StdFiles.{machine_files_of};

    ghost shows = { machine_files_of };

    fn read(&mut self, alloc: Global, path: &str, into: &mut Vec<u8>) -> Result<(), FileFault> {
        let answer = match fs::open(&self.rt, path) {
            Ok(mut file) => read_whole(&mut file, into),
            Err(_) => Err(FileFault::Failed),
        };
        if answer == Err(FileFault::Failed) {
            raise(&mut self.faults);
            into.clear();
        }
        answer
    }

    fn write(&mut self, alloc: Global, path: &str, octets: &[u8]) -> Result<(), FileFault> {
        match fs::write(&self.rt, path, octets) {
            Ok(()) => Ok(()),
            Err(_) => {
                raise(&mut self.faults);
                Err(FileFault::Failed)
            }
        }
    }
}

/// Reads to the end of the file, or to the first octet beyond the limit of 67,108,864.
fn read_whole<R: Read>(file: &mut R, into: &mut Vec<u8>) -> Result<(), FileFault>
    requires { into.old.items ≡ [] }
    ensures ok { OnOk result (vec_len into.new ≤ file_limit) }
    ensures too_long { IsErrOf result FileFault.TooLong → vec_len into.new ≡ file_limit + 1 }
    ensures after_memory { IsErrOf result FileFault.Memory → into.new.items ≡ [] }
{
    let mut piece = [0u8; 4096];
    for _ in 0..u64::MAX {
        let count = match file.read(&mut piece) {
            Ok(count) => count,
            Err(error) if error.kind() == ErrorKind::Interrupted => continue,
            Err(_) => return Err(FileFault::Failed),
        };
        if count == 0 {
            return Ok(());
        }
        let taken = count.min(FILE_LIMIT + 1 - into.len());
        if into.extend_from_slice(&piece[..taken]).is_err() {
            into.clear();
            return Err(FileFault::Memory);
        }
        if into.len() > FILE_LIMIT {
            return Err(FileFault::TooLong);
        }
    }
    Err(FileFault::Failed)
}
