//! Files in memory.
ghost use Rattle.std.specs.Prelude.{◌≡◌, ◌≢◌, ◌+◌, ◌≤◌, ◌↔◌, ◌⊎◌, [], Some, None};
ghost use Rattle.std.specs.Prelude.{IsTrue, IsErrOf, OnOk, OnErr, option_map, vec_len};
ghost use Rattle.s7_outer.specs.Count.{raised};
ghost use Rattle.s7_outer.specs.Files.{file_limit, IsCutFrom, KeepsOtherPaths};
ghost use Rattle.s7_memory.specs.MemoryFiles.{entries_of, file_octets};

use s7_outer::{FILE_LIMIT, FileFault, Files, Memory, Octets, raise};
use std::alloc::Global;
use std::collections::BTreeMap;

/// Files in memory. Reads and writes are counted together, and the call with a chosen number fails.
#[derive(Drop)]
pub struct MemoryFiles {
    /// The files; `None` before the first one, since a map can't be made without an allocator.
    files: Option<BTreeMap<String, Octets>>,
    /// The number of reads and writes so far.
    calls: u64,
    /// The number of the call that fails.
    fail_at: Option<u64>,
    faults: u64,
}

impl MemoryFiles {
    ghost use Rattle.s7_memory.specs.MemoryFiles.{files_of, no_files, failing_call, calls_of};

    /// A store without files.
    pub fn new() -> MemoryFiles
        ensures shown { files_of result ≡ no_files }
        ensures calls { calls_of result ≡ 0 }
        ensures failing { failing_call result ≡ None }
    {
        MemoryFiles {
            files: None,
            calls: 0,
            fail_at: None,
            faults: 0,
        }
    }

    /// Puts a file under the path, in place of an earlier one. The call isn't counted. Returns `Memory` if an
    /// allocation fails; every path then holds what it held before.
    pub fn insert(&mut self, alloc: Global, path: &str, octets: Octets) -> Result<(), Memory>
        ensures ok { OnOk result ((files_of self.new).held path.now ≡ Some octets) }
        ensures err { OnErr result ((files_of self.new).held ≡ (files_of self.old).held) }
        ensures others { KeepsOtherPaths path.now (files_of self.old).held (files_of self.new).held }
        ensures faults { (files_of self.new).faults ≡ (files_of self.old).faults }
        ensures calls { calls_of self.new ≡ calls_of self.old }
        ensures failing { failing_call self.new ≡ failing_call self.old }
    {
        put(&mut self.files, alloc, path, octets)
    }

    /// The octets of the file under the path, if there is one.
    pub fn get(&self, path: &str) -> Option<&[u8]>
        ensures { option_map (λ octets. octets.now) result ≡ (files_of self.now).held path.now }
    {
        octets_in(&self.files, path)
    }

    /// Makes the read or write of this number fail. Calls are counted from 0 since the store was made.
    pub fn fail_at(&mut self, call: u64)
        ensures failing { failing_call self.new ≡ Some call }
        ensures shown { files_of self.new ≡ files_of self.old }
        ensures calls { calls_of self.new ≡ calls_of self.old }
    {
        self.fail_at = Some(call);
    }

    /// Counts a call, and returns whether it has to fail.
    fn fails(&mut self) -> bool
        ensures fails { IsTrue result ↔ (failing_call self.old ≡ Some (calls_of self.old)) }
        ensures failing { failing_call self.new ≡ failing_call self.old }
        ensures calls { calls_of self.new ≡ raised (calls_of self.old) }
        ensures counted { IsTrue result → self.new.faults ≡ raised self.old.faults }
        ensures counted_no_other { (IsTrue result → ⊥) → self.new.faults ≡ self.old.faults }
        ensures kept { self.old.faults ≤ self.new.faults }
        ensures files { self.new.files ≡ self.old.files }
    {
        let fails = self.fail_at == Some(self.calls);
        self.calls = self.calls.saturating_add(1);
        if fails {
            raise(&mut self.faults);
        }
        fails
    }
}

impl Files for MemoryFiles {
    ghost use Rattle.s7_memory.specs.MemoryFiles.{files_of, failing_call, calls_of, fault_count};

    ghost shows = { files_of };

    /// Reads the file. `Failed` is returned exactly if this is the chosen call or there is no such file. It is counted
    /// once.
    fn read(&mut self, alloc: Global, path: &str, into: &mut Vec<u8>) -> Result<(), FileFault>
        requires { into.old.items ≡ [] }

        ensures ok { OnOk result (vec_len into.new ≤ file_limit) }
        ensures too_long { IsErrOf result FileFault.TooLong → vec_len into.new ≡ file_limit + 1 }
        ensures after_failed { IsErrOf result FileFault.Failed → into.new.items ≡ [] }
        ensures after_memory { IsErrOf result FileFault.Memory → into.new.items ≡ [] }
        ensures told { OnOk result ((files_of self.old).held path.now ≡ Some into.new.items) }
        ensures cut { IsErrOf result FileFault.TooLong → IsCutFrom ((files_of self.old).held path.now) into.new.items }

        ensures fails { (result ≡ Err FileFault.Failed)
            ↔ (failing_call self.old ≡ Some (calls_of self.old)) ⊎ ((files_of self.old).held path.now ≡ None) }
        ensures counted { result ≡ Err FileFault.Failed → fault_count self.new ≡ raised (fault_count self.old) }
        ensures counted_no_other { result ≢ Err FileFault.Failed → fault_count self.new ≡ fault_count self.old }
        ensures faults { fault_count self.old ≤ fault_count self.new }
        ensures same { files_of self.new ≡ record (files_of self.old) { faults = (files_of self.new).faults } }
        ensures failing { failing_call self.new ≡ failing_call self.old }
        ensures calls { calls_of self.new ≡ raised (calls_of self.old) }
    {
        if self.fails() {
            return Err(FileFault::Failed);
        }
        let Some(octets) = octets_in(&self.files, path) else {
            raise(&mut self.faults);
            return Err(FileFault::Failed);
        };
        let count = octets.len().min(FILE_LIMIT + 1);
        if into.extend_from_slice(&octets[..count]).is_err() {
            return Err(FileFault::Memory);
        }
        if count > FILE_LIMIT {
            Err(FileFault::TooLong)
        } else {
            Ok(())
        }
    }

    /// Replaces the file, or creates it. `Failed` is returned exactly at the chosen call; it is counted once, and
    /// every path then holds what it held before.
    fn write(&mut self, alloc: Global, path: &str, octets: &[u8]) -> Result<(), FileFault>
        ensures written { OnOk result ((files_of self.new).held path.now ≡ Some octets.now) }
        ensures not_written { OnErr result ((files_of self.new).held ≡ (files_of self.old).held) }
        ensures not_too_long { result ≢ Err FileFault.TooLong }
        ensures others { KeepsOtherPaths path.now (files_of self.old).held (files_of self.new).held }

        ensures fails { (result ≡ Err FileFault.Failed) ↔ (failing_call self.old ≡ Some (calls_of self.old)) }
        ensures counted { result ≡ Err FileFault.Failed → fault_count self.new ≡ raised (fault_count self.old) }
        ensures counted_no_other { result ≢ Err FileFault.Failed → fault_count self.new ≡ fault_count self.old }
        ensures faults { fault_count self.old ≤ fault_count self.new }
        ensures failing { failing_call self.new ≡ failing_call self.old }
        ensures calls { calls_of self.new ≡ raised (calls_of self.old) }
    {
        if self.fails() {
            return Err(FileFault::Failed);
        }
        let Ok(copy) = Octets::copy_of(alloc, octets) else {
            return Err(FileFault::Memory);
        };
        match put(&mut self.files, alloc, path, copy) {
            Ok(()) => Ok(()),
            Err(Memory) => Err(FileFault::Memory),
        }
    }
}

/// The octets under the path, if there is a file.
fn octets_in<'a>(files: &'a Option<BTreeMap<String, Octets>>, path: &str) -> Option<&'a [u8]>
    ensures { option_map (λ octets. octets.now) result ≡ file_octets files.now path.now }
{
    match files {
        Some(files) => files.get(path).map(|octets| octets.as_slice()),
        None => None,
    }
}

/// The map, which is made here if it doesn't exist yet.
fn taken_map(
    files: &mut Option<BTreeMap<String, Octets>>,
    alloc: Global,
) -> BTreeMap<String, Octets>
    ensures { result.entries ≡ entries_of files.old }
{
    match files.take() {
        Some(map) => map,
        None => BTreeMap::new(alloc),
    }
}

/// Puts the octets under the path. The other paths keep their octets; after `Memory` this path does, too.
fn put(
    files: &mut Option<BTreeMap<String, Octets>>,
    alloc: Global,
    path: &str,
    octets: Octets,
) -> Result<(), Memory>
    ensures ok { OnOk result (file_octets files.new path.now ≡ Some octets) }
    ensures err { OnErr result (file_octets files.new ≡ file_octets files.old) }
    ensures others { KeepsOtherPaths path.now (file_octets files.old) (file_octets files.new) }
{
    let key = String::from_str(alloc, path)?;
    let mut map = taken_map(files, alloc);
    let inserted = map.insert(key, octets);
    *files = Some(map);
    match inserted {
        Ok(_) => Ok(()),
        Err(_) => Err(Memory),
    }
}
