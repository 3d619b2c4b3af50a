//! Files by path.
ghost use Rattle.std.specs.Prelude.{◌≡◌, ◌≢◌, ◌+◌, ◌≤◌, [], Some, None, IsTrue, IsErrOf, OnOk, vec_len};
ghost use Rattle.s7_outer.specs.Count.{Rose};
ghost use Rattle.s7_outer.specs.FilesShown.{FilesShown};
ghost use Rattle.s7_outer.specs.Files.{file_limit, IsCutFrom, KeepsOtherPaths, NonePathFell, NoPathRoseTwice};

use std::alloc::Global;

/// The length of the longest file that is read whole, in octets.
pub const FILE_LIMIT: usize = 67_108_864;

/// Why a file wasn't read or wasn't written.
#[derive(Clone, Copy, Debug, PartialEq, Eq)]
pub enum FileFault {
    /// The file doesn't exist, or couldn't be read or written.
    Failed,
    /// The file has more than 67,108,864 octets.
    TooLong,
    /// An allocation failed.
    Memory,
}

/// Files by path. `shows` has their counts, and the octets under each path if the files make them visible.
pub trait Files {
    /// What the files make visible to contracts. No count in it ever falls.
    ghost shows: { Self → FilesShown };

    /// Reads the file under the path into `into`, which the caller passes empty. No file changes.
    ///
    /// `Failed` raises this path's fault count; a file that doesn't exist is a fault. `TooLong` is returned if more
    /// than 67,108,864 octets were read; `into` then holds the first 67,108,865. After `Failed` and `Memory` `into`
    /// is empty.
    fn read(&mut self, alloc: Global, path: &str, into: &mut Vec<u8>) -> Result<(), FileFault>
        requires { into.old.items ≡ [] }

        ensures ok { OnOk result (vec_len into.new ≤ file_limit) }
        ensures too_long { IsErrOf result FileFault.TooLong → vec_len into.new ≡ file_limit + 1 }
        ensures after_failed { IsErrOf result FileFault.Failed → into.new.items ≡ [] }
        ensures after_memory { IsErrOf result FileFault.Memory → into.new.items ≡ [] }

        // if the files make visible what lies under the paths
        ensures told { OnOk result (IsTrue (shows self.old).tells
            → (shows self.old).held path.now ≡ Some into.new.items) }
        ensures cut { IsErrOf result FileFault.TooLong → IsTrue (shows self.old).tells →
            IsCutFrom ((shows self.old).held path.now) into.new.items }
        ensures missing { IsTrue (shows self.old).tells → (shows self.old).held path.now ≡ None
            → result ≡ Err FileFault.Failed }

        ensures failed { IsErrOf result FileFault.Failed
            → Rose ((shows self.old).faults path.now) ((shows self.new).faults path.now) }
        ensures faults { NonePathFell (shows self.old).faults (shows self.new).faults }
        ensures faults_once { NoPathRoseTwice (shows self.old).faults (shows self.new).faults }
        ensures failed_no_other { result ≢ Err FileFault.Failed → (shows self.new).faults ≡ (shows self.old).faults }
        ensures same { shows self.new ≡ record (shows self.old) { faults = (shows self.new).faults } };

    /// Replaces the file under the path, or creates it. No other path changes.
    ///
    /// `Failed` raises this path's fault count, and the path may then hold anything. After `Memory` no path has
    /// changed. `TooLong` is never returned.
    fn write(&mut self, alloc: Global, path: &str, octets: &[u8]) -> Result<(), FileFault>
        ensures written { OnOk result (IsTrue (shows self.old).tells
            → (shows self.new).held path.now ≡ Some octets.now) }
        ensures not_too_long { result ≢ Err FileFault.TooLong }
        ensures after_memory { IsErrOf result FileFault.Memory → (shows self.new).held ≡ (shows self.old).held }
        ensures others { KeepsOtherPaths path.now (shows self.old).held (shows self.new).held }
        ensures tells { (shows self.new).tells ≡ (shows self.old).tells }

        ensures failed { IsErrOf result FileFault.Failed
            → Rose ((shows self.old).faults path.now) ((shows self.new).faults path.now) }
        ensures faults { NonePathFell (shows self.old).faults (shows self.new).faults }
        ensures faults_once { NoPathRoseTwice (shows self.old).faults (shows self.new).faults }
        ensures failed_no_other { result ≢ Err FileFault.Failed → (shows self.new).faults ≡ (shows self.old).faults };
}
