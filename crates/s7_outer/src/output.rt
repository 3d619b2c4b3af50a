//! An output: text goes to it.
ghost use Rattle.std.specs.Prelude.{◌≡◌, ◌+◌, ◌≤◌, OnOk, OnErr};
ghost use Rattle.std.specs.Io.KnownBytes.{append_known};
ghost use Rattle.s7_outer.specs.Count.{Rose};
ghost use Rattle.s7_outer.specs.Out.{AppendsPrefix};
ghost use Rattle.s7_outer.specs.OutShown.{OutShown};

/// The output failed.
#[derive(Clone, Copy, Debug, PartialEq, Eq)]
pub struct OutFailed;

/// Where text goes. `shows` has its fault count, and the text so far if the output makes it visible.
pub trait Out {
    /// What the output makes visible to contracts. Its count never falls.
    ghost shows: { Self → OutShown };

    /// Appends text. `OutFailed` raises `faults`, and a prefix of the text is appended then.
    fn put(&mut self, piece: &[u8]) -> Result<(), OutFailed>
        ensures ok { OnOk result ((shows self.new).text ≡ append_known (shows self.old).text piece.now) }
        ensures err { OnErr result (AppendsPrefix (shows self.old).text (shows self.new).text piece.now) }
        ensures failed { OnErr result (Rose (shows self.old).faults (shows self.new).faults) }
        ensures faults { (shows self.old).faults ≤ (shows self.new).faults }
        ensures faults_once { (shows self.new).faults ≤ (shows self.old).faults + 1 }
        ensures failed_no_other { OnOk result ((shows self.new).faults ≡ (shows self.old).faults) };
}
