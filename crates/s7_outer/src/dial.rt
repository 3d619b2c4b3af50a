//! A dial: it connects to a host and gives a link.
ghost use Rattle.std.specs.Prelude.{◌≡◌, ◌≢◌};
ghost use Rattle.s7_outer.specs.Count.{Rose, RoseExactly};
ghost use Rattle.s7_outer.specs.DialShown.{DialShown};
ghost use Rattle.s7_outer.specs.Dial.{GivesTold, NoHostFell, NoHostRoseTwice};

/// The outcome of a call to a host.
#[derive(Drop)]
pub enum Dialled<L> {
    /// A link to the host.
    Link(L),
    /// The call failed.
    Failed,
}

/// Connects to a host by its name or address. `shows` has its counts, and the links that calls will give if the
/// dial makes them visible.
pub trait Dial<L> {
    /// What the dial makes visible to contracts. No count in it ever falls.
    ghost shows: { Self → DialShown L };

    /// Connects to the host's port and gives the link. Each call raises `calls` by one. `Failed` raises the fault
    /// count of this host and port and takes no link; no other count of faults changes.
    fn call(&mut self, host: &str, port: u16) -> Dialled<L>
        ensures gives { GivesTold ((shows self.old).next host.now port) result }
        ensures failed { result ≡ Dialled.Failed
            → Rose ((shows self.old).faults host.now port) ((shows self.new).faults host.now port) }
        ensures kept { result ≡ Dialled.Failed → (shows self.new).next ≡ (shows self.old).next }
        ensures faults { NoHostFell (shows self.old).faults (shows self.new).faults }
        ensures faults_once { NoHostRoseTwice (shows self.old).faults (shows self.new).faults }
        ensures failed_no_other { result ≢ Dialled.Failed → (shows self.new).faults ≡ (shows self.old).faults }
        ensures called { RoseExactly 1 (shows self.old).calls (shows self.new).calls };
}
