//! A door: links arrive at it.
ghost use Rattle.std.specs.Prelude.{◌≡◌, ◌≢◌, OnOk, OnErr};
ghost use Rattle.s7_outer.specs.Count.{RoseExactly};
ghost use Rattle.s7_outer.specs.DoorShown.{DoorShown};
ghost use Rattle.s7_outer.specs.Door.{GivesNext, PortFailed};

/// The outcome of a wait for the next link.
#[derive(Drop)]
pub enum Arrival<L> {
    /// The next link.
    Link(L),
    /// No link is left, and none will come.
    End,
    /// The door failed.
    Failed,
}

/// The door can't listen on the port.
#[derive(Clone, Copy, Debug, PartialEq, Eq)]
pub struct DoorFailed;

/// Where links arrive. `shows` has its counts, and the links to come if the door makes them visible. A door that
/// works on something lent to it shows which loan that is, and no call changes this.
pub trait Door<L> {
    /// What the door makes visible to contracts. No count in it ever falls.
    ghost shows: { Self → DoorShown L };

    /// Listens on this port from now on, even if it returns `DoorFailed`. `DoorFailed` raises the port's fault
    /// count; a call that succeeds changes no fault count. Each call raises `listens` by one. The links to come
    /// stay.
    fn listen(&mut self, port: u16) -> Result<(), DoorFailed>
        ensures heard { (shows self.new).heard ≡ port }
        ensures coming { (shows self.new).coming ≡ (shows self.old).coming }
        ensures lent { (shows self.new).lent ≡ (shows self.old).lent }
        ensures listened { RoseExactly 1 (shows self.old).listens (shows self.new).listens }
        ensures failed { OnErr result (PortFailed port (shows self.old).faults (shows self.new).faults) }
        ensures failed_no_other { OnOk result ((shows self.new).faults ≡ (shows self.old).faults) };

    /// Waits for the next link. `End` is returned only if no link is left. `Failed` takes no link and raises the
    /// fault count of the port that the door listens on; no other answer changes a fault count.
    fn next(&mut self) -> Arrival<L>
        ensures gives { GivesNext (shows self.old).coming (shows self.new).coming result }
        ensures heard { (shows self.new).heard ≡ (shows self.old).heard }
        ensures lent { (shows self.new).lent ≡ (shows self.old).lent }
        ensures listened { (shows self.new).listens ≡ (shows self.old).listens }
        ensures failed { result ≡ Arrival.Failed
            → PortFailed (shows self.old).heard (shows self.old).faults (shows self.new).faults }
        ensures failed_no_other { result ≢ Arrival.Failed → (shows self.new).faults ≡ (shows self.old).faults };
}
