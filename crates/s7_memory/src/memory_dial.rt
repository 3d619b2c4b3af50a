//! A dial in memory.
ghost use Rattle.std.specs.Prelude.{◌≡◌, ◌≢◌, None};
ghost use Rattle.s7_outer.specs.Count.{RoseExactly, raised};
ghost use Rattle.s7_outer.specs.Dial.{NoHostFell};

use s7_outer::{Dial, Dialled, raise};

/// Gives its link at the first call, whatever the host, and fails at every later one.
#[derive(Drop)]
pub struct MemoryDial<L> {
    link: Option<L>,
    faults: u64,
    calls: u64,
}

impl<L: Drop> MemoryDial<L> {
    ghost use Rattle.s7_memory.specs.MemoryDial.{dial_of, unused_dial};

    /// A dial that gives this link; without one each call fails.
    pub fn new(link: Option<L>) -> MemoryDial<L>
        ensures { dial_of result ≡ unused_dial link }
    {
        MemoryDial {
            link,
            faults: 0,
            calls: 0,
        }
    }
}

impl<L: Drop> Dial<L> for MemoryDial<L> {
    ghost use Rattle.s7_memory.specs.MemoryDial.{dial_of, link_of, fault_count, called};

    ghost shows = { dial_of };

    /// Gives the link away. `Failed` is returned exactly if the dial has none, and is counted once.
    fn call(&mut self, host: &str, port: u16) -> Dialled<L>
        ensures gives { result ≡ called (link_of self.old) }
        ensures given { link_of self.new ≡ None }
        ensures kept { result ≡ Dialled.Failed → (dial_of self.new).next ≡ (dial_of self.old).next }
        ensures counted { result ≡ Dialled.Failed → fault_count self.new ≡ raised (fault_count self.old) }
        ensures counted_no_other { result ≢ Dialled.Failed → fault_count self.new ≡ fault_count self.old }
        ensures faults { NoHostFell (dial_of self.old).faults (dial_of self.new).faults }
        ensures called { RoseExactly 1 (dial_of self.old).calls (dial_of self.new).calls }
    {
        raise(&mut self.calls);
        match self.link.take() {
            Some(link) => Dialled::Link(link),
            None => {
                raise(&mut self.faults);
                Dialled::Failed
            }
        }
    }
}
