//! The numbers of the entries that a job made.
ghost use Rattle.std.specs.Prelude.{◌≡◌, ◌≤◌, ◌-◌, ◌++◌, [], OnOk};
ghost use Rattle.s7_rig.specs.Numbers.{count_from};

use s7_outer::Memory;
use std::alloc::Global;
use std::marker::Model;

/// The numbers of the entries that a link's session made while a job was under way, in order. At these entries the
/// job's telegrams were answered. Contracts see the list.
#[derive(Drop)]
pub struct Places {
    numbers: Vec<u64>,
}

impl Model for Places {
    ghost use Rattle.std.specs.Prelude.{ℕ, List};

    ghost Value = { List ℕ };

    ghost view = { λ p. p.numbers.items };
}

impl Places {
    /// An empty list.
    pub(crate) fn new(alloc: Global) -> Places
        ensures { result ≡ [] }
    {
        Places {
            numbers: Vec::new(alloc),
        }
    }

    /// The numbers, borrowed.
    pub fn as_slice(&self) -> &[u64]
        ensures { result.now ≡ self.now }
    {
        self.numbers.as_slice()
    }

    /// Adds the numbers from `first` on that are below `end`. Returns `Memory` if an allocation fails.
    pub(crate) fn add(&mut self, first: u64, end: u64) -> Result<(), Memory>
        requires { first ≤ end }
        ensures { OnOk result (self.new ≡ self.old ++ count_from first (end - first)) }
    {
        for number in first..end {
            if self.numbers.push(number).is_err() {
                return Err(Memory);
            }
        }
        Ok(())
    }
}
