//! Why an area isn't registered or removed.
ghost use Rattle.std.specs.Prelude.{◌≡◌};
ghost use Rattle.s7_area.specs.Registers.{fault_code};

/// Why an area was not registered.
#[derive(Clone, Copy, Debug, PartialEq, Eq)]
pub enum RegisterFault {
    /// No area may have this name.
    Key,
    /// There are no octets, more than 2,097,152, an odd number of them for counters or timers, or more
    /// than 16,777,216 with those of all areas.
    Size,
    /// An area of this name is already registered.
    Exists,
    /// 2,048 data blocks are registered already.
    TooManyDbs,
    /// An allocation failed.
    Memory,
}

impl RegisterFault {
    /// The error number of the Snap7 server: 00300000 for `Exists`, 00500000 for `Key` and `Size`, 00600000 for
    /// `TooManyDbs`, and 0 for `Memory`.
    pub fn code(&self) -> u32
        ensures { result ≡ fault_code self.now }
    {
        match self {
            RegisterFault::Key | RegisterFault::Size => 0x0050_0000,
            RegisterFault::Exists => 0x0030_0000,
            RegisterFault::TooManyDbs => 0x0060_0000,
            RegisterFault::Memory => 0,
        }
    }
}

/// No area of this name is registered.
#[derive(Clone, Copy, Debug, PartialEq, Eq)]
pub struct Unknown;
