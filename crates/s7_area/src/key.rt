//! The names of areas.
ghost use Rattle.std.specs.Prelude.{◌≡◌, ◌==◌};
ghost use Rattle.s7_item.specs.Codes.{data_blocks};
ghost use Rattle.s7_area.specs.Keys.{is_key, is_numbered};

use s7_item::codes::{COUNTERS, DATA_BLOCKS, FLAGS, INPUTS, OUTPUTS, TIMERS};

/// The name of an area: the code of its kind, and for data blocks (84) the number of the block, from 1 to 65,535.
/// Inputs (81), outputs (82), flags (83), counters (1C) and timers (1D) are one area each, with the number 0.
#[derive(Clone, Copy, Debug, PartialEq, Eq, PartialOrd, Ord)]
pub struct AreaKey {
    /// The code of the kind of area.
    pub area: u8,
    /// The number of a data block; 0 for other areas.
    pub number: u16,
}

impl AreaKey {
    /// Whether an area may have this name.
    pub(crate) fn is_key(&self) -> bool
        ensures { result ≡ is_key self.now }
    {
        match self.area {
            DATA_BLOCKS => self.number != 0,
            INPUTS | OUTPUTS | FLAGS | COUNTERS | TIMERS => self.number == 0,
            _ => false,
        }
    }

    /// Whether the area is a data block.
    pub(crate) fn is_db(&self) -> bool
        ensures { result ≡ (self.now.area == data_blocks) }
    {
        self.area == DATA_BLOCKS
    }
}

/// Whether the elements of this area are counters or timers. These have numbers instead of bit addresses, and two
/// octets each.
pub(crate) fn is_numbered(area: u8) -> bool
    ensures { result ≡ is_numbered area }
{
    area == COUNTERS || area == TIMERS
}
