//! Guards of areas.
ghost use Rattle.std.specs.Prelude.{◌≡◌, Some};
ghost use Rattle.s7_area.specs.Guards.{is_read_barred, is_write_barred};

/// The level at which writes need the password.
const WRITES: u8 = 2;

/// The level at which reads of items need the password too.
const READS_AND_WRITES: u8 = 3;

/// A guard of areas: its level and its password. At level 2 changes need the password; at level 3 reads of items
/// need it too. The password has one to eight printable ASCII octets without space (21 to 7E), padded with spaces
/// (20) to eight.
#[derive(Clone, Copy, Debug, PartialEq, Eq)]
pub struct Guard {
    /// The level, 2 or 3.
    pub level: u8,
    /// The password, padded with spaces.
    pub password: [u8; 8],
}

impl Guard {
    /// Whether a read of an item is barred: it needs a right, and `right` is false.
    pub(crate) fn bars_read(&self, right: bool) -> bool
        ensures { result ≡ is_read_barred (Some self.now) right }
    {
        !right && self.level == READS_AND_WRITES
    }

    /// Whether a write of an item is barred: it needs a right, and `right` is false.
    pub(crate) fn bars_write(&self, right: bool) -> bool
        ensures { result ≡ is_write_barred (Some self.now) right }
    {
        !right && (self.level == WRITES || self.level == READS_AND_WRITES)
    }
}
