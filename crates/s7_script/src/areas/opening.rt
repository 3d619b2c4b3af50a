//! The state of reading an area file.
ghost use Rattle.std.specs.Prelude.{◌≡◌, ◌≤◌, vec_len};
ghost use Rattle.std.specs.List.Sorted.{IsStrictlySortedBy, IsStrictlySortedBy-prop};
ghost use Rattle.std.specs.Map.{keys_of};
ghost use Rattle.s7_area.specs.Memory.{key_cmp};
ghost use Rattle.s7_area.specs.Registers.{most_in_all, total_of};

use crate::areas::version::Version;
use s7_area::{AreaKey, Areas};

/// An area whose octets are being read.
#[derive(Drop)]
pub(crate) struct Open {
    pub line: u32,
    pub key: AreaKey,
    pub size: usize,
    pub octets: Vec<u8>,
    ghost within: { vec_len octets ≤ size },
}

/// What was read so far: the version; whether a guard may still come; the complete areas, with the guard; their octets
/// in all; and the area that isn't complete.
#[derive(Drop)]
pub(crate) struct State {
    pub version: Version,
    pub may_guard: bool,
    pub areas: Areas,
    pub total: usize,
    pub current: Option<Open>,
    ghost is_total: { total ≡ total_of areas },
    ghost fits: { total ≤ most_in_all },
    ghost ordered: { IsStrictlySortedBy key_cmp (keys_of areas.areas) } by { IsStrictlySortedBy-prop
        key_cmp (keys_of areas.areas) },
}
