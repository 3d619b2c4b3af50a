//! The ranges of items in their areas, and the octets there.
ghost use Rattle.std.specs.Prelude.{◌≡◌, ◌+◌, ◌<◌, ◌≤◌, ◌^◌, false, length, IsTrue};
ghost use Rattle.s7_item.specs.Item.{octet_count};
ghost use Rattle.s7_area.specs.Places.{is_misfit, key_of, start_of, is_inside, value_at, changed_at, put_at, with_bit};

use crate::key::{AreaKey, is_numbered};
use s7_item::codes::{BIT, COUNTERS, DATA_BLOCKS, TIMERS};
use s7_item::{Item, size_of};

/// A bit that is off, as it is read.
const OFF: [u8; 1] = [0x00];

/// A bit that is on, as it is read.
const ON: [u8; 1] = [0x01];

/// Whether the word length is unknown, or doesn't fit the area or the count.
#[tactic(auto, unfolding(crate::specs::Places::is_misfit))]
pub fn is_misfit(item: &Item) -> bool
    ensures { result ≡ is_misfit item.now }
{
    size_of(item.word).is_none()
        || item.word == BIT && item.count != 1
        || (item.word == COUNTERS) != (item.area == COUNTERS)
        || (item.word == TIMERS) != (item.area == TIMERS)
}

/// The name of the item's area. Only data blocks have a number.
pub fn key_of(item: &Item) -> AreaKey
    ensures { result ≡ key_of item.now }
{
    AreaKey {
        area: item.area,
        number: if item.area == DATA_BLOCKS { item.db } else { 0 },
    }
}

/// The offset in the area of the octet at which the range begins.
fn start_of(item: &Item) -> usize
    ensures start { result ≡ start_of item.now }
    ensures most { result < 2 ^ 33 }
{
    if is_numbered(item.area) {
        item.address as usize * 2
    } else {
        item.address as usize / 8
    }
}

/// Whether the range has octets, and all of them lie inside an area of this length.
pub fn is_inside(item: &Item, len: usize) -> bool
    ensures { result ≡ is_inside item.now len }
{
    item.count != 0 && start_of(item) + item.octet_count() <= len
}

/// What the item's range holds: its octets, or 00 or 01 for a bit.
#[tactic(auto, unfolding(crate::specs::Places::value_at, crate::specs::Places::is_misfit, s7_item::specs::Word::size_of))]
pub(crate) fn read_place<'a>(item: &Item, area: &'a [u8]) -> &'a [u8]
    requires fits { is_misfit item.now ≡ false }
    requires inside { IsTrue (is_inside item.now (length area.now)) }
    ensures octets { result.now ≡ value_at item.now area.now }
    ensures len { length result.now ≡ octet_count item.now }
{
    let start = start_of(item);
    if item.word != BIT {
        return &area[start..start + item.octet_count()];
    }
    if (area[start] >> (item.address % 8)) % 2 == 1 {
        &ON
    } else {
        &OFF
    }
}

/// Writes octets to the item's range.
#[tactic(auto, unfolding(crate::specs::Places::changed_at, s7_item::specs::Word::size_of))]
pub(crate) fn write_place(item: &Item, octets: &[u8], area: &mut [u8])
    requires fits { is_misfit item.now ≡ false }
    requires inside { IsTrue (is_inside item.now (length area.old)) }
    requires count { length octets.now ≡ octet_count item.now }
    ensures { area.new ≡ changed_at item.now octets.now area.old }
{
    let start = start_of(item);
    if item.word == BIT {
        area[start] = with_bit(area[start], item.address % 8, octets[0] != 0x00);
    } else {
        write_over(area, start, octets);
    }
}

/// The octet with one of its bits turned on or off.
fn with_bit(octet: u8, bit: u32, on: bool) -> u8
    requires { bit < 8 }
    ensures { result ≡ with_bit octet bit on }
{
    let mask = 1u8 << bit;
    if on { octet | mask } else { octet & !mask }
}

/// Overwrites the octets of `target` from offset `start` on with `source`.
fn write_over(target: &mut [u8], start: usize, source: &[u8])
    requires { start + length source.now ≤ length target.old }
    ensures { target.new ≡ put_at start source.now target.old }
{
    target[start..start + source.len()].copy_from_slice(source);
}
