//! An item that is too long for a telegram, split into parts.
ghost use Rattle.std.specs.Prelude.{◌≡◌, ◌^◌, ◌<◌, ◌≤◌, IsSome};
ghost use Rattle.std.specs.List.{AllByRecursion};
ghost use Rattle.s7_item.specs.Word.{size_of};
ghost use Rattle.s7_split.specs.Fits.{size};
ghost use Rattle.s7_split.specs.Parts.{room_of, range_end, parts_of, AreParts, CanBeAsked};

use crate::part_list::Parts;
use s7_item::{Item, size_of};

/// The number of octets of an answer besides a part's elements.
const BESIDES_READ: u16 = 18;

/// The number of octets that a write request reserves besides a part's elements.
const BESIDES_WRITTEN: u16 = 35;

/// Splits an item into parts for a PDU length of at least 64. The parts have its area, data block and word length,
/// adjoin, and together are its range. A part has `(pdu - 18) / size` elements, for a write `(pdu - 35) / size`,
/// where `size` is the number of octets of an element; the last part has the elements left. The address of counters
/// and timers rises by 1 an element, that of other areas by the element's bits. The item has a known word length,
/// at least one element, exactly one if it is a bit, and a range that ends inside the address field of 24 bits.
pub fn parts(item: &Item, pdu: u16, write: bool) -> Parts
    requires known { IsSome (size_of item.now.word) }
    requires some { 0 < item.now.count }
    requires bit { item.now.word ≡ 0x01 → item.now.count ≡ 1 }
    requires inside { range_end item.now ≤ 2 ^ 24 }
    requires least { 64 ≤ pdu }
    ensures parts { result ≡ parts_of item.now pdu write }
    ensures split { AreParts item.now pdu write result }
    ensures asked { AllByRecursion (CanBeAsked pdu write) result }
{
    let room = room_of(item, pdu, write);
    Parts::of(item, room)
}

/// The greatest number of elements of a part.
fn room_of(item: &Item, pdu: u16, write: bool) -> u16
    requires known { IsSome (size_of item.now.word) }
    requires least { 64 ≤ pdu }
    ensures room { result ≡ room_of item.now pdu write }
    ensures some { 0 < result }
{
    let besides = if write { BESIDES_WRITTEN } else { BESIDES_READ };
    (pdu - besides) / size(item)
}

/// The number of octets of an element.
fn size(item: &Item) -> u16
    requires { IsSome (size_of item.now.word) }
    ensures size { result ≡ size item.now }
    ensures some { 0 < result }
    ensures most { result ≤ 4 }
{
    size_of(item.word).unwrap_or(0)
}
