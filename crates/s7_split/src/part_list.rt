//! The parts of an item, as an iterator.
ghost use Rattle.std.specs.Prelude.{◌≡◌, ◌+◌, ◌-◌, ◌/◌, ◌^◌, ◌<◌, ◌≤◌};
ghost use Rattle.std.specs.Iterator.{YieldsFirst, item_count};
ghost use Rattle.s7_split.specs.Parts.{step, elements, parts_from};

use s7_item::{Item, size_of};
use std::marker::Model;

/// The area of counters, which are addressed by number.
const COUNTERS: u8 = 0x1C;

/// The area of timers, which are addressed by number.
const TIMERS: u8 = 0x1D;

/// The parts of an item, in order, as an iterator of items. It allocates nothing.
#[derive(Drop)]
pub struct Parts {
    /// The item that is split.
    item: Item,
    /// The greatest number of elements of a part.
    room: u16,
    /// The index of the first element of the next part.
    from: u16,
    /// The number of elements left.
    left: u16,
}

impl Model for Parts {
    ghost use Rattle.std.specs.Prelude.{List, ◌≤◌, ◌^◌};
    ghost use Rattle.s7_item.specs.declared.item.Item.{Item};
    ghost use Rattle.s7_split.specs.Parts.{parts_from};

    ghost Value = { List Item };

    ghost view = { λ p. parts_from p.left p.room p.item p.from };

    ghost invariant = { λ p. (p.from ≤ p.item.count) × (p.item.address ≤ 2 ^ 25) };
}

impl Parts {
    /// The parts of an item of at least one element, with `room` elements in each; the last may have fewer.
    pub(crate) fn of(item: &Item, room: u16) -> Parts
        requires some { 0 < item.now.count }
        requires room { 0 < room }
        requires address { item.now.address ≤ 2 ^ 25 }
        ensures { result ≡ parts_from ((item.now.count - 1) / room + 1) room item.now 0 }
    {
        Parts {
            item: *item,
            room,
            from: 0,
            left: (item.count - 1) / room + 1,
        }
    }
}

impl Iterator for Parts {
    type Item = Item;

    ghost next_gives = { YieldsFirst (λ rest. rest) };

    ghost remaining = { item_count (λ rest. rest) };

    fn next(&mut self) -> Option<Item> {
        if self.left == 0 {
            return None;
        }
        let count = self.room.min(self.item.count - self.from);
        let part = elements(&self.item, self.from, count);
        self.left -= 1;
        self.from += count;
        Some(part)
    }
}

/// How much the address rises from one element to the next.
fn step(item: &Item) -> u32
    ensures step { result ≡ step item.now }
    ensures most { result ≤ 32 }
{
    if item.area == COUNTERS || item.area == TIMERS {
        1
    } else {
        8 * u32::from(size_of(item.word).unwrap_or(0))
    }
}

/// The item of `count` elements of this one, beginning with the element of index `from`.
fn elements(item: &Item, from: u16, count: u16) -> Item
    requires { item.now.address ≤ 2 ^ 25 }
    ensures { result ≡ elements item.now from count }
{
    Item {
        count,
        address: item.address + u32::from(from) * step(item),
        ..*item
    }
}
