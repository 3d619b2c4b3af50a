//! A list of at most twenty items.
ghost use Rattle.std.specs.Prelude.{◌≡◌, ◌<◌, ◌≤◌, [], ◌∷◌, ◌++◌, length, slice_get, ◌↔◌, IsTrue};

use crate::Item;
use std::marker::Model;

/// The greatest number of items of a telegram.
pub const MOST_ITEMS: usize = 20;

/// The items of a telegram, at most twenty, in order. They lie in the value itself, which has 244 octets.
#[derive(Drop)]
pub struct Items {
    cells: [Item; 20],
    count: u8,
}

const _: () = prove!(size_of::<Items>() == 244);

impl Model for Items {
    ghost use Rattle.std.specs.Prelude.{List, length, take, ◌≡◌, ◌≤◌};
    ghost use Rattle.s7_item.specs.declared.item.Item.{Item};

    ghost Value = { List Item };

    ghost view = { λ a. take a.count a.cells };

    ghost invariant = { λ a. (a.count ≤ 20) × (length a.cells ≡ 20) };
}

impl Items {
    /// An empty list.
    pub fn new() -> Items
        ensures { result ≡ [] }
    {
        Items {
            cells: [Item::default(); 20],
            count: 0,
        }
    }

    /// The number of items.
    pub fn len(&self) -> usize
        ensures len { result ≡ length self.now }
        ensures most { result ≤ 20 }
    {
        usize::from(self.count)
    }

    /// Whether there are no items.
    pub fn is_empty(&self) -> bool
        ensures { IsTrue result ↔ (length self.now ≡ 0) }
    {
        self.count == 0
    }

    /// The items in order.
    pub fn as_slice(&self) -> &[Item]
        ensures items { result.now ≡ self.now }
        ensures most { length self.now ≤ 20 }
    {
        &self.cells[..self.len()]
    }

    /// The item with index `k`, counted from 0; `None` exactly if `k` is at least the length.
    pub fn get(&self, k: usize) -> Option<Item>
        ensures { result ≡ slice_get self.now k }
    {
        self.as_slice().get(k).copied()
    }

    /// Appends an item. The list has fewer than twenty before.
    pub fn push(&mut self, item: Item)
        requires { length self.old < 20 }
        ensures { self.new ≡ self.old ++ item ∷ [] }
    {
        self.cells[self.len()] = item;
        self.count += 1;
    }

    /// Removes all items.
    pub(crate) fn clear(&mut self)
        ensures { self.new ≡ [] }
    {
        self.count = 0;
    }
}
