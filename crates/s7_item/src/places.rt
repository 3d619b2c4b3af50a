//! A list of the ranges of at most twenty data items.
ghost use Rattle.std.specs.Prelude.{◌≡◌, ◌<◌, ◌≤◌, [], ◌∷◌, ◌++◌, length, slice_get, ◌↔◌, IsTrue, IfOk};

use arrayvec::ArrayVec;
use s7_outer::Memory;
use std::alloc::Global;
use std::marker::Model;

/// The range of the octets of one data item: its transport size, the offset of its first octet in the octets that
/// were read, and the number of its octets.
#[derive(Clone, Copy, Debug, Default, PartialEq, Eq)]
pub struct DataPlace {
    /// The transport size of the item.
    pub transport: u8,
    /// The offset of its first octet.
    pub from: usize,
    /// The number of its octets.
    pub len: usize,
}

/// The ranges of the data items of a telegram, at most twenty, in order.
#[derive(Drop)]
pub struct DataItems {
    list: ArrayVec<DataPlace, 20>,
}

impl Model for DataItems {
    ghost use Rattle.std.specs.Prelude.{List, length, ◌≤◌};
    ghost use Rattle.s7_item.specs.declared.places.DataPlace.{DataPlace};

    ghost Value = { List DataPlace };

    ghost view = { λ a. a.list.items };

    ghost invariant = { λ a. length a.list.items ≤ 20 };
}

impl DataItems {
    /// An empty list.
    pub fn new() -> DataItems
        ensures { result ≡ [] }
    {
        DataItems {
            list: ArrayVec::new(),
        }
    }

    /// The number of ranges.
    pub fn len(&self) -> usize
        ensures len { result ≡ length self.now }
        ensures most { result ≤ 20 }
    {
        self.list.len()
    }

    /// Whether there are no ranges.
    pub fn is_empty(&self) -> bool
        ensures { IsTrue result ↔ (length self.now ≡ 0) }
    {
        self.list.is_empty()
    }

    /// The ranges in order.
    pub fn as_slice(&self) -> &[DataPlace]
        ensures places { result.now ≡ self.now }
        ensures most { length self.now ≤ 20 }
    {
        self.list.as_slice()
    }

    /// The range with index `k`, counted from 0; `None` exactly if `k` is at least the length.
    pub fn get(&self, k: usize) -> Option<DataPlace>
        ensures { result ≡ slice_get self.now k }
    {
        self.as_slice().get(k).copied()
    }

    /// Appends a range. The list has fewer than twenty before.
    pub fn push(&mut self, place: DataPlace)
        requires { length self.old < 20 }
        ensures { self.new ≡ self.old ++ place ∷ [] }
    {
        self.list.push(place);
    }

    /// Removes all ranges.
    pub(crate) fn clear(&mut self)
        ensures { self.new ≡ [] }
    {
        self.list.clear();
    }
}

/// The ranges of data items in an allocation of their own. What holds them stays small.
#[derive(Drop)]
pub struct BoxedDataItems {
    list: Box<DataItems>,
}

impl Model for BoxedDataItems {
    ghost use Rattle.std.specs.Prelude.{List};
    ghost use Rattle.s7_item.specs.declared.places.DataPlace.{DataPlace};

    ghost Value = { List DataPlace };

    ghost view = { λ b. b.list.value };
}

impl BoxedDataItems {
    /// Moves the ranges into an allocation. Returns `Memory` if the allocation fails.
    pub fn new(alloc: Global, list: DataItems) -> Result<BoxedDataItems, Memory>
        ensures { IfOk result (λ boxed. boxed ≡ list) }
    {
        match Box::new(alloc, list) {
            Ok(list) => Ok(BoxedDataItems { list }),
            Err(_) => Err(Memory),
        }
    }

    /// The ranges, borrowed.
    pub fn list(&self) -> &DataItems
        ensures { result.now ≡ self.now }
    {
        &self.list
    }
}
