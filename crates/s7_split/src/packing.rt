//! Items packed into as few telegrams as their order allows.
ghost use Rattle.std.specs.Prelude.{◌≡◌, ◌+◌, ◌<◌, ◌≤◌, [], ◌∷◌, ◌++◌, length, take, drop, true, OnOk, OnErr};
ghost use Rattle.s7_split.specs.Fits.{fits};
ghost use Rattle.s7_split.specs.Groups.{first_over, packed_of, groups_of, ends_of, IsBlankAfter};

use crate::Groups;
use crate::fits::fits;
use s7_item::{Item, Items, MOST_ITEMS};

/// Why items can't be packed.
#[derive(Clone, Copy, Debug, PartialEq, Eq)]
pub enum PackFault {
    /// There are more than twenty items.
    TooMany,
    /// The item with this index, counted from 0, doesn't fit any telegram, even alone. It is the first such item.
    ItemOverPdu { place: usize },
}

/// Packs items, in order, into groups. Each group takes as many items as fit its request and the answer for a PDU
/// length of `pdu`; `write` says whether they are written. After Ok `groups` holds these groups; after a refusal it
/// holds none. Returns `TooMany` exactly if there are more than twenty items, and else `ItemOverPdu` for the first
/// item that doesn't fit a telegram even alone. An item of an unknown word length counts as one without octets.
pub fn pack(items: &[Item], pdu: u16, write: bool, groups: &mut Groups) -> Result<(), PackFault>
    ensures result { result ≡ packed_of pdu write items.now }
    ensures ends { OnOk result (take groups.new.count groups.new.ends ≡ ends_of 0 (groups_of pdu write items.now)) }
    ensures many { groups.new.count ≤ 20 }
    ensures blank { IsBlankAfter groups.new.count groups.new.ends }
    ensures refused { OnErr result (groups.new.count ≡ 0) }
{
    *groups = Groups::new();
    if items.len() > MOST_ITEMS {
        return Err(PackFault::TooMany);
    }
    if let Some(place) = first_over(items, pdu, write) {
        return Err(PackFault::ItemOverPdu { place });
    }
    pack_each(items, pdu, write, groups);
    Ok(())
}

/// The index of the first item that doesn't fit a telegram even alone.
fn first_over(items: &[Item], pdu: u16, write: bool) -> Option<usize>
    ensures { result ≡ first_over pdu write 0 items.now }
{
    for (k, item) in items.iter().enumerate() {
        let mut alone = Items::new();
        alone.push(*item);
        if !fits(&alone, pdu, write) {
            return Some(k);
        }
    }
    None
}

/// Packs items, each of which fits a telegram alone.
fn pack_each(items: &[Item], pdu: u16, write: bool, groups: &mut Groups)
    requires most { length items.now ≤ 20 }
    requires first { 0 < length items.now → fits pdu write (take 1 items.now) ≡ true }
    requires none { groups.old.count ≡ 0 }
    requires blank { IsBlankAfter 0 groups.old.ends }
    ensures ends { take groups.new.count groups.new.ends ≡ ends_of 0 (groups_of pdu write items.now) }
    ensures many { groups.new.count ≤ 20 }
    ensures blank { IsBlankAfter groups.new.count groups.new.ends }
{
    let mut group = Items::new();
    for (k, item) in items.iter().enumerate() {
        group.push(*item);
        if !fits(&group, pdu, write) {
            groups.push(k as u8);
            group = Items::new();
            group.push(*item);
        }
    }
    if !items.is_empty() {
        groups.push(items.len() as u8);
    }
}
