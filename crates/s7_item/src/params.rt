//! The parameters of a read or write telegram.
ghost use Rattle.std.specs.Prelude.{◌≡◌, ◌<◌, ◌≤◌, ◌^◌, ◌+◌, ◌*◌, ◌++◌, [], length, drop, All, OnOk, IfOk};
ghost use Rattle.std.specs.Option.{ok_or};
ghost use Rattle.std.specs.List.{flat_map};
ghost use Rattle.s7_item.specs.Item.{item_octets};
ghost use Rattle.s7_item.specs.Gives.{Gives};
ghost use Rattle.s7_item.specs.Params.{items_of, items_params, count_of, items_in};

use crate::item::ITEM_LEN;
use crate::{Item, Items, MOST_ITEMS};

/// Why parameters aren't read as items.
#[derive(Clone, Copy, Debug, PartialEq, Eq)]
pub enum ItemFault {
    /// The parameters have fewer than two octets, or their length isn't 2 and 12 for each item.
    Short,
    /// The number of items is 0 or above 20.
    Count,
    /// An item doesn't begin `12 0A 10`.
    Spec,
}

/// Reads the items of a read or write telegram from its parameters: the function, the number of items, and twelve
/// octets for each item.
///
/// The first fault in this order is returned: `Short` if there are fewer than two octets, `Count` if the number of
/// items is 0 or above 20, `Short` if the length isn't 2 and 12 for each item, `Spec` if an item doesn't begin `12
/// 0A 10`. What `into` held before is dropped; after a refusal it is empty.
#[tactic(auto, unfolding(crate::specs::Params::items_of))]
pub fn read_items(params: &[u8], into: &mut Items) -> Result<(), ItemFault>
    ensures read { Gives (items_of params.now) result into.new }
    ensures some { OnOk result (0 < length into.new) }
    ensures len { OnOk result (length params.now ≡ 2 + 12 * length into.new) }
    ensures addresses { OnOk result (All (λ item. item.address < 2 ^ 24) into.new) }
{
    into.clear();
    let count = item_count(params)?;
    read_each(&params[2..], count, into)
}

/// The number of items that the parameters state, if their length agrees with it.
fn item_count(params: &[u8]) -> Result<usize, ItemFault>
    ensures count { result ≡ count_of params.now }
    ensures some { IfOk result (λ count. 0 < count) }
    ensures most { IfOk result (λ count. count ≤ 20) }
    ensures len { IfOk result (λ count. length params.now ≡ 2 + 12 * count) }
{
    if params.len() < 2 {
        return Err(ItemFault::Short);
    }
    let count = usize::from(params[1]);
    if count == 0 || count > MOST_ITEMS {
        return Err(ItemFault::Count);
    }
    if params.len() != 2 + ITEM_LEN * count {
        return Err(ItemFault::Short);
    }
    Ok(count)
}

/// Reads `count` items from the octets, twelve octets each.
fn read_each(octets: &[u8], count: usize, into: &mut Items) -> Result<(), ItemFault>
    requires len { length octets.now ≡ 12 * count }
    requires most { count ≤ 20 }
    requires empty { into.old ≡ [] }
    ensures read { Gives (ok_or (items_in count octets.now) ItemFault.Spec) result into.new }
    ensures many { OnOk result (length into.new ≡ count) }
    ensures addresses { OnOk result (All (λ item. item.address < 2 ^ 24) into.new) }
{
    for k in 0..count {
        let at = ITEM_LEN * k;
        match Item::read(&octets[at..at + ITEM_LEN]) {
            Some(item) => into.push(item),
            None => {
                into.clear();
                return Err(ItemFault::Spec);
            }
        }
    }
    Ok(())
}

/// Writes the parameters of a read (04) or write (05) telegram: the function, the number of items, and twelve
/// octets for each item. Returns the number of octets written. There is at least one item, every address is below
/// 2^24, and `into` has room for the parameters; the rest of `into` stays.
pub fn write_items(function: u8, items: &Items, into: &mut [u8]) -> usize
    requires some { 0 < length items.now }
    requires room { 2 + 12 * length items.now ≤ length into.old }
    requires addresses { All (λ item. item.address < 2 ^ 24) items.now }
    ensures len { result ≡ length (items_params function items.now) }
    ensures written { into.new ≡ items_params function items.now ++ drop result into.old }
{
    into[0] = function;
    into[1] = items.len() as u8;
    write_each(items.as_slice(), &mut into[2..]);
    2 + ITEM_LEN * items.len()
}

/// Writes the octets of the items, one item after another.
fn write_each(items: &[Item], into: &mut [u8])
    requires room { 12 * length items.now ≤ length into.old }
    requires addresses { All (λ item. item.address < 2 ^ 24) items.now }
    ensures { into.new ≡ flat_map item_octets items.now ++ drop (12 * length items.now) into.old }
{
    for (k, item) in items.iter().enumerate() {
        let at = ITEM_LEN * k;
        into[at..at + ITEM_LEN].copy_from_slice(&item.octets());
    }
}
