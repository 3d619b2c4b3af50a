//! The sizes of telegrams, before they are written.
ghost use Rattle.std.specs.Prelude.{◌≡◌, ◌*◌, ◌≤◌, length, map};
ghost use Rattle.s7_item.specs.Item.{octet_count};
ghost use Rattle.s7_item.specs.Sizes.{data_size, answer_size, request_size};

use crate::item::ITEM_LEN;
use crate::{Item, Items, padding_of};

/// The size in octets of the answer to a read of these items, if every item of a known word length has all its
/// octets. An item of an unknown word length takes four octets. The 14 octets before the data items are counted.
pub fn answer_size(items: &Items) -> u32
    ensures { result ≡ answer_size items.now }
{
    14 + data_size(items.as_slice()) as u32
}

/// The size in octets of a request for these items: of a read request, or, if `write` is true, of a write request
/// with all octets of every item of a known word length.
pub fn request_size(items: &Items, write: bool) -> u32
    ensures { result ≡ request_size items.now write }
{
    let head = 12 + ITEM_LEN * items.len();
    let size = if write {
        head + data_size(items.as_slice())
    } else {
        head
    };
    size as u32
}

/// The number of octets of data items that have all octets of these items.
fn data_size(items: &[Item]) -> usize
    requires { length items.now ≤ 20 }
    ensures size { result ≡ data_size (map octet_count items.now) }
    ensures most { result ≤ 262145 * length items.now }
{
    let mut size = 0;
    for (k, item) in items.iter().enumerate() {
        let count = item.octet_count();
        size += 4 + count + padding_of(count, k + 1 == items.len());
    }
    size
}
