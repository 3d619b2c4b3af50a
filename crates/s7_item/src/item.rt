//! Items of read and write telegrams.
ghost use Rattle.std.specs.Prelude.{◌≡◌, ◌<◌, ◌≤◌, ◌^◌, length, IfSome, option_map};

use crate::numbers::{three_octets, two_octets};
use crate::size_of;
use bytes::Buf;

/// The length of an item in a telegram, in octets.
pub(crate) const ITEM_LEN: usize = 12;

/// The first octets of each item: variable specification, the number of octets that follow, and the syntax, which
/// gives an area, an address and a number of elements.
const SPECIFICATION: [u8; 3] = [0x12, 0x0A, 0x10];

/// An item of a read or write telegram, with its fields as sent: `count` elements of the word length `word` in the
/// area `area`, from `address` on. For data blocks `db` is the block's number. The address has three octets in the
/// telegram.
#[derive(Clone, Copy, Debug, Default, PartialEq, Eq)]
pub struct Item {
    /// The code of the area.
    pub area: u8,
    /// The number of the data block.
    pub db: u16,
    /// The word length of an element.
    pub word: u8,
    /// The number of elements.
    pub count: u16,
    /// Where the first element is: octet times 8 plus bit, or the number of a counter or timer.
    pub address: u32,
}

impl Item {
    ghost use Rattle.s7_item.specs.Item.{item_octets, item_in, octet_count};

    /// The item that these twelve octets spell; `None` if they don't begin `12 0A 10`.
    pub(crate) fn read(octets: &[u8]) -> Option<Item>
        requires { length octets.now ≡ 12 }
        ensures item { result ≡ item_in octets.now }
        ensures address { IfSome result (λ item. item.address < 2 ^ 24) }
    {
        if !octets.starts_with(&SPECIFICATION) {
            return None;
        }
        let mut rest = &octets[3..];
        let word = rest.get_u8();
        let count = rest.get_u16();
        let db = rest.get_u16();
        let area = rest.get_u8();
        let address = u32::from(rest.get_u8()) * 0x1_0000 + u32::from(rest.get_u16());
        Some(Item {
            area,
            db,
            word,
            count,
            address,
        })
    }

    /// The octets of the item in a telegram.
    pub(crate) fn octets(&self) -> [u8; 12]
        requires { self.now.address < 2 ^ 24 }
        ensures { result ≡ item_octets self.now }
    {
        let [specification, len, syntax] = SPECIFICATION;
        let [count_high, count_low] = two_octets(self.count);
        let [db_high, db_low] = two_octets(self.db);
        let [high, middle, low] = three_octets(self.address);
        [
            specification,
            len,
            syntax,
            self.word,
            count_high,
            count_low,
            db_high,
            db_low,
            self.area,
            high,
            middle,
            low,
        ]
    }

    /// The number of octets of all elements together; 0 if the word length is unknown.
    pub fn octet_count(&self) -> usize
        ensures count { result ≡ octet_count self.now }
        ensures most { result ≤ 262140 }
    {
        usize::from(self.count) * usize::from(size_of(self.word).unwrap_or(0))
    }
}
