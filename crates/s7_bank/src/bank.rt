//! The bank of an area.
ghost use Rattle.std.specs.Prelude.{◌≡◌, ◌<◌};
ghost use Rattle.s7_bank.specs.Areas.{bank_of, bank_of_item, bank_of_key};

use s7_area::AreaKey;
use s7_item::Item;
use s7_item::codes::DATA_BLOCKS;

/// The bank of the area of this name, if there are `banks` banks. A data block is in the bank whose index is its number
/// modulo `banks`, and every other area is in bank 0. The area needn't be registered.
pub fn bank_of_key(banks: u8, key: AreaKey) -> u8
    requires { 0 < banks }
    ensures bank { result ≡ bank_of_key banks key }
    ensures within { result < banks }
{
    bank_of(banks, key.area, key.number)
}

/// The bank of the area that an item lies in.
pub fn bank_of_item(banks: u8, item: &Item) -> u8
    requires { 0 < banks }
    ensures bank { result ≡ bank_of_item banks item.now }
    ensures within { result < banks }
{
    bank_of(banks, item.area, item.db)
}

/// The bank of an area of this kind and number.
pub(crate) fn bank_of(banks: u8, area: u8, number: u16) -> u8
    requires { 0 < banks }
    ensures bank { result ≡ bank_of banks area number }
    ensures within { result < banks }
{
    if area == DATA_BLOCKS {
        (number % u16::from(banks)) as u8
    } else {
        0
    }
}
