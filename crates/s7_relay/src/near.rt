//! The codes with which items are refused near, and the items that are asked far.
ghost use Rattle.std.specs.Prelude.{◌≡◌, ◌<◌, ◌≤◌, ◌+◌, ◌^◌, All, length, map};
ghost use Rattle.s7_item.specs.Codes.{good};
ghost use Rattle.s7_relay.specs.Windows.{far_item, near_code, near_put_code, put_codes};

use crate::windows::Windows;
use arrayvec::ArrayVec;
use s7_area::{is_inside, is_misfit, key_of};
use s7_item::codes::{GOOD, NO_AREA, OUT_OF_RANGE, WRONG_SIZE, WRONG_WORD};
use s7_item::{DataItems, Item, Items};

/// The near codes of a telegram's items, at most twenty.
pub type NearCodes = ArrayVec<u8, 20>;

/// The code of an item that is read near. It is FF if the item is inside its window. Otherwise it is the code with
/// which an area refuses the item: 06 if the word doesn't fit, 0A if no window has the area, and 05 if the item isn't
/// inside the window.
pub fn near_code(windows: &Windows, item: &Item) -> u8
    ensures { result ≡ near_code windows.now item.now }
{
    if is_misfit(item) {
        return WRONG_WORD;
    }
    let Some(window) = windows.window_of(key_of(item)) else {
        return NO_AREA;
    };
    if is_inside(item, window.length as usize) {
        GOOD
    } else {
        OUT_OF_RANGE
    }
}

/// The code of an item that is written near with these octets. It is the code of a read, or 07 if that is FF and the
/// number of octets isn't the item's.
pub fn near_put_code(windows: &Windows, item: &Item, octets: &[u8]) -> u8
    ensures { result ≡ near_put_code windows.now item.now octets.now }
{
    let code = near_code(windows, item);
    if code == GOOD && octets.len() != item.octet_count() {
        WRONG_SIZE
    } else {
        code
    }
}

/// The codes of the items of a read.
pub fn near_codes(windows: &Windows, items: &Items) -> NearCodes
    ensures { result.items ≡ map (near_code windows.now) items.now }
{
    let items = items.as_slice();
    let mut codes = NearCodes::new();
    for item in items {
        codes.push(near_code(windows, item));
    }
    codes
}

/// The codes of the items of a write; `places` are the ranges of their octets.
pub fn put_codes(windows: &Windows, items: &Items, places: &DataItems, octets: &[u8]) -> NearCodes
    requires places { length places.now ≡ length items.now }
    requires inside { All (λ place. place.from + place.len ≤ length octets.now) places.now }
    ensures { result.items ≡ put_codes windows.now items.now places.now octets.now }
{
    let items = items.as_slice();
    let places = places.as_slice();
    let mut codes = NearCodes::new();
    for k in 0..items.len() {
        let place = places[k];
        codes.push(near_put_code(
            windows,
            &items[k],
            &octets[place.from..place.from + place.len],
        ));
    }
    codes
}

/// The far item of an item that is inside its window. It is in the far area, further on by the window's offset. Its
/// address fits the three octets that a telegram has for it.
pub fn far_item(windows: &Windows, item: &Item) -> Item
    requires { near_code windows.now item.now ≡ good }
    ensures item { result ≡ far_item windows.now item.now }
    ensures address { result.address < 2 ^ 24 }
{
    let Some(window) = windows.window_of(key_of(item)) else {
        return *item;
    };
    Item {
        area: window.far.area,
        db: window.far.number,
        word: item.word,
        count: item.count,
        address: item.address + 8 * window.offset,
    }
}
