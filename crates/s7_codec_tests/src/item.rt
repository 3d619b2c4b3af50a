//! Tests of items: their words, the lists of items of a telegram, data items, and the sizes of requests and answers.
use crate::rows::all_hold;
use s7_item::{
    DataFault, DataItems, DataPlace, Item, ItemFault, Items, answer_size, carries, is_good,
    padding_of, read_data_items, read_items, request_size, size_of, stated_length, transport_of,
    write_data_item, write_items,
};

/// Four bytes of data block 1.
const BYTES: Item = Item {
    area: 0x84,
    db: 1,
    word: 0x02,
    count: 4,
    address: 0,
};

/// What words, items and data items are, or aren't.
enum Case {
    /// A word, the octets of one of it, and its transport size.
    Word(u8, Option<u16>, u8),
    /// Parameters that hold no items, and their fault.
    BadItems(&'static [u8], ItemFault),
    /// Octets, the number of data items that they are, and the number and the place of one of these.
    Placed(&'static [u8], usize, usize, DataPlace),
    /// Octets, the number of data items that they aren't, and the fault.
    BadData(&'static [u8], usize, DataFault),
    /// A data item: the return code, the word, the octets, whether the item is the last, and the octets written.
    Written(u8, u8, &'static [u8], bool, &'static [u8]),
    /// A transport size, a number of octets, and the length that is stated for them.
    Stated(u8, usize, usize),
    /// A return code, and whether it is good.
    Good(u8, bool),
    /// A return code, and whether it carries octets.
    Carries(u8, bool),
    /// The length of a data item, whether it is the last, and the number of octets that pad it.
    Padded(usize, bool, usize),
}

/// The octets of three data items.
const THREE: &[u8] = b"\x00\x04\x00\x08\xAA\x00\x00\x04\x00\x08\xBB\x00\x00\x04\x00\x08\xCC";

/// The cases.
const CASES: &[Case] = &[
    // Words have sizes and transport sizes.
    Case::Word(0x01, Some(1), 0x03),
    Case::Word(0x02, Some(1), 0x04),
    Case::Word(0x03, Some(1), 0x09),
    Case::Word(0x04, Some(2), 0x04),
    Case::Word(0x05, Some(2), 0x05),
    Case::Word(0x06, Some(4), 0x04),
    Case::Word(0x07, Some(4), 0x05),
    Case::Word(0x08, Some(4), 0x07),
    Case::Word(0x1C, Some(2), 0x09),
    Case::Word(0x1D, Some(2), 0x09),
    Case::Word(0x09, None, 0x00),
    // Parameters without items are refused, and leave none.
    Case::BadItems(b"\x04", ItemFault::Short),
    Case::BadItems(b"\x04\x00", ItemFault::Count),
    Case::BadItems(b"\x04\x15", ItemFault::Count),
    Case::BadItems(
        b"\x04\x01\x12\x0A\x10\x02\x00\x04\x00\x01\x84\x00\x00",
        ItemFault::Short,
    ),
    Case::BadItems(
        b"\x04\x01\x12\x0A\x10\x02\x00\x04\x00\x01\x84\x00\x00\x00\x00",
        ItemFault::Short,
    ),
    Case::BadItems(
        b"\x04\x01\x12\x0A\x11\x02\x00\x04\x00\x01\x84\x00\x00\x00",
        ItemFault::Spec,
    ),
    // Three data items are found at their places.
    Case::Placed(
        THREE,
        3,
        0,
        DataPlace {
            transport: 0x04,
            from: 4,
            len: 1,
        },
    ),
    Case::Placed(
        THREE,
        3,
        1,
        DataPlace {
            transport: 0x04,
            from: 10,
            len: 1,
        },
    ),
    Case::Placed(
        THREE,
        3,
        2,
        DataPlace {
            transport: 0x04,
            from: 16,
            len: 1,
        },
    ),
    // Octets that aren't data items are refused, and leave no places.
    Case::BadData(
        b"\x00\x04\x00\x08\xAA\x00\x00\x04\x00\x08",
        2,
        DataFault::Short,
    ),
    Case::BadData(b"\x00\x04\x00\x08\xAA", 2, DataFault::Short),
    Case::BadData(b"\x00\x04\x00\x08\xAA\x00", 1, DataFault::Rest),
    Case::BadData(b"\x00\x06\x00\x08\xAA", 1, DataFault::Transport),
    Case::BadData(b"\x00\x06", 1, DataFault::Transport),
    Case::BadData(b"\x00\x04\x00\x09\xAA", 1, DataFault::Short),
    Case::BadData(b"\x00", 0, DataFault::Rest),
    // Data items are written as their octets.
    Case::Written(
        0xFF,
        0x02,
        b"\x11\x22\x33\x44",
        true,
        b"\xFF\x04\x00\x20\x11\x22\x33\x44",
    ),
    Case::Written(0xFF, 0x02, b"\x11", false, b"\xFF\x04\x00\x08\x11\x00"),
    Case::Written(0x00, 0x02, b"\xAA", true, b"\x00\x04\x00\x08\xAA"),
    Case::Written(0x0A, 0x02, b"", false, b"\x0A\x00\x00\x00"),
    Case::Written(0xFF, 0x01, b"\x01", true, b"\xFF\x03\x00\x01\x01"),
    Case::Written(0xFF, 0x1C, b"\x00\x02", true, b"\xFF\x09\x00\x02\x00\x02"),
    Case::Written(
        0xFF,
        0x08,
        b"\x41\x20\x00\x00",
        true,
        b"\xFF\x07\x00\x04\x41\x20\x00\x00",
    ),
    // Data items state their lengths.
    Case::Stated(0x03, 1, 1),
    Case::Stated(0x03, 2, 16),
    Case::Stated(0x04, 4, 32),
    Case::Stated(0x05, 2, 16),
    Case::Stated(0x07, 4, 4),
    Case::Stated(0x09, 1, 1),
    // Return codes are good or carry octets, and data items of odd lengths are padded, except the last.
    Case::Good(0xFF, true),
    Case::Good(0x00, false),
    Case::Carries(0x00, true),
    Case::Carries(0x0A, false),
    Case::Padded(3, false, 1),
    Case::Padded(3, true, 0),
    Case::Padded(4, false, 0),
];

/// Reports whether a word has this size and this transport size.
fn has_sizes(word: u8, size: Option<u16>, transport: u8) -> bool {
    size_of(word) == size && transport_of(word) == transport
}

/// Reports whether the parameters have this fault, and leave no items in a list that had one.
fn have_fault(params: &[u8], fault: ItemFault) -> bool {
    let mut items = Items::new();
    items.push(BYTES);
    read_items(params, &mut items) == Err(fault) && items.is_empty()
}

/// The place of the data item of this number, of `count` data items.
fn place_of(octets: &[u8], count: usize, number: usize) -> Option<DataPlace> {
    let mut places = DataItems::new();
    if count > 20 || read_data_items(octets, count, &mut places).is_err() || places.len() != count {
        return None;
    }
    places.get(number)
}

/// Reports whether octets have this fault if this number of data items is read, and no places are left.
fn have_data_fault(octets: &[u8], count: usize, fault: DataFault) -> bool {
    let mut places = DataItems::new();
    count <= 20 && read_data_items(octets, count, &mut places) == Err(fault) && places.is_empty()
}

/// Reports whether a data item is written as these octets.
fn is_written(code: u8, word: u8, octets: &[u8], last: bool, wanted: &[u8]) -> bool {
    if size_of(word).is_none() || octets.len() > 4 {
        return false;
    }
    let mut into = [0x77u8; 10];
    let len = write_data_item(code, word, octets, last, &mut into);
    len == wanted.len() && into.starts_with(wanted)
}

/// Reports whether this length is stated for `len` octets.
fn is_stated(transport: u8, len: usize, stated: usize) -> bool {
    len <= 262_140 && stated_length(transport, len) == stated
}

/// Reports whether a case holds.
fn holds(case: &Case) -> bool {
    match *case {
        Case::Word(word, size, transport) => has_sizes(word, size, transport),
        Case::BadItems(params, fault) => have_fault(params, fault),
        Case::Placed(octets, count, number, place) => place_of(octets, count, number)
            == Some(place),
        Case::BadData(octets, count, fault) => have_data_fault(octets, count, fault),
        Case::Written(code, word, octets, last, wanted) => is_written(
            code, word, octets, last, wanted,
        ),
        Case::Stated(transport, len, stated) => is_stated(transport, len, stated),
        Case::Good(code, good) => is_good(code) == good,
        Case::Carries(code, carried) => carries(code) == carried,
        Case::Padded(len, last, padding) => padding_of(len, last) == padding,
    }
}

/// The number of the first case that doesn't hold.
fn unmet(cases: &[Case]) -> Option<usize> {
    for (number, case) in cases.iter().enumerate() {
        if !holds(case) {
            return Some(number);
        }
    }
    None
}

/// Words, items and data items are what the cases say.
#[test]
fn words_items_and_data_items_are_so(rt: HostRuntime) {
    all_hold(&rt, unmet(CASES));
}

/// Reports whether there is one item, `BYTES`.
fn are_bytes(items: &Items) -> bool {
    items.len() == 1 && items.get(0) == Some(BYTES) && items.get(1) == None
}

/// Reports whether parameters are read as the item `BYTES`, which is written as these.
fn is_read_and_written(params: &[u8; 14]) -> bool {
    let mut items = Items::new();
    let Ok(()) = read_items(params, &mut items) else {
        return false;
    };
    let mut into = [0u8; 14];
    are_bytes(&items) && write_items(0x04, &items, &mut into) == 14 && into == *params
}

/// An item is read from parameters, and written as these.
#[test]
fn an_item_is_read_and_written(rt: HostRuntime) {
    let params = b"\x04\x01\x12\x0A\x10\x02\x00\x04\x00\x01\x84\x00\x00\x00";
    assert!(rt; is_read_and_written(params));
}

/// The sizes of requests and answers of twenty items are foreseen.
#[test]
fn sizes_are_foreseen(rt: HostRuntime) {
    let mut items = Items::new();
    for _ in 0..20usize {
        items.push(Item { count: 1, ..BYTES });
    }
    assert!(rt;
        answer_size(&items) == 14 + 19 * 6 + 5
            && request_size(&items, false) == 252
            && request_size(&items, true) == 252 + 19 * 6 + 5
    );
}
