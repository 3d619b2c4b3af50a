//! Windows on areas of another server: windows files, near codes and far items.
use crate::rows::all_hold;
use s7_area::AreaKey;
use s7_item::{DataItems, Item, Items, read_data_items, write_items};
use s7_relay::{
    Window, WindowKind, Windows, far_item, near_code, near_codes, near_put_code, put_codes,
    read_windows,
};
use std::alloc::Global;

/// The key of the inputs.
const INPUTS: AreaKey = AreaKey {
    area: 0x81,
    number: 0,
};

/// The key of the outputs.
const OUTPUTS: AreaKey = AreaKey {
    area: 0x82,
    number: 0,
};

/// The key of the flags.
const FLAGS: AreaKey = AreaKey {
    area: 0x83,
    number: 0,
};

/// The key of data block 1.
const DB1: AreaKey = AreaKey {
    area: 0x84,
    number: 1,
};

/// The key of data block 7.
const DB7: AreaKey = AreaKey {
    area: 0x84,
    number: 7,
};

/// The key of data block 8.
const DB8: AreaKey = AreaKey {
    area: 0x84,
    number: 8,
};

/// The key of data block 65,535.
const DB65535: AreaKey = AreaKey {
    area: 0x84,
    number: 65_535,
};

/// Three windows: the second shows octets that the first shows too, and the third ends where addresses end.
const FILE: &[u8] = b"DB1 4 = DB7 10\nMK 2 = DB7 12\nPE 3 = PA 2097149\n";

/// Windows of each kind, with comments and an empty line.
const MANY: &[u8] = b"# plant 2\n\nDB1 4 = DB7 10\r\nPE 16 = PA 0\n#x\nMK 2 = MK 2097150\n\
    DB65535 1 = DB1 2097151\nPA 2097152 = PE 0\nDB007 0000000003 = DB08 04";

/// Near area, length, far area and offset of a window.
type Terms = (AreaKey, u32, AreaKey, u32);

/// An item: the area, the data block, the word, the count and the address.
type Place = (u8, u16, u8, u16, u32);

/// What windows files say, and what becomes of items. The items are those of `FILE`.
enum Case {
    /// A file, and the number of its windows.
    Count(&'static [u8], usize),
    /// The number of a window of `MANY`, and what it says.
    Window(usize, Terms),
    /// A file, its first wrong line, and what is wrong with that line.
    Wrong(&'static [u8], u32, WindowKind),
    /// An item that is read, and its code.
    Read(Place, u8),
    /// An item that is written, its octets, and its code.
    Put(Place, &'static [u8], u8),
    /// A near item, and its far one.
    Far(Place, Place),
}

/// Windows that are read, and files without windows.
const WINDOWS: &[Case] = &[
    // Windows are read.
    Case::Count(MANY, 6),
    Case::Window(0, (DB1, 4, DB7, 10)),
    Case::Window(1, (INPUTS, 16, OUTPUTS, 0)),
    Case::Window(2, (FLAGS, 2, FLAGS, 2_097_150)),
    Case::Window(3, (DB65535, 1, DB1, 2_097_151)),
    Case::Window(4, (OUTPUTS, 2_097_152, INPUTS, 0)),
    Case::Window(5, (DB7, 3, DB8, 4)),
    // Files without windows are read.
    Case::Count(b"", 0),
    Case::Count(b"\n", 0),
    Case::Count(b"\r\n", 0),
    Case::Count(b"#", 0),
    Case::Count(b"\n# DB1 x\n\r\n#\n", 0),
];

/// First wrong lines are told.
const WRONG_LINES: &[Case] = &[
    Case::Wrong(b"DB1 4 = DB7", 1, WindowKind::Fields),
    Case::Wrong(b"DB1 4 = DB7 10 ", 1, WindowKind::Fields),
    Case::Wrong(b"DB1 4 = DB7 10 0", 1, WindowKind::Fields),
    Case::Wrong(b"DB1 4  = DB7 10", 1, WindowKind::Fields),
    Case::Wrong(b"DB1 4 : DB7 10", 1, WindowKind::Fields),
    Case::Wrong(b"DB1 4 == DB7 10", 1, WindowKind::Fields),
    Case::Wrong(b"DB1 = 4 DB7 10", 1, WindowKind::Fields),
    Case::Wrong(b"DB1 4 =\tDB7 10", 1, WindowKind::Fields),
    Case::Wrong(b"CT x : TM y", 1, WindowKind::Fields),
    Case::Wrong(b"CT x = TM y z", 1, WindowKind::Fields),
    Case::Wrong(b"#\n\n ", 3, WindowKind::Fields),
    Case::Wrong(b"\r", 1, WindowKind::Fields),
    Case::Wrong(b"CT 4 = DB7 10", 1, WindowKind::Word),
    Case::Wrong(b"DB1 4 = TM 10", 1, WindowKind::Word),
    Case::Wrong(b"db1 4 = DB7 10", 1, WindowKind::Word),
    Case::Wrong(b"PE1 4 = DB7 10", 1, WindowKind::Word),
    Case::Wrong(b"DB1 4 = D 10", 1, WindowKind::Word),
    Case::Wrong(b" 4 = DB7 10", 1, WindowKind::Word),
    Case::Wrong(b"DB1 4 =  10", 1, WindowKind::Word),
    Case::Wrong(b"DB0 0 = XX x", 1, WindowKind::Word),
    Case::Wrong(b"DB0 4 = DB7 10", 1, WindowKind::Number),
    Case::Wrong(b"DB65536 4 = DB7 10", 1, WindowKind::Number),
    Case::Wrong(b"DB 4 = DB7 10", 1, WindowKind::Number),
    Case::Wrong(b"DBx 4 = DB7 10", 1, WindowKind::Number),
    Case::Wrong(b"DB1 0 = DB7 10", 1, WindowKind::Number),
    Case::Wrong(b"DB1 x = DB7 10", 1, WindowKind::Number),
    Case::Wrong(b"DB1 +4 = DB7 10", 1, WindowKind::Number),
    Case::Wrong(b"DB1 00000000004 = DB7 10", 1, WindowKind::Number),
    Case::Wrong(b"DB1 2097153 = DB7 0", 1, WindowKind::Number),
    Case::Wrong(b"DB1 4 = DB0 10", 1, WindowKind::Number),
    Case::Wrong(b"DB1 4 = DB65536 10", 1, WindowKind::Number),
    Case::Wrong(b"DB1 4 = DB7 ", 1, WindowKind::Number),
    Case::Wrong(b"DB1 4 = DB7 -1", 1, WindowKind::Number),
    Case::Wrong(b"DB1 4 = DB7 10\r", 1, WindowKind::Number),
    Case::Wrong(b"DB1 1 = DB7 2097152", 1, WindowKind::Number),
    Case::Wrong(b"DB1 2097152 = DB7 1", 1, WindowKind::Number),
    Case::Wrong(b"DB1 4294967297 = DB7 0", 1, WindowKind::Number),
    Case::Wrong(b"PE 1 = PE 0\nPE 1 = PE 0 ", 2, WindowKind::Fields),
    Case::Wrong(b"PE 1 = PE 0\nPE 1 = CT 0", 2, WindowKind::Word),
    Case::Wrong(b"PE 1 = PE 0\nPE 0 = PE 0", 2, WindowKind::Number),
    Case::Wrong(b"PE 1 = PE 0\r\n#\n\nPE 2 = MK 9\nx", 4, WindowKind::Double),
    Case::Wrong(
        b"DB1 4 = DB7 0\nDB2 4 = DB7 0\nDB01 1 = DB8 0",
        3,
        WindowKind::Double,
    ),
    Case::Wrong(
        b"DB1 4 = DB7 0\nMK 0 = DB7 0\nDB1 4 = DB7 0",
        2,
        WindowKind::Number,
    ),
];

/// Items that are read and written have codes, and far items lie where windows say.
const ITEMS: &[Case] = &[
    // Items that are read have codes.
    Case::Read((0x84, 1, 0x02, 4, 0), 0xFF),
    Case::Read((0x84, 1, 0x02, 5, 0), 0x05),
    Case::Read((0x84, 1, 0x02, 1, 24), 0xFF),
    Case::Read((0x84, 1, 0x02, 2, 24), 0x05),
    Case::Read((0x84, 1, 0x02, 1, 32), 0x05),
    Case::Read((0x84, 1, 0x02, 0, 0), 0x05),
    Case::Read((0x84, 1, 0x04, 2, 0), 0xFF),
    Case::Read((0x84, 1, 0x04, 2, 8), 0x05),
    Case::Read((0x84, 1, 0x08, 1, 7), 0xFF),
    Case::Read((0x84, 1, 0x08, 1, 8), 0x05),
    Case::Read((0x84, 1, 0x01, 1, 31), 0xFF),
    Case::Read((0x84, 1, 0x01, 1, 32), 0x05),
    Case::Read((0x84, 1, 0x01, 2, 0), 0x06),
    Case::Read((0x84, 1, 0x01, 0, 0), 0x06),
    Case::Read((0x84, 1, 0x09, 1, 0), 0x06),
    Case::Read((0x84, 1, 0x1C, 1, 0), 0x06),
    Case::Read((0x84, 2, 0x02, 4, 0), 0x0A),
    Case::Read((0x84, 2, 0x02, 0, 0), 0x0A),
    Case::Read((0x84, 2, 0x09, 4, 0), 0x06),
    Case::Read((0x84, 7, 0x02, 1, 80), 0x0A),
    Case::Read((0x83, 0, 0x02, 2, 0), 0xFF),
    Case::Read((0x83, 9, 0x02, 2, 0), 0xFF),
    Case::Read((0x83, 0, 0x02, 3, 0), 0x05),
    Case::Read((0x81, 0, 0x02, 3, 0), 0xFF),
    Case::Read((0x81, 0, 0x02, 1, 24), 0x05),
    Case::Read((0x81, 0, 0x02, 65_535, 16_777_215), 0x05),
    Case::Read((0x82, 0, 0x02, 1, 0), 0x0A),
    Case::Read((0x80, 0, 0x02, 1, 0), 0x0A),
    Case::Read((0x1C, 0, 0x1C, 1, 0), 0x0A),
    Case::Read((0x1C, 0, 0x02, 1, 0), 0x06),
    Case::Read((0x1D, 0, 0x1D, 1, 0), 0x0A),
    Case::Read((0x1D, 0, 0x1C, 1, 0), 0x06),
    // Items that are written have codes.
    Case::Put((0x84, 1, 0x02, 4, 0), b"\x11\x22\x33\x44", 0xFF),
    Case::Put((0x84, 1, 0x02, 4, 0), b"\x11\x22\x33", 0x07),
    Case::Put((0x84, 1, 0x02, 4, 0), b"\x11\x22\x33\x44\x55", 0x07),
    Case::Put((0x84, 1, 0x02, 4, 0), b"", 0x07),
    Case::Put((0x84, 1, 0x05, 2, 0), b"\x11\x22\x33\x44", 0xFF),
    Case::Put((0x84, 1, 0x05, 2, 0), b"\x11\x22", 0x07),
    Case::Put((0x84, 1, 0x01, 1, 31), b"\x01", 0xFF),
    Case::Put((0x84, 1, 0x01, 1, 31), b"\x01\x00", 0x07),
    Case::Put((0x84, 1, 0x02, 5, 0), b"\x11", 0x05),
    Case::Put((0x84, 2, 0x02, 4, 0), b"\x11", 0x0A),
    Case::Put((0x84, 1, 0x09, 4, 0), b"", 0x06),
    // Far items lie where windows say.
    Case::Far((0x84, 1, 0x02, 4, 0), (0x84, 7, 0x02, 4, 80)),
    Case::Far((0x84, 1, 0x02, 1, 24), (0x84, 7, 0x02, 1, 104)),
    Case::Far((0x84, 1, 0x04, 1, 13), (0x84, 7, 0x04, 1, 93)),
    Case::Far((0x84, 1, 0x01, 1, 0), (0x84, 7, 0x01, 1, 80)),
    Case::Far((0x84, 1, 0x01, 1, 31), (0x84, 7, 0x01, 1, 111)),
    Case::Far((0x83, 0, 0x02, 1, 8), (0x84, 7, 0x02, 1, 104)),
    Case::Far((0x83, 5, 0x01, 1, 9), (0x84, 7, 0x01, 1, 105)),
    Case::Far((0x81, 0, 0x02, 3, 0), (0x82, 0, 0x02, 3, 16_777_192)),
    Case::Far((0x81, 7, 0x01, 1, 23), (0x82, 0, 0x01, 1, 16_777_215)),
];

/// What a window says.
fn terms_of(window: &Window) -> Terms {
    (window.near, window.length, window.far, window.offset)
}

/// How many windows a file says, or its first wrong line and what is wrong with it.
fn told_of(alloc: Global, text: &[u8]) -> Result<usize, (u32, WindowKind)> {
    match read_windows(alloc, text) {
        Ok(windows) => Ok(windows.as_slice().len()),
        Err(fault) => Err((fault.line, fault.kind)),
    }
}

/// Whether the window of this number of `MANY` says this.
fn is_window(alloc: Global, number: usize, terms: Terms) -> bool {
    match read_windows(alloc, MANY) {
        Ok(windows) => match windows.as_slice().get(number) {
            Some(window) => terms_of(window) == terms,
            None => false,
        },
        Err(_) => false,
    }
}

/// The item at a place.
fn item_at(place: Place) -> Item {
    let (area, db, word, count, address) = place;
    Item {
        area,
        db,
        word,
        count,
        address,
    }
}

/// The code of an item that is read.
fn code_of(alloc: Global, place: Place) -> Option<u8> {
    match read_windows(alloc, FILE) {
        Ok(windows) => Some(near_code(&windows, &item_at(place))),
        Err(_) => None,
    }
}

/// The code of an item that is written with these octets.
fn put_code_of(alloc: Global, place: Place, octets: &[u8]) -> Option<u8> {
    match read_windows(alloc, FILE) {
        Ok(windows) => Some(near_put_code(&windows, &item_at(place), octets)),
        Err(_) => None,
    }
}

/// The far item of an item over windows; none where its code isn't FF.
fn far_over(windows: &Windows, item: &Item) -> Option<Item> {
    if near_code(windows, item) != 0xFF {
        return None;
    }
    Some(far_item(windows, item))
}

/// The far item of an item; none where its code isn't FF.
fn far_of(alloc: Global, text: &[u8], place: Place) -> Option<Item> {
    match read_windows(alloc, text) {
        Ok(windows) => far_over(&windows, &item_at(place)),
        Err(_) => None,
    }
}

/// Whether a case holds.
fn holds(alloc: Global, case: &Case) -> bool {
    match *case {
        Case::Count(text, count) => told_of(alloc, text) == Ok(count),
        Case::Window(number, terms) => is_window(alloc, number, terms),
        Case::Wrong(text, line, kind) => told_of(alloc, text) == Err((line, kind)),
        Case::Read(place, code) => code_of(alloc, place) == Some(code),
        Case::Put(place, octets, code) => put_code_of(alloc, place, octets) == Some(code),
        Case::Far(near, far) => far_of(alloc, FILE, near) == Some(item_at(far)),
    }
}

/// The number of the first case that doesn't hold.
fn unmet(alloc: Global, cases: &[Case]) -> Option<usize> {
    for (number, case) in cases.iter().enumerate() {
        if !holds(alloc, case) {
            return Some(number);
        }
    }
    None
}

/// The number of the first window that is read otherwise. Each table stands in a function of its own, so that the test
/// is cheap to prove.
fn unmet_window(alloc: Global) -> Option<usize> {
    unmet(alloc, WINDOWS)
}

/// The number of the first wrong line that is told otherwise.
fn unmet_wrong_line(alloc: Global) -> Option<usize> {
    unmet(alloc, WRONG_LINES)
}

/// The number of the first item that has another code or another far item.
fn unmet_item(alloc: Global) -> Option<usize> {
    unmet(alloc, ITEMS)
}

/// Windows files are read, and items have codes and far items, as the cases say.
#[test]
fn windows_are_read_and_items_have_codes(rt: HostRuntime) {
    all_hold(&rt, unmet_window(rt.alloc()));
    all_hold(&rt, unmet_wrong_line(rt.alloc()));
    all_hold(&rt, unmet_item(rt.alloc()));
}

/// The items at three places.
fn items_at(first: Place, second: Place, third: Place) -> Items {
    let mut items = Items::new();
    items.push(item_at(first));
    items.push(item_at(second));
    items.push(item_at(third));
    items
}

/// Whether codes come in the order of items.
fn codes_come_in_order(windows: &Windows) -> bool {
    let items = items_at(
        (0x84, 1, 0x02, 5, 0),
        (0x83, 0, 0x02, 2, 0),
        (0x84, 2, 0x02, 1, 0),
    );
    near_codes(windows, &items).as_slice() == [0x05, 0xFF, 0x0A].as_slice()
        && near_codes(windows, &Items::new()).is_empty()
}

/// Whether these octets are a data item for each item, and the codes of the writes are these.
fn have_put_codes(windows: &Windows, items: &Items, octets: &[u8], codes: &[u8]) -> bool {
    let mut places = DataItems::new();
    if read_data_items(octets, 3, &mut places).is_err()
        || places.as_slice().len() != items.as_slice().len()
    {
        return false;
    }
    put_codes(windows, items, &places, octets).as_slice() == codes
}

/// Whether codes of writes go by the octets of each item.
fn codes_go_by_octets(windows: &Windows) -> bool {
    let items = items_at(
        (0x84, 1, 0x02, 4, 0),
        (0x84, 1, 0x02, 2, 0),
        (0x83, 0, 0x01, 1, 15),
    );
    let octets = b"\x00\x04\x00\x20\x11\x22\x33\x44\x00\x04\x00\x08\x55\x00\x00\x03\x00\x01\x01";
    have_put_codes(windows, &items, octets, &[0xFF, 0x07, 0xFF])
}

/// Whether the codes of several items are in order, and go by the octets of each.
fn codes_are_so(alloc: Global) -> bool {
    match read_windows(alloc, FILE) {
        Ok(windows) => codes_come_in_order(&windows) && codes_go_by_octets(&windows),
        Err(_) => false,
    }
}

/// Whether a far item is asked in these octets.
fn is_asked(far: Item, params: &[u8; 14]) -> bool {
    let mut items = Items::new();
    if far.address >= 0x100_0000 {
        return false;
    }
    items.push(far);
    let mut into = [0u8; 14];
    write_items(0x04, &items, &mut into) == 14 && into == *params
}

/// Whether a far item is asked in its octets.
fn far_is_asked(alloc: Global) -> bool {
    match far_of(alloc, b"DB1 4 = DB7 10", (0x84, 1, 0x02, 4, 0)) {
        Some(far) => is_asked(
            far,
            b"\x04\x01\x12\x0A\x10\x02\x00\x04\x00\x07\x84\x00\x00\x50",
        ),
        None => false,
    }
}

/// A window of data block 1 on data block 7.
const SHORT: Window = Window {
    near: DB1,
    length: 1,
    far: DB7,
    offset: 0,
};

/// A window of data block 1 on data block 8.
const LONG: Window = Window {
    near: DB1,
    length: 4,
    far: DB8,
    offset: 2,
};

/// Whether these are the two windows of data block 1, and the first one counts.
fn first_counts(windows: &Windows) -> bool {
    windows.as_slice() == [SHORT, LONG].as_slice()
        && windows.window_of(DB1) == Some(SHORT)
        && windows.window_of(DB7) == None
        && near_code(windows, &item_at((0x84, 1, 0x02, 1, 0))) == 0xFF
        && near_code(windows, &item_at((0x84, 1, 0x02, 2, 0))) == 0x05
}

/// Whether the first of two windows of an area counts.
fn the_first_window_counts(alloc: Global) -> bool {
    match Vec::from_slice(alloc, &[SHORT, LONG]) {
        Ok(windows) => first_counts(&Windows::of_vec(windows)),
        Err(_) => false,
    }
}

/// Codes of several items are in order, a far item is asked in its octets, and the first window of an area counts.
#[test]
fn codes_far_items_and_first_windows_are_so(rt: HostRuntime) {
    assert!(rt;
        codes_are_so(rt.alloc()) && far_is_asked(rt.alloc()) && the_first_window_counts(rt.alloc())
    );
}
