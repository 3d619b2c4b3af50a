//! Tests of values of tags as texts and as octets, and of tag files.
use crate::rows::all_hold;
use s7_symbol::{Tag, TagFaultKind, TagKind, ValueFault, octets_of, read_tags, text_of};
use std::alloc::{AllocError, Global};

/// Room for a text or octets.
type Room = [u8; 512];

/// Room that nothing was put into.
const EMPTY: Room = [0xEE; 512];

/// Puts the octets of a text into a room.
fn store(kind: TagKind, text: &[u8], room: &mut Room) -> Result<usize, ValueFault> {
    octets_of(kind, text, room)
}

/// Puts the text of octets into a room.
fn write(kind: TagKind, octets: &[u8], room: &mut Room) -> Result<usize, ValueFault> {
    text_of(kind, octets, room)
}

/// Reports whether the room begins with these octets, and nothing was put after them.
fn holds(room: &Room, octets: &[u8]) -> bool {
    let mut place = 0usize;
    for found in room {
        let wanted = match octets.get(place) {
            Some(octet) => *octet,
            None => 0xEE,
        };
        if *found != wanted {
            return false;
        }
        place = place.saturating_add(1);
    }
    octets.len() <= room.len()
}

/// Reports whether the octets of a text are these, or the text is refused for this fault and nothing is put.
fn is_stored(kind: TagKind, text: &[u8], wanted: Result<&[u8], ValueFault>) -> bool {
    let mut room = EMPTY;
    is_put(store(kind, text, &mut room), &room, wanted)
}

/// Reports whether the text of octets is this, or the octets are refused for this fault and nothing is put.
fn is_text(kind: TagKind, octets: &[u8], wanted: Result<&[u8], ValueFault>) -> bool {
    let mut room = EMPTY;
    is_put(write(kind, octets, &mut room), &room, wanted)
}

/// Reports whether a call answered so, and left the room so.
fn is_put(
    answer: Result<usize, ValueFault>,
    room: &Room,
    wanted: Result<&[u8], ValueFault>,
) -> bool {
    match (answer, wanted) {
        (Ok(count), Ok(octets)) => count == octets.len() && holds(room, octets),
        (Err(fault), Err(other)) => fault == other && holds(room, b""),
        _ => false,
    }
}

/// Reports whether the text has these octets, and the octets have this text. The room is overwritten.
fn is_value(kind: TagKind, text: &[u8], octets: &[u8], room: &mut Room) -> bool {
    store(kind, text, room) == Ok(octets.len())
        && room.starts_with(octets)
        && write(kind, octets, room) == Ok(text.len())
        && room.starts_with(text)
}

/// What texts, octets and tag files are read as.
enum Case {
    /// A type, the text of a value, and the octets of the value.
    Value(TagKind, &'static [u8], &'static [u8]),
    /// A type, a text that isn't a value, and the fault for which it is refused.
    BadText(TagKind, &'static [u8], ValueFault),
    /// A type, octets that aren't a value, and the fault for which they are refused.
    BadOctets(TagKind, &'static [u8], ValueFault),
    /// The room of a string, octets whose last ones the string doesn't use, and its text.
    Unused(u8, &'static [u8], &'static [u8]),
    /// The room of a string, and its number of characters.
    Length(u8, u8),
    /// A room for which a string of one more character is refused.
    TooLong(u8),
    /// A tag file with a fault, its first faulty line, and the fault of that line.
    BadLine(&'static [u8], u32, TagFaultKind),
    /// Lines after those of 2,048 tags, and what the file is read as.
    LastLine(&'static [u8], Result<usize, (u32, TagFaultKind)>),
}

/// Texts have the octets of the rows, and these octets have the texts.
const VALUES: &[Case] = &[
    Case::Value(TagKind::Bool, b"0", &[0x00]),
    Case::Value(TagKind::Bool, b"1", &[0x01]),
    Case::Value(TagKind::Int, b"0", &[0x00, 0x00]),
    Case::Value(TagKind::Int, b"-2", &[0xFF, 0xFE]),
    Case::Value(TagKind::Int, b"-1", &[0xFF, 0xFF]),
    Case::Value(TagKind::Int, b"258", &[0x01, 0x02]),
    Case::Value(TagKind::Int, b"-32768", &[0x80, 0x00]),
    Case::Value(TagKind::Int, b"32767", &[0x7F, 0xFF]),
    Case::Value(TagKind::Dint, b"0", &[0x00, 0x00, 0x00, 0x00]),
    Case::Value(TagKind::Dint, b"-1", &[0xFF, 0xFF, 0xFF, 0xFF]),
    Case::Value(TagKind::Dint, b"16909060", &[0x01, 0x02, 0x03, 0x04]),
    Case::Value(TagKind::Dint, b"-2147483648", &[0x80, 0x00, 0x00, 0x00]),
    Case::Value(TagKind::Dint, b"2147483647", &[0x7F, 0xFF, 0xFF, 0xFF]),
    Case::Value(TagKind::Bcd, b"907", &[0x09, 0x07]),
    Case::Value(TagKind::Bcd, b"9999", &[0x99, 0x99]),
    Case::Value(TagKind::S5Time, b"123.1", &[0x11, 0x23]),
    Case::Value(TagKind::S5Time, b"0.0", &[0x00, 0x00]),
    Case::Value(TagKind::S5Time, b"999.3", &[0x39, 0x99]),
    Case::Value(
        TagKind::Text(4),
        b"4142",
        &[0x04, 0x02, 0x41, 0x42, 0x00, 0x00],
    ),
    Case::Value(
        TagKind::Text(4),
        b"00ff7aa0",
        &[0x04, 0x04, 0x00, 0xFF, 0x7A, 0xA0],
    ),
    Case::Value(
        TagKind::Text(4),
        b"-",
        &[0x04, 0x00, 0x00, 0x00, 0x00, 0x00],
    ),
    Case::Value(TagKind::Text(1), b"41", &[0x01, 0x01, 0x41]),
    Case::Value(TagKind::Text(1), b"-", &[0x01, 0x00, 0x00]),
    Case::Value(
        TagKind::DateTime,
        b"2024-02-29T13:45:30.123",
        &[0x24, 0x02, 0x29, 0x13, 0x45, 0x30, 0x12, 0x35],
    ),
    Case::Value(
        TagKind::DateTime,
        b"1990-01-01T00:00:00.000",
        &[0x90, 0x01, 0x01, 0x00, 0x00, 0x00, 0x00, 0x02],
    ),
    Case::Value(
        TagKind::DateTime,
        b"2089-12-31T23:59:59.999",
        &[0x89, 0x12, 0x31, 0x23, 0x59, 0x59, 0x99, 0x97],
    ),
    Case::Value(
        TagKind::DateTime,
        b"1992-02-29T01:02:03.004",
        &[0x92, 0x02, 0x29, 0x01, 0x02, 0x03, 0x00, 0x47],
    ),
    Case::Value(
        TagKind::DateTime,
        b"2000-02-29T00:00:00.050",
        &[0x00, 0x02, 0x29, 0x00, 0x00, 0x00, 0x05, 0x03],
    ),
    Case::Value(
        TagKind::DateTime,
        b"2088-02-29T12:00:00.600",
        &[0x88, 0x02, 0x29, 0x12, 0x00, 0x00, 0x60, 0x01],
    ),
];

/// Texts that aren't values are refused.
const BAD_TEXTS: &[Case] = &[
    Case::BadText(TagKind::Bool, b"2", ValueFault::Range),
    Case::BadText(TagKind::Bool, b"10", ValueFault::Range),
    Case::BadText(TagKind::Bool, b"00", ValueFault::Form),
    Case::BadText(TagKind::Bool, b"-1", ValueFault::Form),
    Case::BadText(TagKind::Bool, b"", ValueFault::Form),
    Case::BadText(TagKind::Bool, b"true", ValueFault::Form),
    Case::BadText(TagKind::Int, b"32768", ValueFault::Range),
    Case::BadText(TagKind::Int, b"-32769", ValueFault::Range),
    Case::BadText(TagKind::Int, b"65536", ValueFault::Range),
    Case::BadText(TagKind::Int, b"100000000000000000000000", ValueFault::Range),
    Case::BadText(TagKind::Int, b"-18446744073709551617", ValueFault::Range),
    Case::BadText(TagKind::Int, b"007", ValueFault::Form),
    Case::BadText(TagKind::Int, b"-07", ValueFault::Form),
    Case::BadText(TagKind::Dint, b"2147483648", ValueFault::Range),
    Case::BadText(TagKind::Dint, b"-2147483649", ValueFault::Range),
    Case::BadText(TagKind::Dint, b"4294967296", ValueFault::Range),
    Case::BadText(TagKind::Dint, b"-0", ValueFault::Form),
    Case::BadText(TagKind::Dint, b"+7", ValueFault::Form),
    Case::BadText(TagKind::Dint, b"-", ValueFault::Form),
    Case::BadText(TagKind::Dint, b"--1", ValueFault::Form),
    Case::BadText(TagKind::Dint, b" 1", ValueFault::Form),
    Case::BadText(TagKind::Dint, b"1e3", ValueFault::Form),
    Case::BadText(TagKind::Dint, b"", ValueFault::Form),
    Case::BadText(TagKind::Bcd, b"10000", ValueFault::Range),
    Case::BadText(TagKind::Bcd, b"0907", ValueFault::Form),
    Case::BadText(TagKind::Bcd, b"-1", ValueFault::Form),
    Case::BadText(TagKind::Bcd, b"1A", ValueFault::Form),
    Case::BadText(TagKind::S5Time, b"1000.0", ValueFault::Range),
    Case::BadText(TagKind::S5Time, b"1.4", ValueFault::Range),
    Case::BadText(TagKind::S5Time, b"1.10", ValueFault::Range),
    Case::BadText(TagKind::S5Time, b"01.1", ValueFault::Form),
    Case::BadText(TagKind::S5Time, b"1.01", ValueFault::Form),
    Case::BadText(TagKind::S5Time, b"1.2.3", ValueFault::Form),
    Case::BadText(TagKind::S5Time, b"12", ValueFault::Form),
    Case::BadText(TagKind::S5Time, b".1", ValueFault::Form),
    Case::BadText(TagKind::S5Time, b"1.", ValueFault::Form),
    Case::BadText(TagKind::S5Time, b"-1.1", ValueFault::Form),
    Case::BadText(TagKind::Text(1), b"4142", ValueFault::Range),
    Case::BadText(TagKind::Text(4), b"4142434445", ValueFault::Range),
    Case::BadText(TagKind::Text(4), b"4", ValueFault::Form),
    Case::BadText(TagKind::Text(4), b"414", ValueFault::Form),
    Case::BadText(TagKind::Text(4), b"4A", ValueFault::Form),
    Case::BadText(TagKind::Text(4), b"4g", ValueFault::Form),
    Case::BadText(TagKind::Text(4), b"--", ValueFault::Form),
    Case::BadText(TagKind::Text(4), b"", ValueFault::Form),
    Case::BadText(TagKind::Text(0), b"-", ValueFault::Range),
    Case::BadText(TagKind::Text(255), b"-", ValueFault::Range),
    Case::BadText(TagKind::Text(255), b"41", ValueFault::Range),
    Case::BadText(
        TagKind::DateTime,
        b"1989-12-31T23:59:59.999",
        ValueFault::Range,
    ),
    Case::BadText(
        TagKind::DateTime,
        b"2090-01-01T00:00:00.000",
        ValueFault::Range,
    ),
    Case::BadText(
        TagKind::DateTime,
        b"0000-02-29T00:00:00.000",
        ValueFault::Range,
    ),
    Case::BadText(
        TagKind::DateTime,
        b"2023-02-29T00:00:00.000",
        ValueFault::Form,
    ),
    Case::BadText(
        TagKind::DateTime,
        b"1900-02-29T00:00:00.000",
        ValueFault::Form,
    ),
    Case::BadText(
        TagKind::DateTime,
        b"2024-13-01T00:00:00.000",
        ValueFault::Form,
    ),
    Case::BadText(
        TagKind::DateTime,
        b"2024-02-29T24:00:00.000",
        ValueFault::Form,
    ),
    Case::BadText(
        TagKind::DateTime,
        b"2024-02-29T23:60:00.000",
        ValueFault::Form,
    ),
    Case::BadText(
        TagKind::DateTime,
        b"2024-02-29 00:00:00.000",
        ValueFault::Form,
    ),
    Case::BadText(TagKind::DateTime, b"2024-02-29T00:00:00", ValueFault::Form),
];

/// Octets that aren't values are refused.
const BAD_OCTETS: &[Case] = &[
    Case::BadOctets(TagKind::Bool, &[0x02], ValueFault::Range),
    Case::BadOctets(TagKind::Bool, &[0xFF], ValueFault::Range),
    Case::BadOctets(TagKind::Bool, &[], ValueFault::Form),
    Case::BadOctets(TagKind::Bool, &[0x00, 0x01], ValueFault::Form),
    Case::BadOctets(TagKind::Int, &[0x01], ValueFault::Form),
    Case::BadOctets(TagKind::Int, &[0x00, 0x00, 0x01], ValueFault::Form),
    Case::BadOctets(TagKind::Dint, &[0x00, 0x00, 0x01], ValueFault::Form),
    Case::BadOctets(
        TagKind::Dint,
        &[0x00, 0x00, 0x00, 0x00, 0x01],
        ValueFault::Form,
    ),
    Case::BadOctets(TagKind::Bcd, &[0x1A, 0x00], ValueFault::Form),
    Case::BadOctets(TagKind::Bcd, &[0xA1, 0x00], ValueFault::Form),
    Case::BadOctets(TagKind::Bcd, &[0x00, 0xF0], ValueFault::Form),
    Case::BadOctets(TagKind::Bcd, &[0x00, 0x0B], ValueFault::Form),
    Case::BadOctets(TagKind::Bcd, &[0x00], ValueFault::Form),
    Case::BadOctets(TagKind::S5Time, &[0x41, 0x23], ValueFault::Range),
    Case::BadOctets(TagKind::S5Time, &[0xF1, 0x23], ValueFault::Range),
    Case::BadOctets(TagKind::S5Time, &[0x4A, 0x23], ValueFault::Form),
    Case::BadOctets(TagKind::S5Time, &[0x11, 0x2A], ValueFault::Form),
    Case::BadOctets(TagKind::S5Time, &[0x11, 0xA2], ValueFault::Form),
    Case::BadOctets(TagKind::S5Time, &[0x11], ValueFault::Form),
    Case::BadOctets(
        TagKind::Text(4),
        &[0x04, 0x05, 0x41, 0x42, 0x43, 0x44],
        ValueFault::Range,
    ),
    Case::BadOctets(
        TagKind::Text(4),
        &[0x03, 0x02, 0x41, 0x42, 0x43],
        ValueFault::Range,
    ),
    Case::BadOctets(
        TagKind::Text(4),
        &[0x05, 0x02, 0x41, 0x42, 0x43, 0x44, 0x45],
        ValueFault::Range,
    ),
    Case::BadOctets(
        TagKind::Text(4),
        &[0x04, 0x02, 0x41, 0x42, 0x43],
        ValueFault::Form,
    ),
    Case::BadOctets(TagKind::Text(4), &[0x04], ValueFault::Form),
    Case::BadOctets(
        TagKind::Text(4),
        &[0x05, 0x02, 0x41, 0x42, 0x00, 0x00],
        ValueFault::Form,
    ),
    Case::BadOctets(TagKind::Text(0), &[0x00, 0x00], ValueFault::Range),
    Case::BadOctets(
        TagKind::DateTime,
        &[0x24, 0x02, 0x29, 0x13, 0x45, 0x30, 0x12, 0x36],
        ValueFault::Form,
    ),
    Case::BadOctets(
        TagKind::DateTime,
        &[0x24, 0x02, 0x29, 0x13, 0x45, 0x30, 0x12, 0x30],
        ValueFault::Form,
    ),
    Case::BadOctets(
        TagKind::DateTime,
        &[0x23, 0x02, 0x29, 0x13, 0x45, 0x30, 0x12, 0x34],
        ValueFault::Form,
    ),
    Case::BadOctets(
        TagKind::DateTime,
        &[0x24, 0x02, 0x29, 0x13, 0x45, 0x3A, 0x12, 0x35],
        ValueFault::Form,
    ),
    Case::BadOctets(
        TagKind::DateTime,
        &[0x24, 0x02, 0x29, 0x13, 0x45, 0x30, 0x12],
        ValueFault::Form,
    ),
];

/// Strings of as many characters as there is room for.
const STRINGS: &[Case] = &[
    // The octets that a string doesn't use are passed over.
    Case::Unused(4, &[0x04, 0x01, 0xAB, 0x42, 0x01, 0xFF], b"ab"),
    Case::Unused(2, &[0x02, 0x00, 0x41, 0x42], b"-"),
    // Strings have from no character to as many as there is room for.
    Case::Length(1, 0),
    Case::Length(1, 1),
    Case::Length(2, 1),
    Case::Length(4, 4),
    Case::Length(127, 126),
    Case::Length(253, 253),
    Case::Length(254, 253),
    Case::Length(254, 254),
    // Strings of one more character than there is room for are refused.
    Case::TooLong(1),
    Case::TooLong(2),
    Case::TooLong(4),
    Case::TooLong(127),
    Case::TooLong(253),
    Case::TooLong(254),
];

/// Tag files with faults, and tag files of 2,048 tags and more.
const TAG_FILES: &[Case] = &[
    // The first faulty line of a tag file is reported, with its fault.
    Case::BadLine(b"a INT DB1", 1, TagFaultKind::Fields),
    Case::BadLine(b"a INT DB1 0 ", 1, TagFaultKind::Fields),
    Case::BadLine(b"a! INTE CT x y", 1, TagFaultKind::Fields),
    Case::BadLine(b"#\n\n ", 3, TagFaultKind::Fields),
    Case::BadLine(b"a! INTE CT x", 1, TagFaultKind::Name),
    Case::BadLine(b" INT DB1 0", 1, TagFaultKind::Name),
    Case::BadLine(
        b"abcdefghijklmnopqrstuvwxyzABCDEFG INT DB1 0",
        1,
        TagFaultKind::Name,
    ),
    Case::BadLine(b"a-b INT DB1 0", 1, TagFaultKind::Name),
    Case::BadLine(b"a INTE CT x", 1, TagFaultKind::Type),
    Case::BadLine(b"a int DB1 0", 1, TagFaultKind::Type),
    Case::BadLine(b"a STRING DB1 0", 1, TagFaultKind::Type),
    Case::BadLine(b"a STRING[0] DB1 0", 1, TagFaultKind::Type),
    Case::BadLine(b"a STRING[255] DB1 0", 1, TagFaultKind::Type),
    Case::BadLine(b"a STRING[4 DB1 0", 1, TagFaultKind::Type),
    Case::BadLine(b"a STRING[4]x DB1 0", 1, TagFaultKind::Type),
    Case::BadLine(b"a STRING[-1] DB1 0", 1, TagFaultKind::Type),
    Case::BadLine(b"a  INT DB1", 1, TagFaultKind::Type),
    Case::BadLine(b"a INT CT 0", 1, TagFaultKind::Place),
    Case::BadLine(b"a INT TM 0", 1, TagFaultKind::Place),
    Case::BadLine(b"a INT DB0 0", 1, TagFaultKind::Place),
    Case::BadLine(b"a INT DB65536 0", 1, TagFaultKind::Place),
    Case::BadLine(b"a INT DB 0", 1, TagFaultKind::Place),
    Case::BadLine(b"a INT MK1 0", 1, TagFaultKind::Place),
    Case::BadLine(b"a INT MK 2097152", 1, TagFaultKind::Place),
    Case::BadLine(b"a INT MK 0.0", 1, TagFaultKind::Place),
    Case::BadLine(b"a INT MK 00000000001", 1, TagFaultKind::Place),
    Case::BadLine(b"a BOOL MK 0", 1, TagFaultKind::Place),
    Case::BadLine(b"a BOOL MK 0.8", 1, TagFaultKind::Place),
    Case::BadLine(b"a BOOL MK 2097152.0", 1, TagFaultKind::Place),
    Case::BadLine(
        b"a INT MK 0\nb INT MK 2\r\na BOOL PE 0.0\nx",
        3,
        TagFaultKind::Double,
    ),
    Case::BadLine(b"a INT MK 0\na INT MK x", 2, TagFaultKind::Place),
    Case::BadLine(b"a INT MK 0\nx", 2, TagFaultKind::Fields),
    // A tag file has at most 2,048 tags.
    Case::LastLine(b"\n# no tag\n", Ok(2_048)),
    Case::LastLine(b"one_more INT DB1 0", Err((2_049, TagFaultKind::TooMany))),
    Case::LastLine(b"aaa INT DB1 0", Err((2_049, TagFaultKind::Double))),
    Case::LastLine(b"one_more INT CT 0", Err((2_049, TagFaultKind::Place))),
];

/// The text of a string of `count` characters `7A`, at most 256.
fn string_text(count: usize) -> [u8; 512] {
    let mut text = [0x00; 512];
    for k in 0..text.len() / 2 {
        if k < count {
            text[2 * k] = b'7';
            text[2 * k + 1] = b'a';
        }
    }
    text
}

/// The octets of a string of `count` characters `7A`, with room for these and `more` others, at most 255.
fn string_octets(count: u8, more: u8) -> [u8; 257] {
    let mut octets = [0x00; 257];
    octets[0] = count.saturating_add(more);
    octets[1] = count;
    for k in 2..octets.len() {
        if k < usize::from(count) + 2 {
            octets[k] = 0x7A;
        }
    }
    octets
}

/// Reports whether the text of a string of `count` characters in this room has the octets of that string, and these
/// octets have that text.
fn is_string(room: u8, count: u8) -> bool {
    let mut into = EMPTY;
    let octets = string_octets(count, room.saturating_sub(count));
    let text = string_text(usize::from(count));
    let text = if count == 0 {
        b"-".as_slice()
    } else {
        &text[..2 * usize::from(count)]
    };
    is_value(
        TagKind::Text(room),
        text,
        &octets[..usize::from(room) + 2],
        &mut into,
    )
}

/// Reports whether a string of one more character than this room has is refused.
fn is_too_long(room: u8) -> bool {
    let count = usize::from(room) + 1;
    let text = string_text(count);
    is_stored(
        TagKind::Text(room),
        &text[..2 * count],
        Err(ValueFault::Range),
    )
}

/// The text of a number in decimal.
fn decimal(alloc: Global, number: i32) -> Result<String, AllocError> {
    format!(in alloc; "{number}")
}

/// The text of a time: a number of units, a point and the number of the unit.
fn duration(alloc: Global, count: u32, unit: u32) -> Result<String, AllocError> {
    format!(in alloc; "{count}.{unit}")
}

/// The last two digits of a number, in BCD.
fn digits(number: u32) -> u8 {
    (number / 10 % 10 * 16 + number % 10) as u8
}

/// Reports whether the text of this whole number has its octets, and the octets have this text.
fn is_whole_number(alloc: Global, number: i16, room: &mut Room) -> Option<bool> {
    let text = decimal(alloc, i32::from(number)).ok()?;
    Some(is_value(TagKind::Int, text.as_bytes(), &number.to_be_bytes(), room))
}

/// The first whole number of two octets, from the least on, whose text and octets don't give each other. It is returned
/// as the number without sign that has its octets. `None` if there is none.
fn unmet_whole_number(alloc: Global) -> Option<usize> {
    let mut room = EMPTY;
    for number in i16::MIN..=i16::MAX {
        if is_whole_number(alloc, number, &mut room) != Some(true) {
            return Some(usize::from(u16::from_be_bytes(number.to_be_bytes())));
        }
    }
    None
}

/// Each whole number of two octets has a text, which gives it back.
#[test]
fn all_whole_numbers_of_two_octets(rt: HostRuntime) {
    all_hold(&rt, unmet_whole_number(rt.alloc()));
}

/// Reports whether the text of this number of four digits has its octets, and the octets have this text.
fn is_decimal(alloc: Global, number: u16, room: &mut Room) -> Option<bool> {
    let text = decimal(alloc, i32::from(number)).ok()?;
    let number = u32::from(number);
    let octets = [digits(number / 100), digits(number)];
    Some(is_value(TagKind::Bcd, text.as_bytes(), &octets, room))
}

/// The first number of four digits that has no text that gives it back.
fn unmet_number(alloc: Global) -> Option<usize> {
    let mut room = EMPTY;
    for number in 0..10_000_u16 {
        if is_decimal(alloc, number, &mut room) != Some(true) {
            return Some(usize::from(number));
        }
    }
    None
}

/// Each number of four digits has a text, which gives it back.
#[test]
fn all_numbers_of_four_digits(rt: HostRuntime) {
    all_hold(&rt, unmet_number(rt.alloc()));
}

/// Reports whether the text of this time has its octets, and the octets have this text.
fn is_time(alloc: Global, count: u16, unit: u8, room: &mut Room) -> Option<bool> {
    let count = u32::from(count);
    let text = duration(alloc, count, u32::from(unit)).ok()?;
    let octets = [unit % 4 * 16 + (count / 100 % 10) as u8, digits(count)];
    Some(is_value(TagKind::S5Time, text.as_bytes(), &octets, room))
}

/// The first number of units of a time, of this unit, that has no text that gives it back.
fn unmet_time(alloc: Global, unit: u8) -> Option<usize> {
    let mut room = EMPTY;
    for count in 0..1_000_u16 {
        if is_time(alloc, count, unit, &mut room) != Some(true) {
            return Some(usize::from(count));
        }
    }
    None
}

/// The first number of units of a time of any unit that has no text that gives it back.
fn unmet_time_of_any(alloc: Global) -> Option<usize> {
    for unit in 0..4_u8 {
        let unmet = unmet_time(alloc, unit);
        if unmet.is_some() {
            return unmet;
        }
    }
    None
}

/// Each time has a text, which gives it back.
#[test]
fn all_times(rt: HostRuntime) {
    all_hold(&rt, unmet_time_of_any(rt.alloc()));
}

/// What a tag file is read as: the number of its tags, or its first faulty line and the fault of that line.
fn answer_to(alloc: Global, text: &[u8]) -> Result<usize, (u32, TagFaultKind)> {
    match read_tags(alloc, text) {
        Ok(tags) => Ok(tags.as_slice().len()),
        Err(fault) => Err((fault.line, fault.kind)),
    }
}

/// Area, data block, word, count and address of a tag.
type Place = (u8, u16, u8, u16, u32);

/// A tag: its name, its type and its place.
type Row = (&'static [u8], TagKind, Place);

/// Reports whether a tag is that of a row.
fn is_tag(tag: &Tag, row: &Row) -> bool {
    let (name, kind, place) = *row;
    let item = tag.item;
    tag.name.as_slice() == name
        && tag.kind == kind
        && (item.area, item.db, item.word, item.count, item.address) == place
}

/// The index of the first row that isn't that of the tag of its number in a file.
fn unmet_tag(alloc: Global, text: &[u8], rows: &[Row]) -> Option<usize> {
    let Ok(tags) = read_tags(alloc, text) else {
        return Some(0);
    };
    let tags = tags.as_slice();
    for (number, row) in rows.iter().enumerate() {
        match tags.get(number) {
            Some(tag) if is_tag(tag, row) => {}
            _ => return Some(number),
        }
    }
    None
}

/// A tag file of all types.
const ALL_TYPES: &[u8] = b"# all types\n\nSpeed INT DB1 0\r\nOn BOOL MK 3.7\n_9 STRING[20] PE 010\n\
    n4 DINT PA 2097151\nc BCD DB65535 1\nt S5TIME DB2 2\n#x\nd DATE_AND_TIME DB3 4\n\
    abcdefghijklmnopqrstuvwxyzABCDEF STRING[254] DB4 0\ns STRING[1] DB0000000004 0";

/// The tags of that file.
const TAGS: &[Row] = &[
    (b"Speed", TagKind::Int, (0x84, 1, 0x02, 2, 0)),
    (b"On", TagKind::Bool, (0x83, 0, 0x01, 1, 31)),
    (b"_9", TagKind::Text(20), (0x81, 0, 0x02, 22, 80)),
    (b"n4", TagKind::Dint, (0x82, 0, 0x02, 4, 16_777_208)),
    (b"c", TagKind::Bcd, (0x84, 65_535, 0x02, 2, 8)),
    (b"t", TagKind::S5Time, (0x84, 2, 0x02, 2, 16)),
    (b"d", TagKind::DateTime, (0x84, 3, 0x02, 8, 32)),
    (
        b"abcdefghijklmnopqrstuvwxyzABCDEF",
        TagKind::Text(254),
        (0x84, 4, 0x02, 256, 0),
    ),
    (b"s", TagKind::Text(1), (0x84, 4, 0x02, 3, 0)),
];

/// The tags of a tag file of all types are read.
#[test]
fn tags_are_read(rt: HostRuntime) {
    all_hold(&rt, unmet_tag(rt.alloc(), ALL_TYPES, TAGS));
    assert!(rt; answer_to(rt.alloc(), ALL_TYPES) == Ok(9));
}

/// The name of the tag of this number, which no other number below 17,576 has.
fn name_of(number: usize) -> [u8; 3] {
    [
        b'a' + (number / 676 % 26) as u8,
        b'a' + (number / 26 % 26) as u8,
        b'a' + (number % 26) as u8,
    ]
}

/// The lines of 2,048 tags with names of their own, and these lines after them.
fn lines_before(alloc: Global, last: &[u8]) -> Result<Vec<u8>, AllocError> {
    let mut text = Vec::new(alloc);
    for number in 0..2_048 {
        text.extend_from_slice(&name_of(number))?;
        text.extend_from_slice(b" INT DB1 0\n")?;
    }
    text.extend_from_slice(last)?;
    Ok(text)
}

/// Reports whether 2,048 tags and these lines after them are read so.
fn are_read(alloc: Global, last: &[u8], answer: &Result<usize, (u32, TagFaultKind)>) -> bool {
    match lines_before(alloc, last) {
        Ok(text) => answer_to(alloc, text.as_slice()) == *answer,
        Err(_) => false,
    }
}

/// Reports whether a case holds.
fn is_met(alloc: Global, case: &Case) -> bool {
    match case {
        Case::Value(kind, text, octets) => {
            is_stored(*kind, text, Ok(octets)) && is_text(*kind, octets, Ok(text))
        }
        Case::BadText(kind, text, fault) => is_stored(*kind, text, Err(*fault)),
        Case::BadOctets(kind, octets, fault) => is_text(*kind, octets, Err(*fault)),
        Case::Unused(room, octets, text) => is_text(TagKind::Text(*room), octets, Ok(text)),
        Case::Length(room, count) => is_string(*room, *count),
        Case::TooLong(room) => is_too_long(*room),
        Case::BadLine(text, line, kind) => answer_to(alloc, text) == Err((*line, *kind)),
        Case::LastLine(last, answer) => are_read(alloc, last, answer),
    }
}

/// The number of the first case that doesn't hold.
fn unmet(alloc: Global, cases: &[Case]) -> Option<usize> {
    for (number, case) in cases.iter().enumerate() {
        if !is_met(alloc, case) {
            return Some(number);
        }
    }
    None
}

/// The number of the first value that doesn't hold. Each table stands in a function of its own, so that the test is
/// cheap to prove.
fn unmet_value(alloc: Global) -> Option<usize> {
    unmet(alloc, VALUES)
}

/// The number of the first text that isn't refused.
fn unmet_text(alloc: Global) -> Option<usize> {
    unmet(alloc, BAD_TEXTS)
}

/// The number of the first octets that aren't refused.
fn unmet_octets(alloc: Global) -> Option<usize> {
    unmet(alloc, BAD_OCTETS)
}

/// The number of the first string that doesn't hold.
fn unmet_string(alloc: Global) -> Option<usize> {
    unmet(alloc, STRINGS)
}

/// The number of the first tag file that is read otherwise.
fn unmet_file(alloc: Global) -> Option<usize> {
    unmet(alloc, TAG_FILES)
}

/// Values are read and written, and tag files are read, as the cases say.
#[test]
fn values_and_tag_files_are_read(rt: HostRuntime) {
    all_hold(&rt, unmet_value(rt.alloc()));
    all_hold(&rt, unmet_text(rt.alloc()));
    all_hold(&rt, unmet_octets(rt.alloc()));
    all_hold(&rt, unmet_string(rt.alloc()));
    all_hold(&rt, unmet_file(rt.alloc()));
}
