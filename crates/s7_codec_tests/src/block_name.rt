//! Tests of the names of blocks in telegrams, and of numbers in decimal digits.
use crate::rows::all_hold;
use s7_block::{BlockName, NAME, read_digits, read_name, write_digits, write_name};

/// The last octet of the name of an active block.
const ACTIVE: u8 = 0x41;

/// The last octet of the name of a passive block.
const PASSIVE: u8 = 0x50;

/// What octets are read as, and what is written as octets.
enum Case {
    /// The octets of a name, the last octet that is awaited, and the kind and the number of the block.
    Name(&'static [u8; NAME], u8, u8, u16),
    /// Octets that aren't the name of an active block.
    NoName(&'static [u8]),
    /// Digits, and their number.
    Digits(&'static [u8], u32),
    /// The last digits of a number.
    Last(&'static [u8], u32),
}

/// The cases.
const CASES: &[Case] = &[
    // Names are read with the last octet that is awaited, and written.
    Case::Name(b"0800001A", ACTIVE, 0x38, 1),
    Case::Name(b"0A00001A", ACTIVE, 0x41, 1),
    Case::Name(b"0B00001A", ACTIVE, 0x42, 1),
    Case::Name(b"0C00001A", ACTIVE, 0x43, 1),
    Case::Name(b"0D00001A", ACTIVE, 0x44, 1),
    Case::Name(b"0E00001A", ACTIVE, 0x45, 1),
    Case::Name(b"0F00001A", ACTIVE, 0x46, 1),
    Case::Name(b"0865535P", PASSIVE, 0x38, 65_535),
    Case::Name(b"0A65535P", PASSIVE, 0x41, 65_535),
    Case::Name(b"0B65535P", PASSIVE, 0x42, 65_535),
    Case::Name(b"0C65535P", PASSIVE, 0x43, 65_535),
    Case::Name(b"0D65535P", PASSIVE, 0x44, 65_535),
    Case::Name(b"0E65535P", PASSIVE, 0x45, 65_535),
    Case::Name(b"0F65535P", PASSIVE, 0x46, 65_535),
    Case::Name(b"0A00000A", ACTIVE, 0x41, 0),
    Case::Name(b"0A12345P", PASSIVE, 0x41, 12_345),
    // Other octets aren't read as a name.
    Case::NoName(b"0A65536A"), // number 65,536
    Case::NoName(b"0A99999A"), // number 99,999
    Case::NoName(b"0A00A01A"), // a letter
    Case::NoName(b"0A/0001A"), // the octet before 0
    Case::NoName(b"0A0000:A"), // the octet after 9
    Case::NoName(b"1A00001A"), // first octet 31
    Case::NoName(b"\x00A00001A"), // first octet 00
    Case::NoName(b"0A00001P"), // last octet 50
    Case::NoName(b"0A00001B"), // last octet 42
    Case::NoName(b"0A0001A"), // 7 octets
    Case::NoName(b"0A000001A"), // 9 octets
    Case::NoName(b"0A00001AA"), // 9 octets, one after the last
    Case::NoName(b"0900001A"), // kind 39
    Case::NoName(b"0G00001A"), // kind 47
    Case::NoName(b""), // none
    // Digits are read as their numbers, and numbers are written in digits.
    Case::Digits(b"00000", 0),
    Case::Digits(b"00001", 1),
    Case::Digits(b"65535", 65_535),
    Case::Digits(b"65536", 65_536),
    Case::Digits(b"99999", 99_999),
    Case::Digits(b"000036", 36),
    Case::Digits(b"065536", 65_536),
    Case::Digits(b"999999", 999_999),
    Case::Digits(b"", 0),
    Case::Digits(b"999999999", 999_999_999),
    Case::Last(b"67295", u32::MAX),
];

/// Reports whether octets are read as this name.
fn is_read(octets: &[u8], place: u8, name: Option<BlockName>) -> bool {
    read_name(octets, place) == name
}

/// Reports whether a name is written as these octets.
fn is_written(name: BlockName, place: u8, octets: &[u8; NAME]) -> bool {
    let mut written = [0xEE; NAME];
    write_name(name, place, &mut written);
    written == *octets
}

/// Reports whether these octets are the name of a block that is active or passive, but not of one that is the other.
fn is_name(octets: &[u8; NAME], place: u8, name: BlockName) -> bool {
    let other = if place == ACTIVE { PASSIVE } else { ACTIVE };
    is_written(name, place, octets)
        && is_read(octets, place, Some(name))
        && is_read(octets, other, None)
}

/// Reports whether digits, at most nine, are read as this number.
fn is_number(digits: &[u8], number: Option<u32>) -> bool {
    digits.len() <= 9 && read_digits(digits) == number
}

/// Reports whether these are the last digits of a number, at most nine.
fn are_last(digits: &[u8], number: u32) -> bool {
    let mut written = [0xEE; 9];
    if digits.len() > 9 {
        return false;
    }
    write_digits(number, &mut written[..digits.len()]);
    written.starts_with(digits)
}

/// Reports whether a case holds.
fn holds(case: &Case) -> bool {
    match *case {
        Case::Name(octets, place, kind, number) => {
            is_name(octets, place, BlockName { kind, number })
        }
        Case::NoName(octets) => is_read(octets, ACTIVE, None),
        Case::Digits(digits, number) => is_number(digits, Some(number)) && are_last(digits, number),
        Case::Last(digits, number) => are_last(digits, number),
    }
}

/// The number of the first case that doesn't hold.
fn unmet(cases: &[Case]) -> Option<usize> {
    for (number, case) in cases.iter().enumerate() {
        if !holds(case) {
            return Some(number);
        }
    }
    None
}

/// Names and numbers are read and written as the cases say.
#[test]
fn names_and_numbers_are_read_and_written(rt: HostRuntime) {
    all_hold(&rt, unmet(CASES));
}

/// Five octets of which one isn't a digit aren't a number.
#[test]
fn octets_that_are_no_digits_are_no_number(rt: HostRuntime) {
    for octet in [0x00, 0x2F, 0x3A, 0x41, 0xFF] {
        for at in 0..5 {
            let mut digits = [0x30; 5];
            digits[at] = octet;
            assert!(rt; is_number(&digits, None));
        }
    }
}
