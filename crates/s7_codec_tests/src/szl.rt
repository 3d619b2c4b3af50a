//! Tests of status lists: the lists of the server, their fields, and images that are joined from slices.
use crate::rows::all_hold;
use s7_szl::{
    SzlAdded, SzlJoin, read_component, read_mode, read_order_code, read_pdu, read_protection,
    write_table,
};
use std::alloc::Global;

/// The image of list 0000.
const DIRECTORY: [u8; 20] = [
    0x00, 0x00, 0x00, 0x00, 0x00, 0x02, 0x00, 0x06, 0x00, 0x00, 0x00, 0x11, 0x00, 0x1C, 0x01, 0x31,
    0x02, 0x32, 0x04, 0x24,
];

/// The image of list 0011.
const IDENTIFICATION: [u8; 36] = [
    0x00, 0x11, 0x00, 0x00, 0x00, 0x1C, 0x00, 0x01, 0x00, 0x01, 0x53, 0x37, 0x53, 0x45, 0x52, 0x56,
    0x45, 0x52, 0x20, 0x41, 0x52, 0x45, 0x41, 0x20, 0x42, 0x4F, 0x4F, 0x4B, 0x20, 0x20, 0x00, 0x00,
    0x00, 0x01, 0x00, 0x00,
];

/// The image of list 001C.
const COMPONENTS: [u8; 212] = [
    0x00, 0x1C, 0x00, 0x00, 0x00, 0x22, 0x00, 0x06, 0x00, 0x01, 0x53, 0x37, 0x53, 0x45, 0x52, 0x56,
    0x45, 0x52, 0x00, 0x00, 0x00, 0x00, 0x00, 0x00, 0x00, 0x00, 0x00, 0x00, 0x00, 0x00, 0x00, 0x00,
    0x00, 0x00, 0x00, 0x00, 0x00, 0x00, 0x00, 0x00, 0x00, 0x00, 0x00, 0x02, 0x41, 0x52, 0x45, 0x41,
    0x20, 0x42, 0x4F, 0x4F, 0x4B, 0x00, 0x00, 0x00, 0x00, 0x00, 0x00, 0x00, 0x00, 0x00, 0x00, 0x00,
    0x00, 0x00, 0x00, 0x00, 0x00, 0x00, 0x00, 0x00, 0x00, 0x00, 0x00, 0x00, 0x00, 0x03, 0x00, 0x00,
    0x00, 0x00, 0x00, 0x00, 0x00, 0x00, 0x00, 0x00, 0x00, 0x00, 0x00, 0x00, 0x00, 0x00, 0x00, 0x00,
    0x00, 0x00, 0x00, 0x00, 0x00, 0x00, 0x00, 0x00, 0x00, 0x00, 0x00, 0x00, 0x00, 0x00, 0x00, 0x04,
    0x4F, 0x50, 0x45, 0x4E, 0x00, 0x00, 0x00, 0x00, 0x00, 0x00, 0x00, 0x00, 0x00, 0x00, 0x00, 0x00,
    0x00, 0x00, 0x00, 0x00, 0x00, 0x00, 0x00, 0x00, 0x00, 0x00, 0x00, 0x00, 0x00, 0x00, 0x00, 0x00,
    0x00, 0x05, 0x30, 0x30, 0x30, 0x30, 0x30, 0x30, 0x30, 0x30, 0x30, 0x31, 0x00, 0x00, 0x00, 0x00,
    0x00, 0x00, 0x00, 0x00, 0x00, 0x00, 0x00, 0x00, 0x00, 0x00, 0x00, 0x00, 0x00, 0x00, 0x00, 0x00,
    0x00, 0x00, 0x00, 0x07, 0x53, 0x37, 0x53, 0x45, 0x52, 0x56, 0x45, 0x52, 0x20, 0x50, 0x4C, 0x43,
    0x00, 0x00, 0x00, 0x00, 0x00, 0x00, 0x00, 0x00, 0x00, 0x00, 0x00, 0x00, 0x00, 0x00, 0x00, 0x00,
    0x00, 0x00, 0x00, 0x00,
];

/// The image of list 0131.
const COMMUNICATION: [u8; 48] = [
    0x01, 0x31, 0x00, 0x01, 0x00, 0x28, 0x00, 0x01, 0x00, 0x01, 0x07, 0x80, 0x04, 0x00, 0x00, 0x00,
    0x00, 0x00, 0x00, 0x00, 0x00, 0x00, 0x00, 0x00, 0x00, 0x00, 0x00, 0x00, 0x00, 0x00, 0x00, 0x00,
    0x00, 0x00, 0x00, 0x00, 0x00, 0x00, 0x00, 0x00, 0x00, 0x00, 0x00, 0x00, 0x00, 0x00, 0x00, 0x00,
];

/// The image of list 0232.
const PROTECTION: [u8; 48] = [
    0x02, 0x32, 0x00, 0x04, 0x00, 0x28, 0x00, 0x01, 0x00, 0x04, 0x00, 0x01, 0x00, 0x00, 0x00, 0x01,
    0x00, 0x01, 0x00, 0x00, 0x00, 0x00, 0x00, 0x00, 0x00, 0x00, 0x00, 0x00, 0x00, 0x00, 0x00, 0x00,
    0x00, 0x00, 0x00, 0x00, 0x00, 0x00, 0x00, 0x00, 0x00, 0x00, 0x00, 0x00, 0x00, 0x00, 0x00, 0x00,
];

/// The image of list 0424 of a controller that runs.
const RUN: [u8; 28] = [
    0x04, 0x24, 0x00, 0x00, 0x00, 0x14, 0x00, 0x01, 0x51, 0x44, 0xFF, 0x08, 0x00, 0x00, 0x00, 0x00,
    0x00, 0x00, 0x00, 0x00, 0x00, 0x00, 0x00, 0x00, 0x00, 0x00, 0x00, 0x00,
];

/// The image of list 0424 of a controller that is stopped.
const STOP: [u8; 28] = [
    0x04, 0x24, 0x00, 0x00, 0x00, 0x14, 0x00, 0x01, 0x51, 0x44, 0xFF, 0x04, 0x00, 0x00, 0x00, 0x00,
    0x00, 0x00, 0x00, 0x00, 0x00, 0x00, 0x00, 0x00, 0x00, 0x00, 0x00, 0x00,
];

/// What status lists are written as, and what their images say.
enum Case {
    /// A list: its number, its index, whether the controller runs, and the image.
    List(u16, u16, bool, &'static [u8]),
    /// The number and the index of a list that the server doesn't have.
    NoList(u16, u16),
    /// An image, and whether it says that the controller runs, or that it is stopped.
    Mode(&'static [u8], Option<bool>),
    /// An offset and an octet with which the image of list 0424 doesn't say whether the controller runs.
    NoMode(usize, u8),
    /// An image, and its PDU length.
    Pdu(&'static [u8], Option<u16>),
    /// An image, and its order code.
    OrderCode(&'static [u8], &'static [u8; 20]),
    /// An image, and its level of protection.
    Protection(&'static [u8], u16),
    /// The index of a component of list 001C, and its text.
    Text(u16, Option<[u8; 32]>),
}

/// The cases.
const CASES: &[Case] = &[
    // The status lists of the server are written as their images.
    Case::List(0x0000, 0, true, &DIRECTORY),
    Case::List(0x0011, 0, true, &IDENTIFICATION),
    Case::List(0x001C, 0, false, &COMPONENTS),
    Case::List(0x0131, 1, true, &COMMUNICATION),
    Case::List(0x0232, 4, false, &PROTECTION),
    Case::List(0x0424, 0, true, &RUN),
    Case::List(0x0424, 0, false, &STOP),
    // Other status lists aren't there.
    Case::NoList(0x0012, 0),
    Case::NoList(0x0111, 1),
    Case::NoList(0x0011, 1),
    Case::NoList(0x0131, 0),
    Case::NoList(0x0232, 0),
    Case::NoList(0x0424, 1),
    // The fields of status lists are read.
    Case::Mode(&RUN, Some(true)),
    Case::Mode(&STOP, Some(false)),
    Case::OrderCode(&IDENTIFICATION, b"S7SERVER AREA BOOK  "),
    Case::Pdu(&COMMUNICATION, Some(1920)),
    Case::Protection(&PROTECTION, 1),
    Case::Text(
        7,
        Some(*b"S7SERVER PLC\0\0\0\0\0\0\0\0\0\0\0\0\0\0\0\0\0\0\0\0"),
    ),
    Case::Text(3, Some([0; 32])),
    Case::Text(6, None),
    // Images of other lists, and other octets, don't have the fields.
    Case::NoMode(0, 0x77),
    Case::NoMode(1, 0x77),
    Case::NoMode(2, 0x77),
    Case::NoMode(3, 0x77),
    Case::NoMode(4, 0x77),
    Case::NoMode(5, 0x77),
    Case::NoMode(6, 0x77),
    Case::NoMode(7, 0x77),
    // There are only 27 octets.
    Case::Mode(
        b"\x04\x24\0\0\0\x14\0\x01\x51\x44\xFF\x08\0\0\0\0\0\0\0\0\0\0\0\0\0\0\0",
        None,
    ),
    Case::Mode(b"", None),
    Case::Mode(b"\x04\x24\0\0\0\x14\0\0", None),
    Case::Mode(&COMPONENTS, None),
    Case::NoMode(11, 0x03),
    Case::Pdu(&PROTECTION, None),
];

/// Reports whether all octets are `EE`, as they were before a list was written.
fn are_left(octets: &[u8]) -> bool {
    for octet in octets {
        if *octet != 0xEE {
            return false;
        }
    }
    true
}

/// Reports whether a list has this length and this image.
fn is_written(id: u16, index: u16, running: bool, len: Option<usize>, image: &[u8]) -> bool {
    let mut into = [0xEE; 512];
    write_table(id, index, running, &mut into) == len
        && into.starts_with(image)
        && image.len() <= 512
        && are_left(&into[image.len()..])
}

/// The image of list 0424 with another octet at this offset.
fn with_octet(place: usize, octet: u8) -> [u8; 28] {
    let mut image = RUN;
    if place < 28 {
        image[place] = octet;
    }
    image
}

/// Reports whether a case holds.
fn holds(case: &Case) -> bool {
    match case {
        Case::List(id, index, running, image) => {
            is_written(*id, *index, *running, Some(image.len()), image)
        }
        Case::NoList(id, index) => is_written(*id, *index, true, None, &[]),
        Case::Mode(image, mode) => read_mode(image) == *mode,
        Case::NoMode(place, octet) => read_mode(&with_octet(*place, *octet)) == None,
        Case::Pdu(image, pdu) => read_pdu(image) == *pdu,
        Case::OrderCode(image, code) => read_order_code(image) == Some(**code),
        Case::Protection(image, level) => read_protection(image) == Some(*level),
        Case::Text(index, text) => read_component(&COMPONENTS, *index) == *text,
    }
}

/// The number of the first case that doesn't hold.
fn unmet(cases: &[Case]) -> Option<usize> {
    for (number, case) in cases.iter().enumerate() {
        if !holds(case) {
            return Some(number);
        }
    }
    None
}

/// Status lists are written as their images, and their fields are read, as the cases say.
#[test]
fn lists_are_written_and_fields_are_read(rt: HostRuntime) {
    all_hold(&rt, unmet(CASES));
}

/// A slice that a join takes, whether more come, and the answer.
enum Slice {
    /// A slice of an image whose head is looked at.
    Looked(&'static [u8], bool, SzlAdded),
    /// A slice of an image whose head isn't looked at.
    Plain(&'static [u8], bool, SzlAdded),
}

/// Reports whether a join answers a slice so.
fn joins(join: &mut SzlJoin, slice: &Slice) -> bool {
    match slice {
        Slice::Looked(octets, more, added) => join.add(octets, *more) == *added,
        Slice::Plain(octets, more, added) => join.add_plain(octets, *more) == *added,
    }
}

/// Slices of list 001C.
const COMPONENT_SLICES: &[(usize, usize, SzlAdded)] = &[
    (0, 102, SzlAdded::More),
    (102, 204, SzlAdded::More),
    (204, 212, SzlAdded::Whole),
];

/// Reports whether list 001C is joined from its slices.
fn is_joined(join: &mut SzlJoin) -> bool {
    for &(from, to, added) in COMPONENT_SLICES {
        if to > 212 || from > to || join.add(&COMPONENTS[from..to], to < 212) != added {
            return false;
        }
    }
    join.image() == COMPONENTS.as_slice()
}

/// The image of list 0424 whose head says that there are two records.
const TWO_RECORDS: [u8; 28] = [
    0x04, 0x24, 0x00, 0x00, 0x00, 0x14, 0x00, 0x02, 0x51, 0x44, 0xFF, 0x08, 0x00, 0x00, 0x00, 0x00,
    0x00, 0x00, 0x00, 0x00, 0x00, 0x00, 0x00, 0x00, 0x00, 0x00, 0x00, 0x00,
];

/// The first octets of an image, fewer than its head has.
const SHORT: [u8; 7] = [0x04, 0x24, 0x00, 0x00, 0x00, 0x14, 0x00];

/// The slices that a join takes before it is cleared.
const SLICES: &[&[Slice]] = &[
    &[
        Slice::Looked(&TWO_RECORDS, false, SzlAdded::Bad),
        Slice::Looked(&RUN, false, SzlAdded::Bad),
    ],
    &[
        Slice::Plain(&TWO_RECORDS, false, SzlAdded::Whole),
        Slice::Looked(&RUN, false, SzlAdded::Whole),
        Slice::Looked(&SHORT, false, SzlAdded::Bad),
    ],
    &[
        Slice::Plain(&RUN, true, SzlAdded::More),
        Slice::Plain(&[], true, SzlAdded::Bad),
    ],
];

/// Reports whether a join that is cleared answers all slices so, one after another.
fn joins_all(join: &mut SzlJoin, slices: &[Slice]) -> bool {
    join.clear();
    for slice in slices {
        if !joins(join, slice) {
            return false;
        }
    }
    true
}

/// Reports whether a join answers the slices of all rows so, and has the image of list 0424 after that.
fn has_joined(join: &mut SzlJoin) -> bool {
    for slices in SLICES {
        if !joins_all(join, slices) {
            return false;
        }
    }
    join.image() == RUN.as_slice()
}

/// Reports whether a join takes 8,448 octets, and answers these as the last ones so.
fn is_filled(join: &mut SzlJoin, last: &[u8], added: SzlAdded) -> bool {
    join.add_plain(&[0xEE; 8448], true) == SzlAdded::More && join.add_plain(last, false) == added
}

/// Reports whether an image of 8,448 octets is joined, and none of more.
fn holds_8448(join: &mut SzlJoin) -> bool {
    is_filled(join, &[], SzlAdded::Whole) && is_filled(join, &[0xEE], SzlAdded::Bad)
}

/// Reports whether a new join joins list 001C from its slices, twice.
fn joins_a_list(alloc: Global) -> bool {
    match SzlJoin::new(alloc) {
        Ok(mut join) => is_joined(&mut join) && is_joined(&mut join),
        Err(_) => false,
    }
}

/// Reports whether a new join refuses slices that don't make an image until it is cleared.
fn refuses_others(alloc: Global) -> bool {
    match SzlJoin::new(alloc) {
        Ok(mut join) => has_joined(&mut join),
        Err(_) => false,
    }
}

/// Reports whether a new join joins an image of 8,448 octets, and none of more.
fn joins_8448_octets(alloc: Global) -> bool {
    match SzlJoin::new(alloc) {
        Ok(mut join) => holds_8448(&mut join),
        Err(_) => false,
    }
}

/// Slices are joined to images, or refused.
#[test]
fn slices_are_joined(rt: HostRuntime) {
    assert!(rt;
        joins_a_list(rt.alloc()) && refuses_others(rt.alloc()) && joins_8448_octets(rt.alloc())
    );
}
