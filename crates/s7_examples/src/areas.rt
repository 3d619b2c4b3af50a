//! Areas: one is registered, written, read and removed again.
use s7_area::{AreaKey, Areas};
use s7_item::Item;
use s7_item::codes::{BYTE, DATA_BLOCKS, GOOD};
use s7_outer::Octets;
use std::alloc::Global;

/// The name of data block 1.
const DB1: AreaKey = AreaKey {
    area: DATA_BLOCKS,
    number: 1,
};

/// Two bytes of data block 1, from octet 1 on. The address counts bits: it is eight times the number of the octet.
const MIDDLE: Item = Item {
    area: DATA_BLOCKS,
    db: 1,
    word: BYTE,
    count: 2,
    address: 8,
};

/// Areas with data block 1 alone, which has four octets. `None` if memory ran out.
fn new_areas(alloc: Global) -> Option<Areas> {
    let mut areas = Areas::new();
    let octets = Octets::copy_of(alloc, &[0x11, 0x22, 0x33, 0x44]).ok()?;
    match areas.register(alloc, DB1, octets) {
        Ok(()) => Some(areas),
        Err((_fault, _octets)) => None,
    }
}

/// A write changes two bytes, a read gives them, and the block that is handed back has them.
#[test]
fn two_bytes_are_written(rt: HostRuntime) {
    let mut areas = new_areas(rt.alloc()).expect(&rt, "there is memory");
    assert!(rt; areas.write(true, &MIDDLE, &[0xCA, 0xFE]) == GOOD);
    assert!(rt; areas.look_up(true, &MIDDLE) == Ok([0xCA, 0xFE].as_slice()));
    let octets = areas.unregister(DB1).ok().expect(&rt, "it is registered");
    assert!(rt; octets.as_slice() == [0x11, 0xCA, 0xFE, 0x44].as_slice());
}
