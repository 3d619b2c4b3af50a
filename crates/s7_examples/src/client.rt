//! A client that reads four bytes of data block 1, over any link.
use s7_client::{Config, Connection, Job, JobResult};
use s7_item::Item;
use s7_item::codes::{BYTE, DATA_BLOCKS};
use s7_memory::MemoryLink;
use s7_outer::{Link, Octets};
use std::alloc::Global;

/// The first four bytes of data block 1.
const FOUR_BYTES: Item = Item {
    area: DATA_BLOCKS,
    db: 1,
    word: BYTE,
    count: 4,
    address: 0,
};

/// Connects to rack 0, slot 2 as a programming device does, and reads. The code of the result is 0, or says what
/// failed. Returns `None` if memory ran out.
fn read_four<L: Link>(alloc: Global, link: &mut L) -> Option<JobResult> {
    let mut client = Connection::new(alloc, Config::new(1, 0, 2)).ok()?;
    let connected = client.carry_out(alloc, Job::Connect, link).ok()?;
    if connected.code != 0 {
        return Some(connected);
    }
    let read = Job::ReadArea { item: FOUR_BYTES };
    client.carry_out(alloc, read, link).ok()
}

/// What the link gives: the connect confirm, the answer to the negotiation, and the answer to the read.
const GIVEN: &str = "0300001611d00001000100c0010ac1020100c2020102\
    0300001b02f080320300000001000800000000f0000001000101e0\
    0300001d02f0803203000000020002000800000401ff04002011223344";

/// What the client writes: the connect request, the negotiation, and the read.
const WRITTEN: &str = "0300001611e00000000100c0010ac1020100c2020102\
    0300001902f08032010000000100080000f0000001000101e0\
    0300001f02f080320100000002000e00000401120a10020004000184000000";

/// A link in memory that gives the octets of these hexadecimal digits. `None` if memory ran out.
fn new_link(alloc: Global, digits: &str) -> Option<MemoryLink> {
    let given = Octets::of_vec(hex::decode(alloc, digits).ok()?);
    MemoryLink::new(alloc, given, 8_192, 4_096, 0).ok()
}

/// Whether the octets of these hexadecimal digits were written on the link, and no others.
fn has_written(alloc: Global, link: &MemoryLink, digits: &str) -> bool {
    match hex::decode(alloc, digits) {
        Ok(octets) => link.written() == octets.as_slice(),
        Err(_) => false,
    }
}

/// The client reads four bytes, and writes the telegrams that it should.
#[test]
fn four_bytes_are_read(rt: HostRuntime) {
    let mut link = new_link(rt.alloc(), GIVEN).expect(&rt, "there is memory");
    let read = read_four(rt.alloc(), &mut link).expect(&rt, "there is memory");
    assert!(rt; read.code == 0);
    assert!(rt; read.octets.as_slice() == [0x11, 0x22, 0x33, 0x44].as_slice());
    assert!(rt; has_written(rt.alloc(), &link, WRITTEN));
}
