//! A session over a doer of your own.
ghost use Rattle.std.specs.Prelude.{◌≡◌, ◌≤◌, length};

use s7_area::{AreaKey, Areas};
use s7_block::Blocks;
use s7_item::codes::DATA_BLOCKS;
use s7_memory::MemoryLink;
use s7_outer::Octets;
use s7_plant::{Ask, MOST_BLOCKS, Plant, Reply};
use s7_session::{Doer, NotDone, Outcome, Session};
use std::alloc::Global;
use std::sync::Wait;
use std::time::Clock;

/// A doer that has a plant carry out at most `limit` requests. It counts them, and keeps no journal.
#[derive(Drop)]
struct Tally {
    plant: Plant,
    count: u64,
    limit: u64,
    ghost fits: { count ≤ limit },
}

impl Doer for Tally {
    // its count is the length of the list of entries that it represents
    ghost stands = { λ tally entries. length entries ≡ tally.count };

    ghost is_full = { λ tally _. tally.limit ≤ tally.count };

    ghost may_lack = { λ _ _. ⊥ };

    ghost keeps = { λ _ _. Unit {0} };

    ghost keeps_same = { λ _. tt };

    ghost keeps_both = { λ _ _ _ _ _. tt };

    fn act(&mut self, _alloc: Global, ask: Ask, reply: &mut Reply) -> Result<u64, NotDone> {
        if self.count == self.limit {
            return Err(NotDone::Full(ask));
        }
        let mut ask = ask;
        self.plant.step(ask.right, &mut ask.request, reply);
        let number = self.count;
        self.count += 1;
        Ok(number)
    }
}

/// What the link gives: a connect request, a negotiation, and a read of four bytes of data block 1.
const ASKED: &str = "0300001611e00000000100c0010ac1020100c2020102\
    0300001902f08032010000000400080000f0000001000101e0\
    0300001f02f080320100000005000e00000401120a10020004000184000000";

/// What the session writes: the confirm, the answer to the negotiation, and the answer to the read.
const ANSWERED: &str = "0300001611d00001000100c0010ac1020100c2020102\
    0300001b02f080320300000004000800000000f0000001000101e0\
    0300001d02f0803203000000050002000800000401ff04002011223344";

/// The name of data block 1.
const DB1: AreaKey = AreaKey {
    area: DATA_BLOCKS,
    number: 1,
};

/// Areas with data block 1 alone, which has four octets. `None` if memory ran out.
fn new_areas(alloc: Global) -> Option<Areas> {
    let mut areas = Areas::new();
    let octets = Octets::copy_of(alloc, &[0x11, 0x22, 0x33, 0x44]).ok()?;
    match areas.register(alloc, DB1, octets) {
        Ok(()) => Some(areas),
        Err((_fault, _octets)) => None,
    }
}

/// A tally over a plant with these areas and no blocks. `None` if memory ran out.
fn new_tally(alloc: Global) -> Option<Tally> {
    let blocks = Blocks::new(alloc, MOST_BLOCKS).ok()?;
    Some(Tally {
        plant: Plant::new(new_areas(alloc)?, blocks),
        count: 0,
        limit: 1_000,
    })
}

/// A link in memory that gives the octets of these hexadecimal digits. `None` if memory ran out.
fn new_link(alloc: Global, digits: &str) -> Option<MemoryLink> {
    let given = Octets::of_vec(hex::decode(alloc, digits).ok()?);
    MemoryLink::new(alloc, given, 8_192, 4_096, 0).ok()
}

/// Whether the octets of these hexadecimal digits were written on the link, and no others.
fn has_written(alloc: Global, link: &MemoryLink, digits: &str) -> bool {
    match hex::decode(alloc, digits) {
        Ok(octets) => link.written() == octets.as_slice(),
        Err(_) => false,
    }
}

/// Serves the link, as link 1 and without a guard, until it ends. `None` if memory ran out before.
fn serve<R: Wait + Clock>(
    rt: &R,
    alloc: Global,
    link: &mut MemoryLink,
    tally: &mut Tally,
) -> Option<Outcome> {
    let mut session = Session::new(alloc, 1, None).ok()?;
    Some(session.serve(rt, alloc, link, tally))
}

/// The session answers the read, and the tally counts it.
#[test]
fn a_read_is_answered_and_counted(rt: HostRuntime) {
    let mut link = new_link(rt.alloc(), ASKED).expect(&rt, "there is memory");
    let mut tally = new_tally(rt.alloc()).expect(&rt, "there is memory");
    assert!(rt; serve(&rt, rt.alloc(), &mut link, &mut tally) == Some(Outcome::Ended));
    assert!(rt; tally.count == 1);
    assert!(rt; has_written(rt.alloc(), &link, ANSWERED));
}
