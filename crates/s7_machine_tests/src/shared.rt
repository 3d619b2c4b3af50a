//! Clients that write data blocks of their own and a shared one, at the same time.
use crate::telegrams::{CONFIRM, CONNECT, GRANTED, SETUP, appends, are, joined, packets};
use crate::walk::{Walk, key_of};
use s7_area::Areas;
use s7_outer::Octets;
use s7_plant::{Book, Entry, Tail};
use std::alloc::Global;

/// An area file of the data blocks from 1 to 9.
pub(crate) const AREAS: &[u8] = b"\
s7 areas 1
DB 1 4
11223344
DB 2 4
11223344
DB 3 4
11223344
DB 4 4
11223344
DB 5 4
11223344
DB 6 4
11223344
DB 7 4
11223344
DB 8 4
11223344
DB 9 4
11223344
";

/// The number of clients.
pub(crate) const CLIENTS: u8 = 8;

/// The number of rounds of each client.
const ROUNDS: u8 = 20;

/// The data block that all clients write.
pub(crate) const SHARED: u8 = 9;

/// The first octet of the reference of a read. That of a write is the number of its data block. The second octet of
/// both is the round.
pub(crate) const READS: u8 = 10;

/// The octets of a write before its reference.
const WRITE: &[u8] = b"\x03\x00\x00\x27\x02\xF0\x80\x32\x01\x00\x00";

/// The octets of a write between its reference and the number of its data block.
const ONE_ITEM: &[u8] = b"\x00\x0E\x00\x08\x05\x01\x12\x0A\x10\x02\x00\x04\x00";

/// The octets of a write between the number of its data block and its four octets.
const FOUR_OCTETS: &[u8] = b"\x84\x00\x00\x00\x00\x04\x00\x20";

/// The octets of the answer to a write before its reference.
const WRITE_ANSWER: &[u8] = b"\x03\x00\x00\x16\x02\xF0\x80\x32\x03\x00\x00";

/// The octets of the answer to a write after its reference.
const WRITTEN: &[u8] = b"\x00\x02\x00\x01\x00\x00\x05\x01\xFF";

/// The octets of a read before its reference.
const READ: &[u8] = b"\x03\x00\x00\x2B\x02\xF0\x80\x32\x01\x00\x00";

/// The octets of a read between its reference and the number of the client's data block.
const TWO_ITEMS: &[u8] = b"\x00\x1A\x00\x00\x04\x02\x12\x0A\x10\x02\x00\x04\x00";

/// The octets of a read after the number of the client's data block.
const AND_SHARED: &[u8] = b"\x84\x00\x00\x00\x12\x0A\x10\x02\x00\x04\x00\x09\x84\x00\x00\x00";

/// The octets that a client writes to a data block in a round.
pub(crate) fn value_of(client: u8, round: u8, block: u8) -> [u8; 4] {
    [client, round, block, 0xA5]
}

/// A read of the client's own data block and of the shared one.
fn read(alloc: Global, client: u8, round: u8) -> Option<Octets> {
    let reference = [READS, round];
    joined(alloc, &[READ, &reference, TWO_ITEMS, &[client], AND_SHARED])
}

/// A write of one data block.
fn write(alloc: Global, client: u8, round: u8, block: u8) -> Option<Octets> {
    let reference = [block, round];
    let value = value_of(client, round, block);
    joined(
        alloc,
        &[WRITE, &reference, ONE_ITEM, &[block], FOUR_OCTETS, &value],
    )
}

/// Appends the telegrams of a round, two writes and a read. Reports whether memory is left for them.
fn appends_round(alloc: Global, all: &mut Vec<Octets>, client: u8, round: u8) -> bool {
    appends(all, write(alloc, client, round, client))
        && appends(all, write(alloc, client, round, SHARED))
        && appends(all, read(alloc, client, round))
}

/// Appends the telegrams of all rounds. Reports whether memory is left for them.
fn appends_rounds(alloc: Global, all: &mut Vec<Octets>, client: u8) -> bool {
    for round in 1..=ROUNDS {
        if !appends_round(alloc, all, client, round) {
            return false;
        }
    }
    true
}

/// The telegrams of a client: a read before the first round, and two writes and a read in each round.
pub(crate) fn telegrams_of(alloc: Global, client: u8) -> Option<Vec<Octets>> {
    let mut all = packets(alloc, &[CONNECT, SETUP])?;
    if appends(&mut all, read(alloc, client, 0)) && appends_rounds(alloc, &mut all, client) {
        Some(all)
    } else {
        None
    }
}

/// Reports whether an answer is that to a write of this data block.
fn is_written(alloc: Global, answer: &Octets, block: u8, round: u8) -> bool {
    match joined(alloc, &[WRITE_ANSWER, &[block, round], WRITTEN]) {
        Some(wanted) => answer.as_slice() == wanted.as_slice(),
        None => false,
    }
}

/// Reports whether both writes of a round are answered, and there is an answer to a read.
fn is_round(alloc: Global, client: u8, round: u8, answers: &[Octets]) -> bool {
    match answers {
        [own, shared, _] => {
            is_written(alloc, own, client, round) && is_written(alloc, shared, SHARED, round)
        }
        _ => false,
    }
}

/// Reports whether all rounds of a client are answered.
fn are_rounds(alloc: Global, client: u8, answers: &[Octets]) -> bool {
    let mut round = 0u8;
    for answers in answers.chunks(3) {
        round = round.saturating_add(1);
        if !is_round(alloc, client, round, answers) {
            return false;
        }
    }
    round == ROUNDS
}

/// Reports whether the negotiation and all writes of a client are answered, and there is an answer to the first read.
fn is_answered(alloc: Global, client: u8, answers: &[Octets]) -> Option<bool> {
    let (opened, rest) = answers.split_at_checked(2)?;
    let (_, rounds) = rest.split_at_checked(1)?;
    Some(are(opened, &[CONFIRM, GRANTED]) && are_rounds(alloc, client, rounds))
}

/// Reports whether all clients are answered.
fn are_answered(alloc: Global, came: &[Vec<Octets>]) -> bool {
    let mut client = 0u8;
    for answers in came {
        client = client.saturating_add(1);
        if is_answered(alloc, client, answers.as_slice()) != Some(true) {
            return false;
        }
    }
    client == CLIENTS
}

/// The walk over all entries, which compares the answer to each read with what the entries before it left.
fn walked<'a>(alloc: Global, came: &'a [Vec<Octets>], journal: &[Entry]) -> Option<Walk<'a>> {
    let mut walk = Walk::new(came);
    for entry in journal {
        walk.take(alloc, entry)?;
    }
    Some(walk)
}

/// Reports whether a data block has these octets.
fn has_octets(areas: &Areas, block: u8, octets: Option<[u8; 4]>) -> bool {
    match (areas.octets_of(key_of(u16::from(block))), octets) {
        (Some(left), Some(octets)) => left == octets.as_slice(),
        _ => false,
    }
}

/// Reports whether a client has read in each round. All clients write the shared data block, which has no client.
fn has_read(walk: &Walk<'_>, block: u8) -> bool {
    block == SHARED || walk.reads_of(block) == Some(ROUNDS + 1)
}

/// Reports whether the plant has what all entries left, and each client has read in each round.
fn is_left(areas: &Areas, walk: &Walk<'_>) -> bool {
    for block in 1..=SHARED {
        if !has_octets(areas, block, walk.block(block)) || !has_read(walk, block) {
            return false;
        }
    }
    true
}

/// Reports whether each read shows what the entries before it left, and the plant has what all entries left.
fn has_left(alloc: Global, came: &[Vec<Octets>], book: &Book<Tail>) -> bool {
    match walked(alloc, came, book.journal.as_slice()) {
        Some(walk) => is_left(&book.plant.areas, &walk),
        None => false,
    }
}

/// Reports whether all clients were answered, each read shows what the entries before it left, and the plant has what
/// all entries left.
pub(crate) fn is_shared(alloc: Global, came: &[Vec<Octets>], book: &Book<Tail>) -> bool {
    are_answered(alloc, came) && has_left(alloc, came, book)
}
