//! A walk over the entries of a journal, beside the answers to the clients.
use crate::shared::{CLIENTS, READS, SHARED, value_of};
use crate::telegrams::joined;
use s7_area::AreaKey;
use s7_item::Item;
use s7_outer::Octets;
use s7_plant::{Entry, Request};
use std::alloc::Global;

/// The octets of each data block before the first entry.
const OPENING: [u8; 4] = [0x11, 0x22, 0x33, 0x44];

/// The key of a data block.
pub(crate) fn key_of(number: u16) -> AreaKey {
    AreaKey { area: 0x84, number }
}

/// The octets of the answer to a read before its reference.
const READ_ANSWER: &[u8] = b"\x03\x00\x00\x25\x02\xF0\x80\x32\x03\x00\x00";

/// The octets of the answer to a read between its reference and the octets of the client's data block.
const TWO_READ: &[u8] = b"\x00\x02\x00\x10\x00\x00\x04\x02\xFF\x04\x00\x20";

/// The octets of the answer to a read between the octets of both data blocks.
const NEXT_READ: &[u8] = b"\xFF\x04\x00\x20";

/// What the entries so far left in the data blocks, the number of reads of each client among them, and the client of
/// each link. Data blocks, clients and links are numbered from 1.
#[derive(Drop)]
pub(crate) struct Walk<'a> {
    came: &'a [Vec<Octets>],
    blocks: [[u8; 4]; 10],
    reads: [u8; 10],
    clients: [u8; 10],
}

impl<'a> Walk<'a> {
    /// A walk before the first entry.
    pub(crate) fn new(came: &'a [Vec<Octets>]) -> Walk<'a> {
        Walk {
            came,
            blocks: [OPENING; 10],
            reads: [0; 10],
            clients: [0; 10],
        }
    }

    /// The octets of a data block.
    pub(crate) fn block(&self, number: u8) -> Option<[u8; 4]> {
        self.blocks.get(usize::from(number)).copied()
    }

    /// The number of reads of a client.
    pub(crate) fn reads_of(&self, client: u8) -> Option<u8> {
        self.reads.get(usize::from(client)).copied()
    }

    /// Takes the next entry. There is no answer if it isn't the next request of its client, or a read was answered by
    /// something else than the entries before it left.
    pub(crate) fn take(&mut self, alloc: Global, entry: &Entry) -> Option<()> {
        match &entry.ask.request {
            Request::Read { items } => {
                let client = self.reads(entry.link, items.as_slice())?;
                self.is_shown(alloc, client)
            }
            Request::Write {
                items,
                places,
                octets,
            } => {
                let place = places.list().get(0)?;
                let value = octets.as_slice().get(place.from..)?.get(..place.len)?;
                self.writes(entry.link, items.as_slice(), value)
            }
            _ => None,
        }
    }

    /// The client whose link read its own data block and the shared one.
    fn reads(&mut self, link: u32, items: &[Item]) -> Option<u8> {
        let client = u8::try_from(items.first()?.db).ok()?;
        let both = [item_of(client), item_of(SHARED)];
        let is_good = items == both.as_slice();
        if is_good && self.belongs(link, client) {
            Some(client)
        } else {
            None
        }
    }

    /// The answer to the read of a client in a round. Two answers came before the first read, and each later read comes
    /// after two writes.
    fn shown(&self, client: u8, round: u8) -> Option<&'a Octets> {
        let answers = self.came.get(usize::from(client).checked_sub(1)?)?;
        answers.get(2 + 3 * usize::from(round))
    }

    /// Counts a read of the client. The result is its round.
    fn next_round(&mut self, client: u8) -> Option<u8> {
        let reads = self.reads.get_mut(usize::from(client))?;
        let round = *reads;
        *reads = round.checked_add(1)?;
        Some(round)
    }

    /// Compares the answer to the client with the data blocks.
    fn is_shown(&mut self, alloc: Global, client: u8) -> Option<()> {
        let round = self.next_round(client)?;
        let answer = answer_of(alloc, round, self.block(client)?, self.block(SHARED)?)?;
        if self.shown(client, round)?.as_slice() == answer.as_slice() {
            Some(())
        } else {
            None
        }
    }

    /// The octets that a client writes next to its own data block or the shared one.
    fn next_value(&self, client: u8, block: u8) -> Option<[u8; 4]> {
        if block == client || block == SHARED {
            Some(value_of(client, self.reads_of(client)?, block))
        } else {
            None
        }
    }

    /// Takes a write, whose octets are those that the client of the link writes next.
    fn writes(&mut self, link: u32, items: &[Item], value: &[u8]) -> Option<()> {
        let client = *value.first()?;
        let block = u8::try_from(items.first()?.db).ok()?;
        let new = self.next_value(client, block)?;
        let is_good = items == [item_of(block)].as_slice() && value == new.as_slice();
        if is_good && self.belongs(link, client) {
            *self.blocks.get_mut(usize::from(block))? = new;
            Some(())
        } else {
            None
        }
    }

    /// Reports whether a link belongs to this client, and to no other.
    fn belongs(&mut self, link: u32, client: u8) -> bool {
        if client == 0 || client > CLIENTS || link == 0 || link > u32::from(CLIENTS) {
            return false;
        }
        let of = &mut self.clients[link as usize];
        if *of == 0 {
            *of = client;
        }
        *of == client
    }
}

/// The answer to a read in this round, of a client's own data block and the shared one.
fn answer_of(alloc: Global, round: u8, own: [u8; 4], both: [u8; 4]) -> Option<Octets> {
    let reference = [READS, round];
    let parts: [&[u8]; 6] = [READ_ANSWER, &reference, TWO_READ, &own, NEXT_READ, &both];
    joined(alloc, &parts)
}

/// The item of the four octets of a data block.
fn item_of(block: u8) -> Item {
    Item {
        area: 0x84,
        db: u16::from(block),
        word: 0x02,
        count: 4,
        address: 0,
    }
}
