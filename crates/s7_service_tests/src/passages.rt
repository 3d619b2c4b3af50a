//! How far a telegram got that a relay kept: what it asked near and far, and what it was answered.
use crate::fields::{field, hex_number, is, octets};
use s7_client::{Job, JobResult};
use s7_item::{DataItems, DataPlace, Item, Items, read_data_items, read_items};
use s7_plant::{Reply, Request};
use s7_relay::Passage;
use std::alloc::Global;

/// The parameters of a message whose head is this long, and its data.
fn parts_of(message: &[u8], head: usize) -> Option<(&[u8], &[u8])> {
    let len = u16::from_be_bytes([*message.get(6)?, *message.get(7)?]);
    let rest = message.get(head..)?;
    Some((rest.get(..usize::from(len))?, rest.get(usize::from(len)..)?))
}

/// The octets at these places, joined.
fn joined(alloc: Global, places: &[DataPlace], octets: &[u8]) -> Option<Vec<u8>> {
    let mut all = Vec::new(alloc);
    for place in places {
        let part = octets.get(place.from..)?.get(..place.len)?;
        all.extend_from_slice(part).ok()?;
    }
    Some(all)
}

/// Whether the octets at these places, joined, are those that were found.
fn are_joined(alloc: Global, places: &[DataPlace], octets: &[u8], found: &[u8]) -> bool {
    match joined(alloc, places, octets) {
        Some(all) => all.as_slice() == found,
        None => false,
    }
}

/// Whether the data of a message writes these octets to so many items; data of no octet writes none.
fn is_data(alloc: Global, data: &[u8], count: usize, found: &[u8]) -> bool {
    if data.is_empty() || count > 20 {
        return data.is_empty() && found.is_empty();
    }
    let mut places = DataItems::new();
    read_data_items(data, count, &mut places).is_ok()
        && are_joined(alloc, places.as_slice(), data, found)
}

/// Whether parameters state items.
fn state_items(params: &[u8]) -> bool {
    read_items(params, &mut Items::new()).is_ok()
}

/// Whether parameters state these items.
fn are_items(params: &[u8], found: &[Item]) -> bool {
    let mut items = Items::new();
    read_items(params, &mut items).is_ok() && items.as_slice() == found
}

/// The parameters of a message, and its data.
type Parts<'a> = (&'a [u8], &'a [u8]);

/// Whether a message asks for these items, and writes these octets to them.
fn is_asked(alloc: Global, parts: Parts<'_>, items: &[Item], octets: &[u8]) -> bool {
    let (params, data) = parts;
    are_items(params, items) && is_data(alloc, data, items.len(), octets)
}

/// Whether a message asks for these items, and writes the octets at these places to them.
fn is_asked_at(
    alloc: Global,
    parts: Parts<'_>,
    items: &[Item],
    places: &[DataPlace],
    octets: &[u8],
) -> bool {
    match joined(alloc, places, octets) {
        Some(all) => is_asked(alloc, parts, items, all.as_slice()),
        None => false,
    }
}

/// Whether a request asks for what a message does. What is neither a read nor a write states no items.
fn is_request(alloc: Global, request: &Request, parts: Parts<'_>) -> bool {
    match request {
        Request::Read { items } => is_asked(alloc, parts, items.as_slice(), &[]),
        Request::Write {
            items,
            places,
            octets,
        } => is_asked_at(
            alloc,
            parts,
            items.as_slice(),
            places.list().as_slice(),
            octets.as_slice(),
        ),
        _ => !state_items(parts.0),
    }
}

/// Whether a far job asks for what a message does.
fn is_far_request(alloc: Global, job: &Job, parts: Parts<'_>) -> bool {
    match job {
        Job::ReadMany { items } => is_asked(alloc, parts, items.as_slice(), &[]),
        Job::WriteMany { items, octets } => {
            is_asked(alloc, parts, items.as_slice(), octets.as_slice())
        }
        _ => false,
    }
}

/// Whether a request asks for what a message of these octets does.
fn is_request_in(alloc: Global, request: &Request, message: &[u8]) -> bool {
    match parts_of(message, 10) {
        Some(parts) => is_request(alloc, request, parts),
        None => false,
    }
}

/// Whether a request asks for what a telegram does.
pub(crate) fn is_request_of(alloc: Global, request: &Request, telegram: &str) -> bool {
    match octets(alloc, telegram) {
        Some(message) => is_request_in(alloc, request, message.as_slice()),
        None => false,
    }
}

/// Whether a far job asks for what a message of these octets does.
fn is_far_request_in(alloc: Global, job: &Job, message: &[u8]) -> bool {
    match parts_of(message, 10) {
        Some(parts) => is_far_request(alloc, job, parts),
        None => false,
    }
}

/// Whether a far job asks for what a telegram does.
fn is_far_request_of(alloc: Global, job: &Job, telegram: &str) -> bool {
    match octets(alloc, telegram) {
        Some(message) => is_far_request_in(alloc, job, message.as_slice()),
        None => false,
    }
}

/// Whether a reply has the error word, the parameters and the data of a message of these octets.
fn is_reply(reply: &Reply, message: &[u8]) -> Option<bool> {
    let (params, data) = parts_of(message, 12)?;
    let error = u16::from_be_bytes([*message.get(10)?, *message.get(11)?]);
    Some(reply.error == error && reply.params.as_slice() == params && reply.body.as_slice() == data)
}

/// Whether a reply is this answer.
pub(crate) fn is_answer(alloc: Global, reply: &Reply, answer: &str) -> bool {
    match octets(alloc, answer) {
        Some(message) => is_reply(reply, message.as_slice()) == Some(true),
        None => false,
    }
}

/// Whether a connect ended with this code.
fn is_connect(connect: &JobResult, code: u32) -> bool {
    matches!(connect.job, Job::Connect)
        && connect.code == code
        && connect.count == 0
        && connect.octets.as_slice().is_empty()
}

/// Whether there was a connect, which ended with 0, and the word is `new`, or there was none and the word is `old`.
fn is_connected(connect: &Option<JobResult>, word: &str) -> bool {
    match connect {
        Some(connect) => word == "new" && is_connect(connect, 0),
        None => word == "old",
    }
}

/// Whether the codes of so many items are those that a text states.
fn are_codes(alloc: Global, codes: &[u8], count: u8, wanted: &str) -> bool {
    match codes.get(..usize::from(count)) {
        Some(found) => is(alloc, found, wanted),
        None => false,
    }
}

/// Whether a far job asked for what this telegram does, and ended with the codes and octets that are wanted.
fn is_job(alloc: Global, job: &JobResult, wanted: &str, telegram: &str) -> bool {
    job.code == hex_number(field(wanted, 2))
        && are_codes(alloc, &job.codes, job.count, field(wanted, 3))
        && is(alloc, job.octets.as_slice(), field(wanted, 4))
        && is_far_request_of(alloc, &job.job, telegram)
}

/// Whether a telegram got as far as wanted. If it was asked far, then as this telegram.
///
///     near                              it was answered near
///     undialled                         the dial failed
///     unconnected CODE                  the connect ended with this code
///     unpacked                          the client was connected for it, and it isn't asked
///     asked new CODE CODES OCTETS       the client was connected for it: the code of the job, the codes of its items,
///                                       and its octets
///     asked old CODE CODES OCTETS       the same, and the client had been connected before
pub(crate) fn is_passed(alloc: Global, passage: &Passage, wanted: &str, telegram: &str) -> bool {
    match passage {
        Passage::Near => wanted == "near",
        Passage::Undialled => wanted == "undialled",
        Passage::Unconnected { connect } => {
            field(wanted, 0) == "unconnected" && is_connect(connect, hex_number(field(wanted, 1)))
        }
        Passage::Unpacked { connect } => wanted == "unpacked" && is_connected(connect, "new"),
        Passage::Asked { connect, job } => {
            field(wanted, 0) == "asked"
                && is_connected(connect, field(wanted, 1))
                && is_job(alloc, job, wanted, telegram)
        }
    }
}
