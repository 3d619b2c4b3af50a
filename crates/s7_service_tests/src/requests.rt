//! The requests that rows state.
ghost use Rattle.std.specs.Prelude.{◌+◌, ◌≤◌, All, IsTrue};
ghost use Rattle.s7_plant.specs.Replies.{IsReadyReply};
ghost use Rattle.s7_plant.specs.Requests.{CanBeDone};

use crate::fields::{code, field, is, kind, number, octets};
use s7_block::head_agrees;
use s7_block::kinds::is_stored_kind;
use s7_clock::{FIRST_MOMENT, LAST_MOMENT};
use s7_item::{
    BoxedDataItems, DataItems, DataPlace, Items, answer_size, read_data_items, read_items,
};
use s7_outer::{Buffer, Octets};
use s7_plant::{BODY_ROOM, PARAMS_ROOM, Reply, Request};
use std::alloc::Global;

/// The request that a row states, from its second field on:
///
///     read PARAMETERS            write PARAMETERS DATA
///     clock MOMENT               set MOMENT VALUE
///     start  stop  compress
///     insert KIND NUMBER IMAGE   delete KIND NUMBER
///
/// Moments are decimal numbers. Everything else is hexadecimal.
pub(crate) fn request_of(alloc: Global, row: &str) -> Option<Request> {
    match field(row, 1) {
        "read" => a_read(alloc, row),
        "write" => a_write(alloc, row),
        "insert" => an_insert(alloc, row),
        "start" => Some(Request::Start { cold: false }),
        "stop" => Some(Request::Stop),
        "compress" => Some(Request::Compress),
        "clock" => Some(Request::ClockRead {
            moment: number(field(row, 2)),
        }),
        word => of_numbers(word, row),
    }
}

/// The request of this word, which takes two numbers.
fn of_numbers(word: &str, row: &str) -> Option<Request> {
    match word {
        "set" => Some(Request::ClockSet {
            moment: number(field(row, 2)),
            value: number(field(row, 3)),
        }),
        "delete" => Some(Request::Delete {
            kind: kind(row, 2),
            number: code(row, 3),
        }),
        _ => None,
    }
}

/// The read that a row states.
fn a_read(alloc: Global, row: &str) -> Option<Request> {
    let items = items_of(alloc, field(row, 2))?;
    Some(Request::Read { items })
}

/// The write that a row states.
fn a_write(alloc: Global, row: &str) -> Option<Request> {
    let data = octets(alloc, field(row, 3))?;
    write_of(alloc, field(row, 2), data)
}

/// The items of the parameters of a read or a write.
fn items_of(alloc: Global, params: &str) -> Option<Items> {
    let mut items = Items::new();
    let params = octets(alloc, params)?;
    read_items(params.as_slice(), &mut items).ok()?;
    Some(items)
}

/// A write with these parameters and this data.
pub(crate) fn write_of(alloc: Global, params: &str, data: Vec<u8>) -> Option<Request> {
    let items = items_of(alloc, params)?;
    let mut places = DataItems::new();
    read_data_items(data.as_slice(), items.len(), &mut places).ok()?;
    Some(Request::Write {
        items,
        places: BoxedDataItems::new(alloc, places).ok()?,
        octets: Octets::of_vec(data),
    })
}

/// The insert that a row states, with room for a copy of its image.
fn an_insert(alloc: Global, row: &str) -> Option<Request> {
    let image = octets(alloc, field(row, 4))?;
    let spare = Buffer::new(alloc, image.len()).ok()?;
    Some(Request::Insert {
        kind: kind(row, 2),
        number: code(row, 3),
        spare,
        image: Octets::of_vec(image),
    })
}

/// Whether the request can be carried out.
pub(crate) fn can_be_done(request: &Request) -> bool
    ensures { IsTrue result → CanBeDone request.now }
{
    match request {
        Request::Read { items } => answer_size(items) <= 8_192,
        Request::Write {
            items,
            places,
            octets,
        } => {
            let places = places.list();
            places.len() == items.len() && are_inside(places.as_slice(), octets.as_slice().len())
        }
        Request::ClockSet { value, .. } => *value >= FIRST_MOMENT && *value <= LAST_MOMENT,
        Request::Insert {
            kind,
            number,
            image,
            spare,
        } => {
            is_stored_kind(*kind)
                && head_agrees(image.as_slice(), *kind, *number)
                && image.as_slice().len() <= spare.room()
        }
        _ => true,
    }
}

/// Whether each range lies inside `len` octets.
fn are_inside(places: &[DataPlace], len: usize) -> bool
    ensures { IsTrue result → All (λ place. place.from + place.len ≤ len) places.now }
{
    places
        .iter()
        .all(|place| place.from <= len && place.len <= len - place.from)
}

/// Whether the reply has the rooms that a plant needs.
pub(crate) fn is_ready(reply: &Reply) -> bool
    ensures { IsTrue result → IsReadyReply reply.now }
{
    reply.params.room() == PARAMS_ROOM && reply.body.room() == BODY_ROOM
}

/// Whether a request that was carried out is as a history keeps it: an insert still has its image, and no room for a
/// copy any more.
pub(crate) fn is_kept(alloc: Global, request: &Request, row: &str) -> bool {
    match request {
        Request::Insert { image, spare, .. } => {
            spare.room() == 0 && is(alloc, image.as_slice(), field(row, 4))
        }
        _ => true,
    }
}

/// Whether the request is a write of one item with the data of this row.
pub(crate) fn is_write(alloc: Global, request: &Request, row: &str) -> bool {
    match request {
        Request::Write { items, octets, .. } => {
            items.len() == 1 && is(alloc, octets.as_slice(), field(row, 3))
        }
        _ => false,
    }
}
