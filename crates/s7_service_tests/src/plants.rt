//! Rows that a plant has to meet.
ghost use Rattle.std.specs.Prelude.{IfSome};
ghost use Rattle.s7_area.specs.Guards.{IsGuard};

use crate::fields::{add_octets, code, field, is, kind, number, octets, part};
use crate::requests::{can_be_done, is_kept, is_ready, request_of};
use crate::rows::all_lines_hold;
use crate::{areas, blocks, control};
use s7_area::{AreaKey, Areas, Guard};
use s7_block::{Block, Blocks};
use s7_outer::Octets;
use s7_plant::{BODY_ROOM, Plant, Reply, Request};
use std::alloc::Global;

/// The first row that a plant doesn't meet after it was given the others, `None` if it meets all. A row changes the
/// plant, makes a request, or states what the plant shows, as `shows` describes.
///
///     area AREA NUMBER OCTETS       registers an area
///     block KIND NUMBER IMAGE       loads a block
///     functions FIRST LAST          loads the functions of these numbers, which are decimal
///     guard LEVEL                   sets a guard of level 2 or 3, with a password
///     ahead MILLISECONDS            sets by how much the clock is ahead
///     asks REQUEST | ANSWER         the answer to a request with the right, which isn't carried out
///     owner REQUEST | ANSWER        the answer to a request with the right, before it is carried out and by that
///     any REQUEST | ANSWER          the same without the right
///
/// An answer is an error word, parameters and a body.
fn unmet_by<'a>(alloc: Global, given: &'a str, rows: &'a str) -> Option<&'a str> {
    match a_plant(alloc, given) {
        Some(mut plant) => unmet(alloc, &mut plant, rows),
        None => Some(given),
    }
}

/// A plant that was given these rows. `None` if it doesn't meet one of them.
pub(crate) fn a_plant(alloc: Global, given: &str) -> Option<Plant> {
    let blocks = Blocks::new(alloc, 1_024).ok()?;
    let mut plant = Plant::new(Areas::new(), blocks);
    match unmet(alloc, &mut plant, given) {
        Some(_) => None,
        None => Some(plant),
    }
}

/// The first row that the plant doesn't meet, `None` if it meets all.
fn unmet<'a>(alloc: Global, plant: &mut Plant, rows: &'a str) -> Option<&'a str> {
    for row in rows.lines() {
        match does_row(alloc, plant, row) {
            Some(true) => {}
            _ => return Some(row),
        }
    }
    None
}

/// Whether the plant meets a row.
fn does_row(alloc: Global, plant: &mut Plant, row: &str) -> Option<bool> {
    match field(row, 0) {
        "area" => registers(alloc, plant, row),
        "block" => loads(alloc, plant, row),
        "functions" => loads_functions(alloc, plant, row),
        "guard" => Some(is_guarded(plant, kind(row, 1))),
        "ahead" => {
            plant.offset = offset_of(row)?;
            Some(true)
        }
        "asks" | "owner" | "any" => answers(alloc, plant, row),
        _ => shows(alloc, plant, row),
    }
}

/// The area that a row names in its second and third fields.
fn key_of(row: &str) -> AreaKey {
    AreaKey {
        area: kind(row, 1),
        number: code(row, 2),
    }
}

/// Registers the area of a row, and returns whether that succeeded.
fn registers(alloc: Global, plant: &mut Plant, row: &str) -> Option<bool> {
    let octets = Octets::of_vec(octets(alloc, field(row, 3))?);
    Some(plant.areas.register(alloc, key_of(row), octets).is_ok())
}

/// Loads the block of a row, and returns whether that succeeded.
fn loads(alloc: Global, plant: &mut Plant, row: &str) -> Option<bool> {
    let image = octets(alloc, field(row, 3))?;
    Some(inserts(plant, key_of(row), image))
}

/// Loads a block with the kind and the number of the key, and returns whether that succeeded.
fn inserts(plant: &mut Plant, key: AreaKey, image: Vec<u8>) -> bool {
    let block = Block {
        kind: key.area,
        number: key.number,
        image: Octets::of_vec(image),
    };
    plant.blocks.insert(block).is_ok()
}

/// Loads the functions of a row, and returns whether that succeeded.
fn loads_functions(alloc: Global, plant: &mut Plant, row: &str) -> Option<bool> {
    let end = number(field(row, 2)).saturating_add(1);
    for n in number(field(row, 1))..end {
        if !loads_function(alloc, plant, u16::try_from(n).ok()?)? {
            return Some(false);
        }
    }
    Some(true)
}

/// Loads the function of this number, and returns whether that succeeded.
fn loads_function(alloc: Global, plant: &mut Plant, number: u16) -> Option<bool> {
    let image = a_function(alloc, number)?;
    let key = AreaKey { area: 0x43, number };
    Some(inserts(plant, key, image))
}

/// The image of the function of this number, with a body of two octets AA.
fn a_function(alloc: Global, number: u16) -> Option<Vec<u8>> {
    let mut image = octets(alloc, "70700101.01.0C")?;
    image.extend_from_slice(&number.to_be_bytes()).ok()?;
    add_octets(alloc, &mut image, "00000026.00*22.0002.AAAA")?;
    Some(image)
}

/// Sets a guard of this level. False if there is no such level.
fn is_guarded(plant: &mut Plant, level: u8) -> bool {
    let guard = a_guard(level);
    plant.areas.set_guard(guard);
    guard.is_some()
}

/// A guard of level 2 or 3; `None` for another level.
fn a_guard(level: u8) -> Option<Guard>
    ensures { IfSome result IsGuard }
{
    if level != 2 && level != 3 {
        return None;
    }
    Some(Guard {
        level,
        password: [0x4B, 0x65, 0x79, 0x37, 0x20, 0x20, 0x20, 0x20],
    })
}

/// Whether the plant answers the request of a row as the row states: before it is carried out, and, unless the word is
/// `asks`, when it is carried out.
fn answers(alloc: Global, plant: &mut Plant, row: &str) -> Option<bool> {
    let word = field(row, 0);
    let right = word != "any";
    Some(tells(alloc, plant, right, row)? && (word == "asks" || steps(alloc, plant, right, row)?))
}

/// Whether the plant answers the request of a row as the row states. The request isn't carried out.
fn tells(alloc: Global, plant: &Plant, right: bool, row: &str) -> Option<bool> {
    let request = request_of(alloc, row)?;
    Some(is_told(alloc, plant, right, &request, row))
}

/// Whether the plant's answer in a new reply is the row's. The request isn't carried out.
fn is_told(alloc: Global, plant: &Plant, right: bool, request: &Request, row: &str) -> bool {
    match Reply::new(alloc, BODY_ROOM) {
        Ok(mut reply) => {
            tell(plant, right, request, &mut reply) && says(alloc, &reply, part(row, '|', 1))
        }
        Err(_) => false,
    }
}

/// Has the plant answer the request without carrying it out. False if the request can't be carried out or the reply
/// isn't ready; then the plant isn't called.
fn tell(plant: &Plant, right: bool, request: &Request, reply: &mut Reply) -> bool {
    if !can_be_done(request) || !is_ready(reply) {
        return false;
    }
    plant.reply(right, request, reply);
    true
}

/// Whether the plant carries out the request of a row, answers as the row states, and leaves the request as a history
/// keeps it.
fn steps(alloc: Global, plant: &mut Plant, right: bool, row: &str) -> Option<bool> {
    let mut request = request_of(alloc, row)?;
    let is_so = is_done(alloc, plant, right, &mut request, row) && is_kept(alloc, &request, row);
    Some(is_so)
}

/// Whether the plant carries out the request, and its answer in a new reply is the row's.
fn is_done(
    alloc: Global,
    plant: &mut Plant,
    right: bool,
    request: &mut Request,
    row: &str,
) -> bool {
    match Reply::new(alloc, BODY_ROOM) {
        Ok(mut reply) => {
            step(plant, right, request, &mut reply) && says(alloc, &reply, part(row, '|', 1))
        }
        Err(_) => false,
    }
}

/// Has the plant carry out the request. False if the request can't be carried out or the reply isn't ready; then the
/// plant isn't called.
fn step(plant: &mut Plant, right: bool, request: &mut Request, reply: &mut Reply) -> bool {
    if !can_be_done(request) || !is_ready(reply) {
        return false;
    }
    plant.step(right, request, reply);
    true
}

/// Whether the reply is this answer: an error word, parameters and a body.
pub(crate) fn says(alloc: Global, reply: &Reply, answer: &str) -> bool {
    reply.error == code(answer, 0)
        && is(alloc, reply.params.as_slice(), field(answer, 1))
        && is(alloc, reply.body.as_slice(), field(answer, 2))
}

/// Whether the plant shows what a row states. `None` if the row can't be read, or names an area or a block that the
/// plant doesn't have.
///
///     runs MILLISECONDS             it runs, and its clock is ahead by this
///     stands MILLISECONDS           it is stopped, and its clock is ahead by this
///     holds AREA NUMBER OCTETS      the octets of an area
///     loaded COUNT                  how many blocks are in the store
///     last KIND NUMBER OCTET        the last octet of a block in the store
///     without KIND NUMBER           no such block is in the store
pub(crate) fn shows(alloc: Global, plant: &Plant, row: &str) -> Option<bool> {
    match field(row, 0) {
        "runs" => Some(plant.running && plant.offset == offset_of(row)?),
        "stands" => Some(!plant.running && plant.offset == offset_of(row)?),
        "holds" => holds(alloc, plant, row),
        "loaded" => Some(plant.blocks.len() as u64 == number(field(row, 1))),
        "last" => has_last(plant, row),
        "without" => Some(plant.blocks.get(kind(row, 1), code(row, 2)).is_none()),
        _ => None,
    }
}

/// The number of milliseconds in the second field of a row, by which the clock is ahead.
fn offset_of(row: &str) -> Option<i64> {
    field(row, 1).parse::<i64>().ok()
}

/// Whether the area of a row has the row's octets.
fn holds(alloc: Global, plant: &Plant, row: &str) -> Option<bool> {
    let found = plant.areas.octets_of(key_of(row))?;
    Some(is(alloc, found, field(row, 3)))
}

/// Whether the block of a row ends with the row's octet.
fn has_last(plant: &Plant, row: &str) -> Option<bool> {
    let block = plant.blocks.get(kind(row, 1), code(row, 2))?;
    let last = block.image.as_slice().last()?;
    Some(*last == kind(row, 3))
}

/// The tests of plants: the rows that a plant is given, and the rows that it has to meet then.
const PLANTS: &[(&str, &str)] = &[
    (areas::AREAS, areas::READS),
    (areas::AREAS, areas::WRITES),
    (blocks::BLOCKS, blocks::TAKEN),
    (areas::AREAS, blocks::FULL),
    (areas::AREAS, control::CLOCKS),
];

/// The first row that a plant of the tests doesn't meet, `None` if all meet theirs.
fn unmet_by_any(alloc: Global, tests: &[(&'static str, &'static str)]) -> Option<&'static str> {
    for (given, rows) in tests {
        let unmet = unmet_by(alloc, given, rows);
        if unmet.is_some() {
            return unmet;
        }
    }
    None
}

/// Each plant meets its rows.
#[test]
fn plants_meet_their_rows(rt: HostRuntime) {
    all_lines_hold(&rt, unmet_by_any(rt.alloc(), PLANTS));
}
