//! Tests of areas: reads and writes of items, guards, copies, and the registration of areas.
ghost use Rattle.std.specs.Prelude.{◌≡◌, IfSome};
ghost use Rattle.s7_area.specs.Guards.{IsGuard};
ghost use Rattle.s7_area.specs.Memory.{shape_of};

use crate::rows::all_hold;
use s7_area::{AreaKey, Areas, Guard, RegisterFault};
use s7_item::Item;
use s7_outer::{Memory, Octets};
use std::alloc::Global;

/// The key of data block 1.
const DB1: AreaKey = AreaKey {
    area: 0x84,
    number: 1,
};

/// The key of the counters.
const COUNTERS: AreaKey = AreaKey {
    area: 0x1C,
    number: 0,
};

/// The key of an area.
fn key(area: u8, number: u16) -> AreaKey {
    AreaKey { area, number }
}

/// An item: the area, the data block, the word, the count and the address.
type Place = (u8, u16, u8, u16, u32);

/// The item at a place.
fn item_at(place: Place) -> Item {
    let (area, db, word, count, address) = place;
    Item {
        area,
        db,
        word,
        count,
        address,
    }
}

/// The fault for which an area isn't registered, and the number of octets that are handed back then.
fn refusal(
    alloc: Global,
    areas: &mut Areas,
    key: AreaKey,
    octets: Octets,
) -> Option<(RegisterFault, usize)> {
    match areas.register(alloc, key, octets) {
        Ok(()) => None,
        Err((fault, back)) => Some((fault, back.as_slice().len())),
    }
}

/// Keys of two areas, and the octets of these.
const TWO: &[(AreaKey, [u8; 4])] = &[(DB1, [0x11, 0x22, 0x33, 0x44]), (COUNTERS, [0, 1, 0, 2])];

/// Data block 1 with `11 22 33 44`, and the counters 1 and 2.
fn two_areas(alloc: Global) -> Result<Areas, Memory> {
    let mut areas = Areas::new();
    for (key, octets) in TWO {
        let octets = Octets::copy_of(alloc, octets)?;
        if refusal(alloc, &mut areas, *key, octets).is_some() {
            return Err(Memory);
        }
    }
    Ok(areas)
}

/// A guard of level 2 or 3. There is none for another level.
fn guard(level: u8) -> Option<Guard>
    ensures { IfSome result IsGuard }
{
    if level != 2 && level != 3 {
        return None;
    }
    Some(Guard {
        level,
        password: [0x4B, 0x65, 0x79, 0x37, 0x20, 0x20, 0x20, 0x20],
    })
}

/// The return codes of a read and of a write of the item.
fn codes(areas: &mut Areas, right: bool, item: &Item) -> (u8, u8) {
    let mut into = [0xEE; 8];
    if item.octet_count() > into.len() {
        return (0, 0);
    }
    let read = areas.read(right, item, &mut into).code;
    (read, areas.write(right, item, &[0x55]))
}

/// Reports whether a read of the item gives this return code and these octets, of which there are at most eight.
fn reads(areas: &Areas, item: &Item, code: u8, octets: &[u8]) -> bool {
    let mut into = [0xEE; 8];
    if item.octet_count() > into.len() {
        return false;
    }
    let answer = areas.read(true, item, &mut into);
    answer.code == code && answer.len == octets.len() && into.starts_with(octets)
}

/// Items, the return codes of their reads, and the octets that are read.
const READS: &[(Place, u8, &[u8])] = &[
    ((0x84, 1, 0x02, 2, 0x10), 0xFF, &[0x33, 0x44]),
    ((0x84, 1, 0x02, 2, 0x17), 0xFF, &[0x33, 0x44]),
    ((0x84, 1, 0x06, 1, 0), 0xFF, &[0x11, 0x22, 0x33, 0x44]),
    ((0x84, 1, 0x02, 2, 0x18), 0x05, &[]),
    ((0x84, 2, 0x02, 1, 0), 0x0A, &[]),
    ((0x84, 1, 0x02, 0, 0), 0x05, &[]),
    ((0x84, 1, 0x09, 1, 0), 0x06, &[]),
    ((0x84, 1, 0x01, 2, 0), 0x06, &[]),
    ((0x1C, 0, 0x02, 1, 0), 0x06, &[]),
    ((0x1C, 7, 0x1C, 1, 1), 0xFF, &[0x00, 0x02]),
    ((0x84, 1, 0x01, 1, 4), 0xFF, &[0x01]),
    ((0x84, 1, 0x01, 1, 5), 0xFF, &[0x00]),
];

/// The number of the first row whose read has another answer.
fn unmet_read(areas: &Areas) -> Option<usize> {
    for (number, (place, code, octets)) in READS.iter().enumerate() {
        if !reads(areas, &item_at(*place), *code, octets) {
            return Some(number);
        }
    }
    None
}

/// The number of the first such row of the two areas.
fn unmet_in_reads(alloc: Global) -> Option<usize> {
    match two_areas(alloc) {
        Ok(areas) => unmet_read(&areas),
        Err(_) => Some(0),
    }
}

/// Reads of items give the return codes and the octets of the rows.
#[test]
fn items_are_read(rt: HostRuntime) {
    all_hold(&rt, unmet_in_reads(rt.alloc()));
}

/// Items, the octets that are written to them, the return codes, and the octets of data block 1 after that.
const WRITES: &[(Place, &[u8], u8, &[u8])] = &[
    (
        (0x84, 1, 0x02, 1, 0),
        &[0xAA],
        0xFF,
        &[0xAA, 0x22, 0x33, 0x44],
    ),
    (
        (0x84, 1, 0x02, 1, 0x20),
        &[0xBB],
        0x05,
        &[0xAA, 0x22, 0x33, 0x44],
    ),
    (
        (0x84, 1, 0x02, 1, 0x18),
        &[0xCC],
        0xFF,
        &[0xAA, 0x22, 0x33, 0xCC],
    ),
    (
        (0x84, 1, 0x02, 1, 0x18),
        &[1, 2],
        0x07,
        &[0xAA, 0x22, 0x33, 0xCC],
    ),
    (
        (0x84, 1, 0x01, 1, 2),
        &[0x80],
        0xFF,
        &[0xAE, 0x22, 0x33, 0xCC],
    ),
    (
        (0x84, 1, 0x01, 1, 7),
        &[0x00],
        0xFF,
        &[0x2E, 0x22, 0x33, 0xCC],
    ),
    (
        (0x1D, 0, 0x1D, 1, 0),
        &[0, 1],
        0x0A,
        &[0x2E, 0x22, 0x33, 0xCC],
    ),
];

/// Reports whether an area has these octets. It has none if it isn't registered.
fn has_octets(areas: &Areas, key: AreaKey, octets: Option<&[u8]>) -> bool {
    areas.octets_of(key) == octets
}

/// Reports whether a write of octets to the item at a place gives this return code.
fn writes(areas: &mut Areas, place: Place, octets: &[u8], code: u8) -> bool {
    areas.write(true, &item_at(place), octets) == code
}

/// The number of the first row whose write has another answer, or leaves other octets.
fn unmet_write(areas: &mut Areas) -> Option<usize> {
    for (number, (place, octets, code, left)) in WRITES.iter().enumerate() {
        if !writes(areas, *place, octets, *code) || !has_octets(areas, DB1, Some(left)) {
            return Some(number);
        }
    }
    None
}

/// The number of the first such row of the two areas.
fn unmet_in_writes(alloc: Global) -> Option<usize> {
    match two_areas(alloc) {
        Ok(mut areas) => unmet_write(&mut areas),
        Err(_) => Some(0),
    }
}

/// Writes of items give the return codes of the rows, and leave the octets of the rows.
#[test]
fn items_are_written(rt: HostRuntime) {
    all_hold(&rt, unmet_in_writes(rt.alloc()));
}

/// The place of an item that is there.
const GOOD: Place = (0x84, 1, 0x02, 1, 0);

/// The place of an item whose word is unknown.
const BAD: Place = (0x84, 1, 0x09, 1, 0);

/// Levels of guards, whether a link has the right to pass them, items, and the return codes of a read and of a write.
const GUARDS: &[(u8, bool, Place, (u8, u8))] = &[
    (1, false, GOOD, (0xFF, 0xFF)),
    (2, false, GOOD, (0xFF, 0x03)),
    (2, false, BAD, (0x06, 0x03)),
    (2, true, GOOD, (0xFF, 0xFF)),
    (3, false, GOOD, (0x03, 0x03)),
    (3, false, BAD, (0x03, 0x03)),
    (3, true, GOOD, (0xFF, 0xFF)),
    (3, true, BAD, (0x06, 0x06)),
];

/// The two areas with the guard of a level.
fn guarded(alloc: Global, level: u8) -> Result<Areas, Memory> {
    let mut areas = two_areas(alloc)?;
    areas.set_guard(guard(level));
    Ok(areas)
}

/// A copy of the two areas with the guard of a level.
fn copied(alloc: Global, level: u8) -> Result<Areas, Memory> {
    guarded(alloc, level)?.copy(alloc)
}

/// Reports whether areas give these return codes.
fn have_codes(areas: &mut Areas, right: bool, item: &Item, answers: (u8, u8)) -> bool {
    codes(areas, right, item) == answers
}

/// Reports whether areas with the guard of a level give these return codes.
fn guards(alloc: Global, level: u8, right: bool, item: &Item, answers: (u8, u8)) -> bool {
    match guarded(alloc, level) {
        Ok(mut areas) => have_codes(&mut areas, right, item, answers),
        Err(_) => false,
    }
}

/// Reports whether a copy of areas with the guard of a level has this guard, and gives these return codes.
fn copy_guards(alloc: Global, level: u8, right: bool, item: &Item, answers: (u8, u8)) -> bool {
    match copied(alloc, level) {
        Ok(mut copy) => has_guard(&copy, level) && have_codes(&mut copy, right, item, answers),
        Err(_) => false,
    }
}

/// The number of the first row that doesn't hold.
fn unmet_guard(alloc: Global) -> Option<usize> {
    for (number, (level, right, place, answers)) in GUARDS.iter().enumerate() {
        let item = item_at(*place);
        if !guards(alloc, *level, *right, &item, *answers)
            || !copy_guards(alloc, *level, *right, &item, *answers)
        {
            return Some(number);
        }
    }
    None
}

/// A guard bars the items that the rows say, in areas and in a copy of them.
#[test]
fn guards_bar_items(rt: HostRuntime) {
    all_hold(&rt, unmet_guard(rt.alloc()));
}

/// Writes both areas and guards them. Each area keeps its length.
fn change(areas: &mut Areas)
    ensures { shape_of areas.new ≡ shape_of areas.old }
{
    areas.write(true, &item_at((0x84, 1, 0x02, 4, 0)), &[5, 6, 7, 8]);
    areas.write(true, &item_at((0x1C, 0, 0x1C, 1, 1)), &[0, 9]);
    areas.set_guard(guard(3));
}

/// A copy of areas, which took over the changed areas.
fn taken_over(alloc: Global) -> Result<Areas, Memory> {
    let mut areas = two_areas(alloc)?;
    let mut image = areas.copy(alloc)?;
    change(&mut areas);
    image.overwrite(&areas);
    Ok(image)
}

/// Reports whether areas have the guard of this level.
fn has_guard(areas: &Areas, level: u8) -> bool {
    areas.guard() == guard(level)
}

/// Reports whether a copy of areas takes over octets and a guard that were changed after it was made.
fn copies_take_over(alloc: Global) -> bool {
    match taken_over(alloc) {
        Ok(image) => {
            has_octets(&image, DB1, Some(&[5, 6, 7, 8]))
                && has_octets(&image, COUNTERS, Some(&[0, 1, 0, 9]))
                && has_guard(&image, 3)
        }
        Err(_) => false,
    }
}

/// Octets 07, `len` of them.
fn sevens(alloc: Global, len: usize) -> Option<Octets> {
    Some(Octets::of_vec(vec![in alloc; 7; len].ok()?))
}

/// Reports whether an area of `len` octets is registered, or refused for this fault, with its octets handed back.
fn registers(
    alloc: Global,
    areas: &mut Areas,
    key: AreaKey,
    len: usize,
    wanted: Option<RegisterFault>,
) -> bool {
    let Some(octets) = sevens(alloc, len) else {
        return false;
    };
    match (refusal(alloc, areas, key, octets), wanted) {
        (None, None) => true,
        (Some((fault, back)), Some(wanted)) => fault == wanted && back == len,
        _ => false,
    }
}

/// An area that is refused: its area, its number, its length, the fault, and the code of the fault.
type Refused = (u8, u16, usize, RegisterFault, u32);

/// Areas that are refused by areas with data block 1 and counters.
const REFUSED: &[Refused] = &[
    (0x84, 0, 4, RegisterFault::Key, 0x0050_0000),
    (0x83, 1, 4, RegisterFault::Key, 0x0050_0000),
    (0x80, 0, 4, RegisterFault::Key, 0x0050_0000),
    (0x84, 1, 0, RegisterFault::Size, 0x0050_0000),
    (0x84, 2, 2_097_153, RegisterFault::Size, 0x0050_0000),
    (0x1D, 0, 3, RegisterFault::Size, 0x0050_0000),
    (0x84, 1, 4, RegisterFault::Exists, 0x0030_0000),
    (0x1C, 0, 2, RegisterFault::Exists, 0x0030_0000),
];

/// An area that is refused by areas with 2,048 data blocks.
const TOO_MANY: Refused = (0x84, 2_049, 1, RegisterFault::TooManyDbs, 0x0060_0000);

/// Reports whether an area is refused as its row says.
fn refuses(alloc: Global, areas: &mut Areas, row: &Refused) -> bool {
    let (area, number, len, fault, code) = *row;
    registers(alloc, areas, key(area, number), len, Some(fault)) && fault.code() == code
}

/// Reports whether areas have this number of data blocks.
fn has_data_blocks(areas: &Areas, count: usize) -> bool {
    areas.db_numbers().count() == count
}

/// Reports whether areas are refused as the rows say, and none of them is there after that.
fn are_refused(alloc: Global, areas: &mut Areas) -> bool {
    for row in REFUSED {
        if !refuses(alloc, areas, row) {
            return false;
        }
    }
    has_data_blocks(areas, 1)
}

/// Reports whether the two areas refuse areas as the rows say.
fn refuse(alloc: Global) -> bool {
    match two_areas(alloc) {
        Ok(mut areas) => are_refused(alloc, &mut areas),
        Err(_) => false,
    }
}

/// Reports whether an area is unregistered and hands these octets back. It hands none back if it isn't registered.
fn unregisters(areas: &mut Areas, key: AreaKey, wanted: Option<&[u8]>) -> bool {
    match areas.unregister(key) {
        Ok(octets) => wanted == Some(octets.as_slice()),
        Err(_) => wanted.is_none(),
    }
}

/// Reports whether data block 1 is unregistered and hands its octets back, while a copy of the areas keeps it.
fn is_kept_by_copy(alloc: Global, areas: &mut Areas) -> bool {
    let Ok(copy) = areas.copy(alloc) else {
        return false;
    };
    unregisters(areas, DB1, Some(&[0x11, 0x22, 0x33, 0x44]))
        && has_octets(areas, DB1, None)
        && !has_octets(&copy, DB1, None)
}

/// Reports whether an area is registered beside the two, and a copy keeps an area that is unregistered.
fn take_another(alloc: Global, areas: &mut Areas) -> bool {
    registers(alloc, areas, key(0x84, 3), 2_097_152, None)
        && unregisters(areas, key(0x84, 9), None)
        && has_data_blocks(areas, 2)
        && is_kept_by_copy(alloc, areas)
}

/// Reports whether areas are registered and unregistered.
fn register(alloc: Global) -> bool {
    match two_areas(alloc) {
        Ok(mut areas) => take_another(alloc, &mut areas),
        Err(_) => false,
    }
}

/// Reports whether data blocks of one octet are registered, `count` of them.
fn are_registered(alloc: Global, areas: &mut Areas, count: u16) -> bool {
    for number in 1..=count {
        if !registers(alloc, areas, key(0x84, number), 1, None) {
            return false;
        }
    }
    true
}

/// Reports whether at most 2,048 data blocks are registered, and an area of another kind after them.
fn are_counted(alloc: Global) -> bool {
    let mut areas = Areas::new();
    are_registered(alloc, &mut areas, 2_048)
        && refuses(alloc, &mut areas, &TOO_MANY)
        && registers(alloc, &mut areas, key(0x83, 0), 1, None)
}

/// Areas are registered, refused, unregistered and copied, and their data blocks are counted.
#[test]
fn areas_are_registered(rt: HostRuntime) {
    assert!(rt;
        copies_take_over(rt.alloc())
            && refuse(rt.alloc())
            && register(rt.alloc())
            && are_counted(rt.alloc())
    );
}
