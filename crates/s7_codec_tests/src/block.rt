//! Tests of blocks: heads, the store of blocks, marks, and the sides of uploads and downloads.
ghost use Rattle.std.specs.Prelude.{◌≡◌, IfSome};

use crate::rows::all_hold;
use s7_block::{
    Added, Block, BlockClient, BlockFault, BlockName, Blocks, DownloadSide, Marks, UploadSide,
    db_head, head_agrees,
};
use s7_outer::{Buffer, Octets};
use std::alloc::Global;

/// Function 5 of 38 octets: its head, and two octets of its own.
const FC_5: [u8; 38] = [
    0x70, 0x70, 0x01, 0x01, 0x05, 0x0C, 0x00, 0x05, 0x00, 0x00, 0x00, 0x26, 0x00, 0x00, 0x00, 0x00,
    0x00, 0x00, 0x00, 0x00, 0x00, 0x00, 0x00, 0x00, 0x00, 0x00, 0x00, 0x00, 0x00, 0x00, 0x00, 0x00,
    0x00, 0x00, 0x00, 0x02, 0xAA, 0xBB,
];

/// The head of data block 12 of 1,000 octets.
const HEAD_12: [u8; 36] = [
    0x70, 0x70, 0x01, 0x01, 0x05, 0x0A, 0x00, 0x0C, 0x00, 0x00, 0x04, 0x0C, 0x00, 0x00, 0x00, 0x00,
    0x00, 0x00, 0x00, 0x00, 0x00, 0x00, 0x00, 0x00, 0x00, 0x00, 0x00, 0x00, 0x00, 0x00, 0x00, 0x00,
    0x00, 0x00, 0x03, 0xE8,
];

/// The head of a data block. It is written only if the data block has at most 65,536 octets.
fn head(number: u16, len: u32) -> [u8; 36] {
    let mut head = [0xEE; 36];
    if len <= 65_536 {
        db_head(number, len, &mut head);
    }
    head
}

/// Reports whether the head of a data block has this number and load length, and this body length.
fn has_fields(number: u16, len: u32, first: &[u8], last: &[u8]) -> bool {
    let head = head(number, len);
    &head[6..12] == first && &head[34..] == last
}

/// Reports whether an image's head is that of a block of this kind and number.
fn agrees(image: &[u8], kind: u8, number: u16) -> bool {
    head_agrees(image, kind, number)
}

/// Reports whether the head of function 5 agrees with another octet at this offset.
fn agrees_changed(at: usize) -> bool {
    let mut image = FC_5;
    if at < 38 {
        image[at] ^= 0x01;
    }
    agrees(&image, 0x43, 5)
}

/// The offsets of the octets of the mark, the type, the number, the load length and the body length.
const LOOKED_AT: &[usize] = &[0, 1, 5, 6, 7, 8, 9, 10, 11, 34, 35];

/// The offsets of octets that are not looked at.
const OTHERS: &[usize] = &[2, 3, 4, 12, 21, 33, 37];

/// Numbers of the first octets of function 5, a kind, a number, and whether the image agrees with them.
const IMAGES: &[(usize, u8, u16, bool)] = &[
    (38, 0x43, 5, true),
    (38, 0x45, 5, false),
    (38, 0x43, 6, false),
    (37, 0x43, 5, false),
    (35, 0x43, 5, false),
];

/// Reports whether the first octets of function 5 agree as a row says.
fn agrees_as(row: &(usize, u8, u16, bool)) -> bool {
    let (len, kind, number, wanted) = *row;
    len <= 38 && agrees(&FC_5[..len], kind, number) == wanted
}

/// Reports whether the first octets of function 5 agree as all rows say.
fn all_agree_as(rows: &[(usize, u8, u16, bool)]) -> bool {
    for row in rows {
        if !agrees_as(row) {
            return false;
        }
    }
    true
}

/// Reports whether the head agrees, or not, with another octet at each of these offsets.
fn all_agree(offsets: &[usize], wanted: bool) -> bool {
    for at in offsets {
        if agrees_changed(*at) != wanted {
            return false;
        }
    }
    true
}

/// The heads of data blocks have the octets of the format. An image agrees exactly with the kind, the number and the
/// lengths of its head.
#[test]
fn heads_are_written_and_agree(rt: HostRuntime) {
    assert!(rt;
        head(12, 1_000) == HEAD_12
            && has_fields(0x1234, 65_536, b"\x12\x34\x00\x01\x00\x24", b"\xFF\xFF")
            && all_agree_as(IMAGES)
            && all_agree(LOOKED_AT, false)
            && all_agree(OTHERS, true)
    );
}

/// Function 5 under another number, which its head has too.
fn function(number: u16) -> [u8; 38] {
    let mut image = FC_5;
    image[6] = (number / 256) as u8;
    image[7] = (number % 256) as u8;
    image
}

/// The outcome of an insert: the number of the block that was replaced, if there was one, or the fault, the number of
/// the block that was handed back, and whether it has this image.
fn inserted(
    blocks: &mut Blocks,
    block: Block,
    image: &[u8; 38],
) -> Result<Option<u16>, (BlockFault, u16, bool)> {
    match blocks.insert(block) {
        Ok(None) => Ok(None),
        Ok(Some(replaced)) => Ok(Some(replaced.number)),
        Err((fault, back)) => Err((
            fault,
            back.number,
            back.image.as_slice() == image.as_slice(),
        )),
    }
}

/// Reports whether the insert of a block has this outcome: the number of the block that was replaced, if there was one,
/// or the fault. If it is refused, the block is handed back as it was.
fn inserts(
    alloc: Global,
    blocks: &mut Blocks,
    name: BlockName,
    image: &[u8; 38],
    wanted: Result<Option<u16>, BlockFault>,
) -> bool {
    let Ok(octets) = Octets::copy_of(alloc, image) else {
        return false;
    };
    let BlockName { kind, number } = name;
    let block = Block {
        kind,
        number,
        image: octets,
    };
    match (inserted(blocks, block, image), wanted) {
        (Ok(replaced), Ok(wanted)) => replaced == wanted,
        (Err((fault, back, is_same)), Err(wanted)) => {
            fault == wanted && back == number && is_same
        }
        _ => false,
    }
}

/// Reports whether the insert of a function of this number has this outcome.
fn inserts_function(
    alloc: Global,
    blocks: &mut Blocks,
    number: u16,
    wanted: Result<Option<u16>, BlockFault>,
) -> bool {
    let name = BlockName { kind: 0x43, number };
    inserts(alloc, blocks, name, &function(number), wanted)
}

/// Reports whether there are `len` blocks, `functions` of them functions, with this first one, and there is no
/// organization block.
fn has(blocks: &Blocks, len: usize, functions: u16, first: u16) -> bool {
    blocks.len() == len
        && blocks.limit() == 1_024
        && blocks.count_of(0x43) == functions
        && blocks.count_of(0x38) == 0
        && blocks.numbers_of(0x43).next() == Some(first)
}

/// Reports whether there is a function of this number.
fn has_function(blocks: &Blocks, number: u16) -> bool {
    blocks.get(0x43, number).is_some()
}

/// The number of the block that is deleted, if it was there.
fn deleted(blocks: &mut Blocks, kind: u8, number: u16) -> Option<u16> {
    let block = blocks.delete(kind, number)?;
    Some(block.number)
}

/// Reports whether the functions from 1,024 down to 1 are inserted.
fn are_inserted(alloc: Global, blocks: &mut Blocks) -> bool {
    for number in 0..1_024 {
        if !inserts_function(alloc, blocks, 1_024 - number, Ok(None)) {
            return false;
        }
    }
    has(blocks, 1_024, 1_024, 1)
}

/// Reports whether a full store refuses another function, and replaces one.
fn is_full(alloc: Global, blocks: &mut Blocks) -> bool {
    inserts_function(alloc, blocks, 1_025, Err(BlockFault::Full))
        && inserts_function(alloc, blocks, 7, Ok(Some(7)))
        && has(blocks, 1_024, 1_024, 1)
}

/// Reports whether the first function is deleted, and nothing that isn't there.
fn is_deleted(blocks: &mut Blocks) -> bool {
    deleted(blocks, 0x43, 1) == Some(1)
        && deleted(blocks, 0x45, 2) == None
        && !has_function(blocks, 1)
        && has_function(blocks, 2)
        && has(blocks, 1_023, 1_023, 2)
}

/// Reports whether a copy of blocks has the functions from 2 to 1,024.
fn is_copied(alloc: Global, blocks: &Blocks) -> bool {
    match blocks.copy(alloc) {
        Ok(copy) => has(&copy, 1_023, 1_023, 2) && has_function(&copy, 1_024),
        Err(_) => false,
    }
}

/// Reports whether a store takes, replaces, finds, deletes and copies blocks.
fn are_stored(alloc: Global) -> bool {
    match Blocks::new(alloc, 1_024) {
        Ok(mut blocks) => {
            are_inserted(alloc, &mut blocks)
                && is_full(alloc, &mut blocks)
                && is_deleted(&mut blocks)
                && is_copied(alloc, &blocks)
        }
        Err(_) => false,
    }
}

/// Blocks with the image of function 5 that a store without room refuses: the kind, the number and the fault.
const REFUSED: &[(u8, u16, BlockFault)] = &[
    (0x41, 5, BlockFault::Kind),
    (0x46, 6, BlockFault::Kind),
    (0x43, 6, BlockFault::BadHead),
    (0x45, 5, BlockFault::BadHead),
    (0x43, 5, BlockFault::Full),
];

/// Reports whether a store refuses blocks as the rows say.
fn are_refused(alloc: Global, blocks: &mut Blocks) -> bool {
    for &(kind, number, fault) in REFUSED {
        let name = BlockName { kind, number };
        if !inserts(alloc, blocks, name, &FC_5, Err(fault)) {
            return false;
        }
    }
    true
}

/// Reports whether a block with several faults is refused for the first one by a store without room.
fn faults_come_in_order(alloc: Global) -> bool {
    match Blocks::new(alloc, 0) {
        Ok(mut blocks) => are_refused(alloc, &mut blocks),
        Err(_) => false,
    }
}

/// A store takes, replaces, finds, deletes and copies blocks, and refuses blocks with faults.
#[test]
fn blocks_are_stored(rt: HostRuntime) {
    assert!(rt; are_stored(rt.alloc()) && faults_come_in_order(rt.alloc()));
}

/// Marks a function with a number. The number 0 removes the function.
fn mark(marks: &mut Marks, number: u16, with: u64) {
    let name = BlockName { kind: 0x43, number };
    if with == 0 {
        marks.remove(name);
    } else if marks.as_slice().len() < marks.limit() {
        marks.put(name, with);
    }
}

/// The marks of blocks, after these edits.
fn marks_of(alloc: Global, blocks: &Blocks, edits: &[(u16, u64)]) -> Option<Marks> {
    let mut marks = Marks::of(alloc, blocks).ok()?;
    for &(number, with) in edits {
        mark(&mut marks, number, with);
    }
    Some(marks)
}

/// Reports whether the marks are of these functions with these numbers, where 0 is none.
fn are_marks(marks: &Marks, wanted: &[(u16, u64)]) -> bool {
    let list = marks.as_slice();
    if list.len() != wanted.len() {
        return false;
    }
    for k in 0..wanted.len() {
        let (name, with) = list[k];
        if name.kind != 0x43 || (name.number, with.unwrap_or(0)) != wanted[k] {
            return false;
        }
    }
    true
}

/// Reports whether other marks of the blocks have taken over these, which are so.
fn are_taken_over(alloc: Global, blocks: &Blocks, marks: &Marks, wanted: &[(u16, u64)]) -> bool {
    let Some(mut copy) = marks_of(alloc, blocks, &[]) else {
        return false;
    };
    if marks.limit() <= copy.limit() {
        copy.overwrite(marks);
    }
    are_marks(&copy, wanted)
}

/// Reports whether blocks have these marks after these edits, and other marks of them have taken these over.
fn have_marks(alloc: Global, blocks: &Blocks, edits: &[(u16, u64)], wanted: &[(u16, u64)]) -> bool {
    match marks_of(alloc, blocks, edits) {
        Some(marks) => {
            are_marks(&marks, wanted) && are_taken_over(alloc, blocks, &marks, wanted)
        }
        None => false,
    }
}

/// Edits of the marks of two functions, and the marks after them.
type Edited = (&'static [(u16, u64)], &'static [(u16, u64)]);

/// Edits of the marks of the functions 5 and 2.
const MARKED: &[Edited] = &[
    (&[], &[(2, 0), (5, 0)]),
    (&[(5, 7)], &[(2, 0), (5, 7)]),
    (&[(1, 7), (9, 8)], &[(1, 7), (2, 0), (5, 0), (9, 8)]),
    (&[(3, 7), (3, 8)], &[(2, 0), (3, 8), (5, 0)]),
    (&[(2, 7), (2, 0)], &[(5, 0)]),
    (&[(4, 0), (2, 0), (5, 0)], &[]),
    (&[(2, 0), (2, 7)], &[(2, 7), (5, 0)]),
];

/// Blocks with the functions 5 and 2.
fn two_functions(alloc: Global) -> Option<Blocks> {
    let mut blocks = Blocks::new(alloc, 8).ok()?;
    let is_made = inserts_function(alloc, &mut blocks, 5, Ok(None))
        && inserts_function(alloc, &mut blocks, 2, Ok(None));
    if is_made { Some(blocks) } else { None }
}

/// The number of the first row that doesn't hold.
fn unmet_marks(alloc: Global, blocks: &Blocks, rows: &[Edited]) -> Option<usize> {
    for (row, (edits, marks)) in rows.iter().enumerate() {
        if !have_marks(alloc, blocks, edits, marks) {
            return Some(row);
        }
    }
    None
}

/// The number of the first row that doesn't hold of a store with two functions.
fn unmet_row(alloc: Global) -> Option<usize> {
    match two_functions(alloc) {
        Some(blocks) => unmet_marks(alloc, &blocks, MARKED),
        None => Some(0),
    }
}

/// Marks of blocks are put and removed as the rows say.
#[test]
fn blocks_are_marked(rt: HostRuntime) {
    all_hold(&rt, unmet_row(rt.alloc()));
}

/// A buffer of room for 2,000 octets. It holds the octets of both parts, if the first has at most 1,900 and the second
/// at most 100.
fn image_of(alloc: Global, first: &[u8], second: &[u8]) -> Option<Buffer>
    ensures { IfSome result (λ image. image.room ≡ 2000) }
{
    let Ok(mut image) = Buffer::new(alloc, 2_000) else {
        return None;
    };
    if first.len() <= 1_900 && second.len() <= 100 {
        image.add(first);
        image.add(second);
    }
    Some(image)
}

/// Reports whether a buffer is empty and has room for 2,000 octets.
fn is_emptied(image: &Buffer) -> bool {
    image.as_slice().is_empty() && image.room() == 2_000
}

/// A side that sends these octets as the upload of this number. There is none if memory is missing, or the buffer of
/// the octets isn't empty after that, with its room.
fn sending(alloc: Global, first: &[u8], second: &[u8], id: u8) -> Option<UploadSide> {
    let mut image = image_of(alloc, first, second)?;
    let Ok(mut side) = UploadSide::new(alloc, 2_000) else {
        return None;
    };
    side.begin(&mut image, id);
    if is_emptied(&image) { Some(side) } else { None }
}

/// The number of octets of a slice of at most 222, its last octet, and whether more slices come.
fn slice(side: &mut UploadSide, id: u8) -> Option<(usize, Option<u8>, bool)> {
    let slice = side.slice(id, 222)?;
    let last = match slice.octets {
        [.., last] => Some(*last),
        [] => None,
    };
    Some((slice.octets.len(), last, slice.more))
}

/// Reports whether an upload of this number was there and is ended.
fn ends(side: &mut UploadSide, id: u8) -> bool {
    side.end(id)
}

/// The slices of an image of 1,035 octets AB and one CD.
const SLICES: &[(usize, Option<u8>, bool)] = &[
    (222, Some(0xAB), true),
    (222, Some(0xAB), true),
    (222, Some(0xAB), true),
    (222, Some(0xAB), true),
    (148, Some(0xCD), false),
];

/// Reports whether the upload of this number gives these slices and no more, and is ended once. The next number is that
/// of no upload.
fn gives_slices(side: &mut UploadSide, id: u8, slices: &[(usize, Option<u8>, bool)]) -> bool {
    let other = id.saturating_add(1);
    let is_alone = slice(side, other) == None;
    for wanted in slices {
        if slice(side, id) != Some(*wanted) {
            return false;
        }
    }
    is_alone && slice(side, id) == None && !ends(side, other) && ends(side, id) && !ends(side, id)
}

/// Reports whether an image of these octets is sent in these slices as the upload of this number.
fn is_sliced(
    alloc: Global,
    octets: (&[u8], &[u8]),
    id: u8,
    slices: &[(usize, Option<u8>, bool)],
) -> bool {
    match sending(alloc, octets.0, octets.1, id) {
        Some(mut side) => gives_slices(&mut side, id, slices),
        None => false,
    }
}

/// An image of 1,036 octets is sent in five slices, and an empty one in one slice.
#[test]
fn images_are_sliced(rt: HostRuntime) {
    assert!(rt;
        is_sliced(rt.alloc(), (&[0xAB; 1_035], &[0xCD]), 3, SLICES)
            && is_sliced(rt.alloc(), (&[], &[]), 1, &[(0, None, false)])
    );
}

/// The answer of a side to the last of these pieces that it takes, and whether it awaits more after that.
fn added(side: &mut DownloadSide, pieces: &[(&[u8], bool)]) -> (Added, bool) {
    let mut last = Added::More;
    for &(octets, more) in pieces {
        if side.is_awaiting() {
            last = side.add(octets, more);
        }
    }
    (last, side.is_awaiting())
}

/// Reports whether the side has these octets as the image of a block.
fn has_image(side: &DownloadSide, kind: u8, number: u16, octets: Option<&[u8]>) -> bool {
    side.image(kind, number) == octets
}

/// Lengths of images, their pieces and whether more come after each, and the answer to the last piece.
const PIECES: &[(u32, &[(&[u8], bool)], Added)] = &[
    (3, &[(&[1, 2], true), (&[3], false)], Added::Last),
    (3, &[(&[1, 2, 3], false)], Added::Last),
    (3, &[(&[1, 2, 3], true), (&[], false)], Added::Last),
    (3, &[(&[1, 2], true), (&[3, 4], false)], Added::Dropped),
    (3, &[(&[1, 2], false)], Added::Dropped),
    (3, &[(&[1, 2], true), (&[], true)], Added::Dropped),
    (
        9,
        &[(&[1, 2, 3, 4, 5, 6, 7, 8], true), (&[9], false)],
        Added::Dropped,
    ),
    (3, &[(&[1, 2], true)], Added::More),
];

/// Reports whether a download of function 5 ends with this answer. Its image is 1, 2, 3 if it is whole.
fn is_joined(side: &mut DownloadSide, len: u32, pieces: &[(&[u8], bool)], end: Added) -> bool {
    side.begin(0x43, 5, len);
    let is_begun = has_image(side, 0x43, 5, None);
    let is_added = added(side, pieces) == (end, end == Added::More);
    let image: Option<&[u8]> = if end == Added::Last {
        Some(&[1, 2, 3])
    } else {
        None
    };
    is_begun
        && is_added
        && has_image(side, 0x43, 5, image)
        && has_image(side, 0x43, 6, None)
        && has_image(side, 0x45, 5, None)
}

/// Reports whether images are joined from their pieces, or dropped, as the rows say.
fn all_are_joined(side: &mut DownloadSide) -> bool {
    for &(len, pieces, end) in PIECES {
        if !is_joined(side, len, pieces, end) {
            return false;
        }
    }
    true
}

/// Reports whether a side of a download joins all images.
fn joins_images(alloc: Global) -> bool {
    match DownloadSide::new(alloc, 8) {
        Ok(mut side) => all_are_joined(&mut side),
        Err(_) => false,
    }
}

/// Reports whether a client answers a slice so, and has this image after that.
fn takes(client: &mut BlockClient, octets: &[u8], more: bool, answer: Added, image: &[u8]) -> bool {
    client.is_awaiting() && client.add(octets, more) == answer && client.image() == image
}

/// Reports whether a client joins an image from two slices.
fn joins_slices(client: &mut BlockClient) -> bool {
    client.begin(3);
    takes(client, &[1, 2], true, Added::More, &[1, 2])
        && takes(client, &[3], false, Added::Last, &[1, 2, 3])
        && !client.is_awaiting()
}

/// Reports whether a client joins an image.
fn joins_image(alloc: Global) -> bool {
    match BlockClient::new(alloc, 8) {
        Ok(mut client) => joins_slices(&mut client),
        Err(_) => false,
    }
}

/// Images are joined from their pieces, or dropped, and a client joins an image from two slices.
#[test]
fn images_are_joined(rt: HostRuntime) {
    assert!(rt; joins_images(rt.alloc()) && joins_image(rt.alloc()));
}
