//! How questions about blocks are answered: heads, uploads, inserts and deletions.
ghost use Rattle.std.specs.Prelude.{◌≡◌, ◌≤◌, ◌++◌, [], Some, length};
ghost use Rattle.s7_area.specs.Guards.{is_read_barred};
ghost use Rattle.s7_plant.specs.Answers.{deleted, guarded, image_in, info_told, inserted};
ghost use Rattle.s7_plant.specs.Answers.{upload_told, uploaded};
ghost use Rattle.s7_plant.specs.Requests.{HasImage};
ghost use Rattle.s7_plant.specs.Replies.{IsReadyReply, said, said_of};
ghost use Rattle.s7_plant.specs.State.{state_of};

use crate::codes::{
    DONE, KIND_MARK, NO_BLOCK, NO_RIGHT, NO_ROOM, SERVICE_FUNCTION, UPLOAD_FUNCTION,
};
use crate::image::{Image, find_image};
use crate::plant::Plant;
use crate::reply::{BODY_ROOM, Reply};
use s7_area::Guard;
use s7_block::write_digits;

/// Puts the head of a block into the reply. Refuses with D209 if there is no such block.
pub(crate) fn say_info(plant: &Plant, kind: u8, number: u16, reply: &mut Reply)
    requires empty { said_of reply.old ≡ said 0 [] [] }
    requires reply { IsReadyReply reply.old }
    ensures said { said_of reply.new ≡ info_told kind (image_in (state_of plant.now) kind number) }
    ensures most { length reply.new.body.octets ≤ 40 }
    ensures ready { IsReadyReply reply.new }
{
    match find_image(plant, kind, number) {
        Some(image) => {
            // the length of what follows, less two octets
            reply.body.add(&[KIND_MARK, kind, 0x00, 0x22]);
            reply.body.add(&image.head);
        }
        None => reply.refuse(NO_BLOCK),
    }
}

/// Puts the image of a block into the reply. Refuses if the guard bars reads and the link has no right, if there is no
/// such block, and if the image is longer than the reply's room.
pub(crate) fn say_upload(plant: &Plant, right: bool, kind: u8, number: u16, reply: &mut Reply)
    requires empty { said_of reply.old ≡ said 0 [] [] }
    requires reply { IsReadyReply reply.old }
    ensures said { let s = state_of plant.now in
        said_of reply.new ≡ uploaded s right (upload_told (image_in s kind number)) }
    ensures fits { HasImage (said_of reply.new) }
    ensures ready { IsReadyReply reply.new }
{
    if is_read_barred(plant.areas.guard(), right) {
        reply.refuse(NO_RIGHT);
        return;
    }
    match find_image(plant, kind, number) {
        Some(image) => say_image(&image, reply),
        None => reply.refuse(NO_BLOCK),
    }
}

/// Whether a guard requires a right for reads and the link has none.
fn is_read_barred(guard: Option<Guard>, right: bool) -> bool
    ensures { result ≡ is_read_barred guard right }
{
    match guard {
        None => false,
        Some(guard) => !right && guard.level == 3,
    }
}

/// Puts an image into the reply. Refuses with 8F04 if it is longer than the reply's room.
fn say_image(image: &Image<'_>, reply: &mut Reply)
    requires empty { said_of reply.old ≡ said 0 [] [] }
    requires reply { IsReadyReply reply.old }
    ensures said { said_of reply.new ≡ upload_told (Some (image.now.head ++ image.now.rest.now)) }
    ensures fits { HasImage (said_of reply.new) }
    ensures ready { IsReadyReply reply.new }
{
    let len = image.head.len() + image.rest.len();
    if len > BODY_ROOM {
        reply.refuse(NO_ROOM);
        return;
    }
    // six octets 00, one for the upload's id, and the number of digits that follow
    reply.params.add(&[UPLOAD_FUNCTION, 0, 0, 0, 0, 0, 0, 0, 7]);
    let mut digits = [0; 7];
    write_digits(len as u32, &mut digits);
    reply.params.add(&digits);
    reply.body.add(&image.head);
    reply.body.add(image.rest);
}

/// Puts the answer to the insertion of a block into the reply; `step` then stores it. Refuses if the areas have a guard
/// and the link has no right, and if there is no room for the block.
pub(crate) fn say_insert(plant: &Plant, right: bool, kind: u8, number: u16, reply: &mut Reply)
    requires empty { said_of reply.old ≡ said 0 [] [] }
    requires reply { IsReadyReply reply.old }
    ensures said { let s = state_of plant.now in
        said_of reply.new ≡ guarded s right (inserted s kind number) }
    ensures ready { IsReadyReply reply.new }
{
    if plant.bars_control(right) {
        reply.refuse(NO_RIGHT);
    } else if plant.takes_block(kind, number) {
        reply.params.add(&[SERVICE_FUNCTION, DONE]);
    } else {
        reply.refuse(NO_ROOM);
    }
}

/// Puts the answer to the deletion of a block into the reply; `step` then deletes it. Refuses if the areas have a guard
/// and the link has no right, and if the store has no such block.
pub(crate) fn say_delete(plant: &Plant, right: bool, kind: u8, number: u16, reply: &mut Reply)
    requires empty { said_of reply.old ≡ said 0 [] [] }
    requires reply { IsReadyReply reply.old }
    ensures said { let s = state_of plant.now in
        said_of reply.new ≡ guarded s right (deleted s kind number) }
    ensures ready { IsReadyReply reply.new }
{
    if plant.bars_control(right) {
        reply.refuse(NO_RIGHT);
    } else if plant.blocks.get(kind, number).is_some() {
        reply.params.add(&[SERVICE_FUNCTION, DONE]);
    } else {
        reply.refuse(NO_BLOCK);
    }
}
