//! Lists of blocks.
ghost use Rattle.std.specs.Prelude.{◌≡◌, ◌+◌, ◌≤◌, ◌==◌, ◌++◌, [], false, length};
ghost use Rattle.std.specs.List.{flat_map};
ghost use Rattle.s7_plant.specs.Answers.{kinds, kind_count, numbers_in, list_entry, entries_told};
ghost use Rattle.s7_plant.specs.Replies.{IsReadyReply, said, said_of};
ghost use Rattle.s7_plant.specs.State.{state_of};

use crate::codes::{KIND_MARK, NO_BLOCK};
use crate::image::find_image;
use crate::plant::Plant;
use crate::reply::Reply;
use s7_block::kinds::{DB, FB, FC, OB, SDB, SFB, SFC};
use s7_outer::Buffer;

/// The kinds of blocks in the order in which they are counted.
const KINDS: [u8; 7] = [OB, DB, SDB, FC, SFC, FB, SFB];

/// Puts the number of blocks of each kind into the reply.
pub(crate) fn say_counts(plant: &Plant, reply: &mut Reply)
    requires empty { said_of reply.old ≡ said 0 [] [] }
    requires reply { IsReadyReply reply.old }
    ensures said { said_of reply.new ≡ said 0 [] (flat_map (kind_count (state_of plant.now)) kinds) }
    ensures len { length reply.new.body.octets ≡ 28 }
    ensures ready { IsReadyReply reply.new }
{
    for kind in KINDS {
        add_count(plant, kind, &mut reply.body);
    }
}

/// Adds a kind and the number of its blocks.
fn add_count(plant: &Plant, kind: u8, body: &mut Buffer)
    requires { length body.old.octets + 4 ≤ body.old.room }
    ensures octets { body.new.octets ≡ body.old.octets ++ kind_count (state_of plant.now) kind }
    ensures room { body.new.room ≡ body.old.room }
{
    let [high, low] = count_of(plant, kind).to_be_bytes();
    body.add(&[KIND_MARK, kind, high, low]);
}

/// The number of blocks of a kind.
fn count_of(plant: &Plant, kind: u8) -> u16
    ensures { result ≡ length (numbers_in (state_of plant.now) kind) }
{
    if kind == DB {
        plant.areas.db_numbers().count() as u16
    } else {
        plant.blocks.count_of(kind)
    }
}

/// Puts the list of the blocks of a kind into the reply. Refuses with D209 if there is no block of the kind.
pub(crate) fn say_entries(plant: &Plant, kind: u8, reply: &mut Reply)
    requires empty { said_of reply.old ≡ said 0 [] [] }
    requires reply { IsReadyReply reply.old }
    ensures said { let s = state_of plant.now in
        said_of reply.new ≡ entries_told (flat_map (list_entry s kind) (numbers_in s kind)) }
    ensures most { length reply.new.body.octets ≤ 8192 }
    ensures ready { IsReadyReply reply.new }
{
    if kind == DB {
        add_areas(plant, &mut reply.body);
    } else {
        add_stored(plant, kind, &mut reply.body);
    }
    if reply.body.as_slice().is_empty() {
        reply.refuse(NO_BLOCK);
    }
}

/// Adds the entries of all data blocks.
fn add_areas(plant: &Plant, body: &mut Buffer)
    requires { length body.old.octets + 8192 ≤ body.old.room }
    ensures octets { let s = state_of plant.now in
        body.new.octets ≡ body.old.octets ++ flat_map (list_entry s DB) (numbers_in s DB) }
    ensures most { length body.new.octets ≤ length body.old.octets + 8192 }
    ensures room { body.new.room ≡ body.old.room }
{
    for number in plant.areas.db_numbers() {
        add_entry(plant, DB, number, body);
    }
}

/// Adds the entries of all blocks of a kind other than data blocks.
fn add_stored(plant: &Plant, kind: u8, body: &mut Buffer)
    requires other { (kind == DB) ≡ false }
    requires room { length body.old.octets + 8192 ≤ body.old.room }
    ensures octets { let s = state_of plant.now in
        body.new.octets ≡ body.old.octets ++ flat_map (list_entry s kind) (numbers_in s kind) }
    ensures most { length body.new.octets ≤ length body.old.octets + 8192 }
    ensures room { body.new.room ≡ body.old.room }
{
    for number in plant.blocks.numbers_of(kind) {
        add_entry(plant, kind, number, body);
    }
}

/// Adds the entry of a block: its number, and the flags and the language of its head.
fn add_entry(plant: &Plant, kind: u8, number: u16, body: &mut Buffer)
    requires { length body.old.octets + 4 ≤ body.old.room }
    ensures octets { body.new.octets
        ≡ body.old.octets ++ list_entry (state_of plant.now) kind number }
    ensures most { length body.new.octets ≤ length body.old.octets + 4 }
    ensures room { body.new.room ≡ body.old.room }
{
    body.add(&number.to_be_bytes());
    if let Some(image) = find_image(plant, kind, number) {
        body.add(&image.head[3..5]);
    }
}
