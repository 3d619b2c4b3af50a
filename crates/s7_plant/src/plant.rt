//! The plant.
ghost use Rattle.std.specs.Prelude.{◌≡◌, ℕ, ◌≤◌, List, [], Some, true, length, IfOk};
ghost use Rattle.s7_outer.specs.Held.{Held};
ghost use Rattle.s7_block.specs.Heads.{head_agrees};
ghost use Rattle.s7_block.specs.Kinds.{is_stored_kind};
ghost use Rattle.s7_plant.specs.Answers.{start_status, stop_status};
ghost use Rattle.s7_plant.specs.Requests.{IsReady, CanBeDone, Fits, kept_request};
ghost use Rattle.s7_plant.specs.Replies.{IsReadyReply, said, said_of};

use crate::blocks::{say_delete, say_info, say_insert, say_upload};
use crate::clock::{offset_of, shown_octets};
use crate::codes::{
    DONE, NO_RIGHT, RUNS_ALREADY, SERVICE_FUNCTION, STOP_FUNCTION, STOPPED_ALREADY,
};
use crate::data_item::say_items;
use crate::lists::{say_counts, say_entries};
use crate::reply::Reply;
use crate::request::Request;
use crate::status::say_list;
use crate::write::{say_codes, say_writes};
use s7_area::Areas;
use s7_block::{Block, Blocks};
use s7_outer::{Memory, Octets};
use std::alloc::Global;

/// The greatest number of blocks in the store.
pub const MOST_BLOCKS: usize = 1_024;

/// A controller: its areas, its blocks, its clock and whether it runs.
#[derive(Drop)]
pub struct Plant {
    /// The areas, with their guard.
    pub areas: Areas,
    /// The blocks of the store. Data blocks are areas and aren't among them.
    pub blocks: Blocks,
    /// How many milliseconds its clock is ahead of the moments that requests bring.
    pub offset: i64,
    /// Whether it runs. A new plant does.
    pub running: bool,
}

impl Plant {
    ghost use Rattle.s7_plant.specs.Answers.{answer, changed, guarded, is_barred, takes_block, with_inserted};
    ghost use Rattle.s7_plant.specs.State.{opens_with, state_of};

    /// A plant with these areas and these blocks; the store must have room for 1,024 blocks. The plant runs, and its
    /// clock shows the moments that requests bring.
    pub fn new(areas: Areas, blocks: Blocks) -> Plant
        requires { blocks.limit ≡ 1024 }
        ensures { state_of result ≡ opens_with areas blocks }
    {
        Plant {
            areas,
            blocks,
            offset: 0,
            running: true,
        }
    }

    /// A copy of the plant. Returns `Memory` if an allocation fails.
    pub(crate) fn copy(&self, alloc: Global) -> Result<Plant, Memory>
        ensures { IfOk result (λ copy. state_of copy ≡ state_of self.now) }
    {
        Ok(Plant {
            areas: self.areas.copy(alloc)?,
            blocks: self.blocks.copy(alloc)?,
            offset: self.offset,
            running: self.running,
        })
    }

    /// Answers a request as `step` does, and changes nothing. `right` says whether the caller has the right that the
    /// guard's password gives. Needs a ready request and a ready reply, and leaves the reply ready. The error word is 0
    /// where no other is named here; with any other error word the reply has neither parameters nor a body.
    ///
    /// A read is answered with `04`, the number of items, and a data item for each. A write is answered with `05`, the
    /// number of items, and the code of each. Its items are written from left to right, each on what the one before
    /// left, and a refused item doesn't stop the next. Without a right, an item that the guard bars has code 03.
    ///
    /// A status list is answered with its image, as `s7_szl::write_table` writes it, or with error word D401 if there
    /// is no such list and index.
    ///
    /// A read of the clock is answered with ten clock octets: those of the request's moment plus the plant's offset,
    /// both in milliseconds, the moment since 1970. The moment may be any: it counts as the nearest one from 1990 to
    /// the end of 2089, and so does the sum. The answer to a set of the clock has neither parameters nor a body.
    ///
    /// A start, cold or warm, is answered with `28 00`, or with `28 02` if the plant runs already. A stop is answered
    /// with `29 00`, or with `29 07` if the plant is stopped already. The compression of the memory and its copy are
    /// answered with `28 00`. All of these, and the set of the clock, are answered with error word D241 if the areas
    /// have a guard, of either level, and the caller has no right.
    ///
    /// The counts of blocks are `30`, the kind and two octets, for the kinds OB, DB, SDB, FC, SFC, FB and SFB. Data
    /// blocks are the areas of that kind. The list of a kind has for each block two octets of its number, in ascending
    /// order, and the flags and the language of its head; the error word is D209 if there is no block of the kind. The
    /// head of a block follows `30`, the kind and `00 22`; the head of a data block is made by `s7_block::db_head`. The
    /// error word is D209 if there is no such block.
    ///
    /// The start of an upload is answered with `1D`, six octets 00, an octet 00 that the session replaces with the
    /// upload's id, `07`, seven digits of the image's length, and the image. The error word is D241 if the guard has
    /// level 3 and the caller has no right, D209 if there is no such block, and 8F04 if the image has more than 65,572
    /// octets.
    ///
    /// An insert stores a block in place of the one of the same name. It is answered with `28 00`, or with error word
    /// 8F04 if the store has 1,024 blocks and none of that name. A deletion is answered with `28 00`, or with D209 if
    /// the store has no such block; a data block is never in the store. Both need a right as a start does.
    pub fn reply(&self, right: bool, r: &Request, reply: &mut Reply)
        requires request { IsReady r.now }
        requires reply { IsReadyReply reply.old }
        ensures said { said_of reply.new ≡ answer (state_of self.now) right r.now }
        ensures fits { Fits r.now (said_of reply.new) }
        ensures ready { IsReadyReply reply.new }
    {
        reply.clear();
        match r {
            Request::Read { items } => say_items(&self.areas, right, items, reply),
            Request::Write {
                items,
                places,
                octets,
            } => say_codes(&self.areas, right, items, places.list(), octets, reply),
            Request::Szl { id, index } => say_list(*id, *index, self.running, reply),
            Request::ClockRead { moment } => {
                reply.body.add(&shown_octets(*moment, self.offset));
            }
            Request::ClockSet { .. } => self.reply_if_allowed(right, &[], reply),
            Request::Start { .. } => {
                let status = start_status(self.running);
                self.reply_if_allowed(right, &[SERVICE_FUNCTION, status], reply);
            }
            Request::Stop => {
                let status = stop_status(self.running);
                self.reply_if_allowed(right, &[STOP_FUNCTION, status], reply);
            }
            Request::Compress | Request::CopyRam => {
                self.reply_if_allowed(right, &[SERVICE_FUNCTION, DONE], reply);
            }
            Request::ListAll => say_counts(self, reply),
            Request::ListOf { kind } => say_entries(self, *kind, reply),
            Request::Info { kind, number } => say_info(self, *kind, *number, reply),
            Request::StartUpload { kind, number } => say_upload(self, right, *kind, *number, reply),
            Request::Insert { kind, number, .. } => say_insert(self, right, *kind, *number, reply),
            Request::Delete { kind, number } => say_delete(self, right, *kind, *number, reply),
        }
    }

    /// Puts these parameters into the reply. Refuses with D241 if the areas have a guard and the caller has no right.
    fn reply_if_allowed(&self, right: bool, params: &[u8], reply: &mut Reply)
        requires few { length params.now ≤ 16 }
        requires empty { said_of reply.old ≡ said 0 [] [] }
        requires reply { IsReadyReply reply.old }
        ensures said { said_of reply.new ≡ guarded (state_of self.now) right (said 0 params.now []) }
        ensures ready { IsReadyReply reply.new }
    {
        if self.bars_control(right) {
            reply.refuse(NO_RIGHT);
        } else {
            reply.params.add(params);
        }
    }

    /// Whether the areas have a guard and the caller has no right. Then the clock, the run state, the memory and the
    /// blocks can't be changed.
    pub(crate) fn bars_control(&self, right: bool) -> bool
        ensures { result ≡ is_barred (state_of self.now) right }
    {
        !right && self.areas.guard().is_some()
    }

    /// Whether the store has room for a block, or has one of its name that the new one replaces.
    pub(crate) fn takes_block(&self, kind: u8, number: u16) -> bool
        ensures { result ≡ takes_block (state_of self.now) kind number }
    {
        self.blocks.len() < self.blocks.limit() || self.blocks.get(kind, number).is_some()
    }

    /// Answers a request as `reply` states for the plant before the call, and makes the request's change. A write
    /// changes the areas. A clock that is set shows its value at the request's moment, whatever it was set to before. A
    /// start and a stop change whether the plant runs. An insert and a deletion change the blocks. Nothing else
    /// changes, and with D241 and 8F04 nothing at all. The request stays as a history keeps it, and is ready again.
    /// Needs a request that can be done and a ready reply. Allocates nothing: the image of an inserted block is copied
    /// into the room that the request brings.
    pub fn step(&mut self, right: bool, r: &mut Request, reply: &mut Reply)
        requires request { CanBeDone r.old }
        requires reply { IsReadyReply reply.old }
        ensures said { said_of reply.new ≡ answer (state_of self.old) right r.old }
        ensures after { state_of self.new ≡ changed (state_of self.old) right r.old }
        ensures kept { r.new ≡ kept_request r.old }
        ensures fits { Fits r.old (said_of reply.new) }
        ensures ready { IsReadyReply reply.new }
        ensures again { IsReady r.new }
    {
        let copy = r.take_copy();
        self.act(right, r, copy, reply);
    }

    /// Answers a request as `reply` states and makes its change, but leaves the request unchanged. `copy` is the copy
    /// of the image if the request inserts a block.
    pub(crate) fn act(&mut self, right: bool, r: &Request, copy: Option<Octets>, reply: &mut Reply)
        requires request { IsReady r.now }
        requires copy { (kind number : ℕ) (image : List ℕ) (spare : Held)
            → r.now ≡ Request.Insert kind number image spare → copy ≡ Some image }
        requires reply { IsReadyReply reply.old }
        ensures said { said_of reply.new ≡ answer (state_of self.old) right r.now }
        ensures after { state_of self.new ≡ changed (state_of self.old) right r.now }
        ensures fits { Fits r.now (said_of reply.new) }
        ensures ready { IsReadyReply reply.new }
    {
        if let Request::Write {
            items,
            places,
            octets,
        } = r
        {
            reply.clear();
            say_writes(&mut self.areas, right, items, places.list(), octets, reply);
            return;
        }
        self.reply(right, r, reply);
        if self.bars_control(right) {
            return;
        }
        match r {
            Request::ClockSet { moment, value } => self.offset = offset_of(*moment, *value),
            Request::Start { .. } => self.running = true,
            Request::Stop => self.running = false,
            Request::Insert { kind, number, .. } => {
                if let Some(image) = copy {
                    self.insert(*kind, *number, image);
                }
            }
            Request::Delete { kind, number } => {
                self.blocks.delete(*kind, *number);
            }
            _ => {}
        }
    }

    /// Stores a block in place of the one of the same name, if there is room for it.
    fn insert(&mut self, kind: u8, number: u16, image: Octets)
        requires kind { is_stored_kind kind ≡ true }
        requires head { head_agrees image kind number ≡ true }
        ensures { state_of self.new ≡ with_inserted (state_of self.old) kind number image }
    {
        // a block that has no room is returned, and dropped here
        let _ = self.blocks.insert(Block {
            kind,
            number,
            image,
        });
    }
}

/// The status of a start.
fn start_status(running: bool) -> u8
    ensures { result ≡ start_status running }
{
    if running { RUNS_ALREADY } else { DONE }
}

/// The status of a stop.
fn stop_status(running: bool) -> u8
    ensures { result ≡ stop_status running }
{
    if running { DONE } else { STOPPED_ALREADY }
}
