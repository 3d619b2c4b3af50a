//! The server's side of a download.
ghost use Rattle.std.specs.Prelude.{◌≡◌, [], true, IfOk, option_map};
ghost use Rattle.s7_block.specs.Assembly.{idle, awaiting, is_awaiting, answer_to, with_piece};

use crate::assembly::{Added, Assembly};
use crate::block::BlockName;
use s7_outer::Memory;
use std::alloc::Global;
use std::marker::Model;

/// The server's side of downloads. It holds at most one download. Contracts see the name that was stated, the state
/// of the image, and the room for it.
#[derive(Drop)]
pub struct DownloadSide {
    name: BlockName,
    assembly: Assembly,
}

impl Model for DownloadSide {
    ghost use Rattle.s7_block.specs.Sides.{Downloads};

    ghost Value = { Downloads };

    ghost view = { λ d. record { name = d.name; progress = d.assembly.progress; room = d.assembly.room } };
}

impl DownloadSide {
    ghost use Rattle.s7_block.specs.Sides.{finished_image};

    /// A side that holds no download, with room for images of at most `room` octets, which is allocated here. Its
    /// name is kind 0 and number 0. Returns `Memory` if the allocation fails.
    pub fn new(alloc: Global, room: usize) -> Result<DownloadSide, Memory>
        ensures progress { IfOk result (λ side. side.progress ≡ idle) }
        ensures name { IfOk result (λ side. side.name ≡ record { kind = 0; number = 0 }) }
        ensures room { IfOk result (λ side. side.room ≡ room) }
    {
        Ok(DownloadSide {
            name: BlockName { kind: 0, number: 0 },
            assembly: Assembly::new(alloc, room)?,
        })
    }

    /// Begins the download of the block of this name, whose image has `len` octets, and drops what was held.
    pub fn begin(&mut self, kind: u8, number: u16, len: u32)
        ensures name { self.new.name ≡ record { kind = kind; number = number } }
        ensures progress { self.new.progress ≡ awaiting len [] }
        ensures room { self.new.room ≡ self.old.room }
    {
        self.name = BlockName { kind, number };
        self.assembly.begin(len);
    }

    /// The name of the download that was begun last.
    pub fn name(&self) -> BlockName
        ensures { result ≡ self.now.name }
    {
        self.name
    }

    /// Whether a download was begun and pieces of it are awaited: since `begin` no piece was the last, and none was
    /// dropped.
    pub fn is_awaiting(&self) -> bool
        ensures { result ≡ is_awaiting self.now.progress }
    {
        self.assembly.is_awaiting()
    }

    /// Adds a piece to the image that is awaited. Returns `Dropped` exactly in these cases: the octets exceed the
    /// stated length or the room; the piece is empty although more follow; or the last piece leaves the image
    /// shorter than the stated length. Then nothing is held any more.
    pub fn add(&mut self, octets: &[u8], more: bool) -> Added
        requires { is_awaiting self.old.progress ≡ true }
        ensures answer { result ≡ answer_to self.old.room self.old.progress
            (record { more = more; octets = octets.now }) }
        ensures progress { self.new.progress ≡ with_piece self.old.room self.old.progress
            (record { more = more; octets = octets.now }) }
        ensures name { self.new.name ≡ self.old.name }
        ensures room { self.new.room ≡ self.old.room }
    {
        self.assembly.add(octets, more)
    }

    /// The image of the finished download of this name. `None` exactly if no finished download of this name is held.
    pub fn image(&self, kind: u8, number: u16) -> Option<&[u8]>
        ensures { option_map (λ octets. octets.now) result ≡ finished_image self.now kind number }
    {
        if self.name.kind == kind && self.name.number == number {
            self.assembly.image()
        } else {
            None
        }
    }

    /// Drops the download that is held.
    pub fn clear(&mut self)
        ensures progress { self.new.progress ≡ idle }
        ensures name { self.new.name ≡ self.old.name }
        ensures room { self.new.room ≡ self.old.room }
    {
        self.assembly.clear();
    }
}
