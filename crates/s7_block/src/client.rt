//! A client's side of an upload.
ghost use Rattle.std.specs.Prelude.{◌≡◌, [], true, IfOk};
ghost use Rattle.s7_block.specs.Assembly.{idle, awaiting, is_awaiting, octets_of, answer_to, with_piece};

use crate::assembly::{Added, Assembly};
use s7_outer::Memory;
use std::alloc::Global;
use std::marker::Model;

/// A client's side of uploads: the image that is received in slices. Contracts see the state of the image, and the
/// room for it.
#[derive(Drop)]
pub struct BlockClient {
    assembly: Assembly,
}

impl Model for BlockClient {
    ghost use Rattle.s7_block.specs.Assembly.{Assembled};

    ghost Value = { Assembled };

    ghost view = { λ c. c.assembly };
}

impl BlockClient {
    /// A client's side that holds no image, with room for images of at most `room` octets, which is allocated here.
    /// Returns `Memory` if the allocation fails.
    pub fn new(alloc: Global, room: usize) -> Result<BlockClient, Memory>
        ensures progress { IfOk result (λ client. client.progress ≡ idle) }
        ensures room { IfOk result (λ client. client.room ≡ room) }
    {
        Ok(BlockClient {
            assembly: Assembly::new(alloc, room)?,
        })
    }

    /// Awaits an image of `len` octets, and drops what was held.
    pub fn begin(&mut self, len: u32)
        ensures progress { self.new.progress ≡ awaiting len [] }
        ensures room { self.new.room ≡ self.old.room }
    {
        self.assembly.begin(len);
    }

    /// Whether an image was begun and slices of it are awaited: since `begin` no slice was the last, and none was
    /// dropped.
    pub fn is_awaiting(&self) -> bool
        ensures { result ≡ is_awaiting self.now.progress }
    {
        self.assembly.is_awaiting()
    }

    /// Adds a slice to the image that is awaited. Returns `Dropped` exactly in these cases: the octets exceed the
    /// stated length or the room; the slice is empty although more follow; or the last slice leaves the image
    /// shorter than the stated length. Then nothing is held any more.
    pub fn add(&mut self, octets: &[u8], more: bool) -> Added
        requires { is_awaiting self.old.progress ≡ true }
        ensures answer { result ≡ answer_to self.old.room self.old.progress
            (record { more = more; octets = octets.now }) }
        ensures progress { self.new.progress ≡ with_piece self.old.room self.old.progress
            (record { more = more; octets = octets.now }) }
        ensures room { self.new.room ≡ self.old.room }
    {
        self.assembly.add(octets, more)
    }

    /// The octets added so far, which are the image once the last slice was added. There are none if no image was
    /// begun or a slice was dropped.
    pub fn image(&self) -> &[u8]
        ensures { result.now ≡ octets_of self.now.progress }
    {
        self.assembly.octets()
    }
}
