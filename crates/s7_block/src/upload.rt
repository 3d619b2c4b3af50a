//! The server's side of an upload.
ghost use Rattle.std.specs.Prelude.{◌≡◌, ◌<◌, [], None, Some, IfOk, option_map, ⊤};
ghost use Rattle.std.specs.Borrow.{sem, follows_so};
ghost use mathlib.Core.Option.{none};

use s7_outer::{Buffer, Memory};
use std::alloc::Global;
use std::marker::Model;
use std::mem;

/// A slice of an image: its octets, and whether further slices follow.
#[derive(Clone, Copy, Debug, PartialEq, Eq)]
pub struct Slice<'a> {
    /// Whether further slices follow.
    pub more: bool,
    /// The octets of the slice.
    pub octets: &'a [u8],
}

/// The state of an upload.
#[derive(Clone, Copy)]
enum Sending {
    /// No upload is held.
    Idle,
    /// The next slice of this upload begins at offset `at` of the image.
    Open { id: u8, at: usize },
    /// The last slice of this upload was given.
    Given { id: u8 },
}

/// The server's side of uploads. It holds at most one upload. It owns the image, so slices stay the same whatever
/// happens to the block. Contracts see the upload that is held, and the room for an image.
#[derive(Drop)]
pub struct UploadSide {
    image: Buffer,
    sending: Sending,
}

impl Model for UploadSide {
    ghost use Rattle.s7_block.specs.Sides.{Uploads};

    ghost Value = { Uploads };

    ghost use Rattle.s7_block.specs.UploadView.{upload_of, IsInside};

    ghost view = { λ u. record { upload = upload_of u.image.octets u.sending; room = u.image.room } };

    ghost invariant = { λ u. IsInside u.image.octets u.sending };
}

impl UploadSide {
    ghost use Rattle.s7_block.specs.Sides.{Upload, left_in, slice_at, sliced, is_held, ended};
    ghost use Rattle.s7_block.specs.Slices.{Piece};
    ghost use Rattle.s7_block.specs.contracts.upload.UploadSide.{the_row};

    /// A side that holds no upload, with room for images of at most `room` octets, which is allocated here. Returns
    /// `Memory` if the allocation fails.
    pub fn new(alloc: Global, room: usize) -> Result<UploadSide, Memory>
        ensures upload { IfOk result (λ side. side.upload ≡ None) }
        ensures room { IfOk result (λ side. side.room ≡ room) }
    {
        Ok(UploadSide {
            image: Buffer::new(alloc, room)?,
            sending: Sending::Idle,
        })
    }

    /// Begins the upload of `image` with this id, in place of the upload that is held. The buffer of the image is
    /// exchanged for the side's own buffer, which comes out empty.
    pub fn begin(&mut self, image: &mut Buffer, id: u8)
        requires { image.old.room ≡ self.old.room }
        ensures upload { self.new.upload ≡ Some (record { id = id; left = Some image.old.octets }) }
        ensures room { self.new.room ≡ self.old.room }
        ensures octets { image.new.octets ≡ [] }
        ensures image_room { image.new.room ≡ image.old.room }
    {
        mem::swap(&mut self.image, image);
        image.clear();
        self.sending = Sending::Open { id, at: 0 };
    }

    /// Gives the next slice of the upload of this id: its next octets, at most `room` of them. An empty image has
    /// one slice. `None` exactly if nothing is left: no upload of this id is held, or its last slice was given.
    pub fn slice(&mut self, id: u8, room: usize) -> Option<Slice<'_>>
        requires { 0 < room }

        // The slice borrows the side, which is in the state after the slice once the borrow ends.
        ensures slice { option_map (λ s. record { more = s.more; octets = s.octets.now }) result
            ≡ slice_at self.old id room }
        ensures* after { sem 𝓛 (follows_so the_row the_row self.entry.ghost_name none (λ _ _. ⊤)
            (λ side. side ≡ sliced self.old id room)) }
    {
        let Sending::Open { id: open, at } = self.sending else {
            return None;
        };
        if open != id {
            return None;
        }
        let left = self.image.as_slice().len() - at;
        let more = left > room;
        self.sending = if more {
            Sending::Open { id, at: at + room }
        } else {
            Sending::Given { id }
        };
        let count = left.min(room);
        Some(Slice {
            more,
            octets: &self.image.as_slice()[at..at + count],
        })
    }

    /// Drops the upload of this id, and returns true. Returns false if no upload of this id was held.
    pub fn end(&mut self, id: u8) -> bool
        ensures held { result ≡ is_held self.old.upload id }
        ensures after { self.new ≡ ended self.old id }
    {
        match self.sending {
            Sending::Open { id: held, .. } | Sending::Given { id: held } if held == id => {
                self.sending = Sending::Idle;
                true
            }
            _ => false,
        }
    }
}
