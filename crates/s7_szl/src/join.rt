//! Joining slices to images.

ghost use Rattle.std.specs.Prelude.{◌≡◌, ◌≤◌, length, IfOk};
ghost use Rattle.s7_szl.specs.Joined.{begun};
ghost use Rattle.s7_szl.specs.Joining.{Piece, joined_with, with_plain, with_piece};

use crate::octets::adds_up;
use s7_outer::{Buffer, Memory};
use std::alloc::Global;
use std::marker::Model;

/// The greatest number of octets of an image that is joined.
const MOST_JOINED: usize = 8448;

/// What a join reports after a slice.
#[derive(Clone, Copy, Debug, PartialEq, Eq)]
pub enum SzlAdded {
    /// The image isn't whole: its last slice hasn't come yet.
    More,
    /// The image is whole.
    Whole,
    /// The slice is refused, or the image that it ends doesn't add up.
    Bad,
}

/// Joins the slices of an answer of user data to one image. Its room is allocated when it is made, and never grows.
#[derive(Drop)]
pub struct SzlJoin {
    buffer: Buffer,
    state: SzlAdded,
}

impl Model for SzlJoin {
    ghost use Rattle.std.specs.Prelude.{◌≡◌};
    ghost use Rattle.s7_szl.specs.Joined.{Joined};

    ghost Value = { Joined };

    ghost view = { λ j. record { octets = j.buffer.octets; state = j.state } };

    ghost invariant = { λ j. j.buffer.room ≡ 8448 };
}

impl SzlJoin {
    /// A join without slices, with room for an image of 8,448 octets. Returns `Memory` if the allocation fails.
    pub fn new(alloc: Global) -> Result<SzlJoin, Memory>
        ensures { IfOk result (λ j. j ≡ begun) }
    {
        Ok(SzlJoin {
            buffer: Buffer::new(alloc, MOST_JOINED)?,
            state: SzlAdded::More,
        })
    }

    /// Adds a slice of a status list, or begins the next image if the last one is whole. `more` says whether
    /// further slices follow.
    ///
    /// Returns `Bad` in the cases of `add_plain`, and if the image is whole but doesn't add up: its head of 8
    /// octets states a record length and a number of records, and exactly these records have to follow. The fault
    /// stays: until `clear` each later call returns `Bad` and changes nothing.
    pub fn add(&mut self, octets: &[u8], more: bool) -> SzlAdded
        ensures answer { result ≡ self.new.state }
        ensures value { self.new ≡ with_piece self.old (record { octets = octets.now; more = more }) }
    {
        if self.add_plain(octets, more) == SzlAdded::Whole && !adds_up(self.buffer.as_slice()) {
            self.state = SzlAdded::Bad;
        }
        self.state
    }

    /// Adds a slice as `add` does, without testing the record length and the number of records of the image.
    ///
    /// Returns `Bad` if the image would exceed 8,448 octets, and if the slice is empty although further slices
    /// follow. Such a slice isn't added. The fault stays: until `clear` each later call returns `Bad` and changes
    /// nothing.
    pub fn add_plain(&mut self, octets: &[u8], more: bool) -> SzlAdded
        ensures answer { result ≡ self.new.state }
        ensures value { self.new ≡ with_plain self.old (record { octets = octets.now; more = more }) }
    {
        if self.state == SzlAdded::Bad {
            return SzlAdded::Bad;
        }
        if self.state == SzlAdded::Whole {
            self.buffer.clear();
        }
        self.state = self.judge(octets, more);
        if self.state != SzlAdded::Bad {
            self.buffer.add(octets);
        }
        self.state
    }

    /// The octets joined so far: the image if it is whole, else its beginning. After `Bad` they are the image that
    /// doesn't add up, or else the octets from before the refused slice.
    pub fn image(&self) -> &[u8]
        ensures octets { result.now ≡ self.now.octets }
        ensures most { length result.now ≤ 8448 }
    {
        self.buffer.as_slice()
    }

    /// Drops what was joined, and a fault, and begins anew. Nothing is allocated.
    pub fn clear(&mut self)
        ensures { self.new ≡ begun }
    {
        self.buffer.clear();
        self.state = SzlAdded::More;
    }
    /// What a join without a fault answers to this slice.
    fn judge(&self, octets: &[u8], more: bool) -> SzlAdded
        ensures { result ≡ (joined_with self.now.octets (record { octets = octets.now; more = more })).state }
    {
        if octets.len() > MOST_JOINED - self.buffer.as_slice().len() {
            SzlAdded::Bad
        } else if !more {
            SzlAdded::Whole
        } else if octets.is_empty() {
            SzlAdded::Bad
        } else {
            SzlAdded::More
        }
    }
}
