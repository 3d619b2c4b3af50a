//! An image that is sent in pieces.
ghost use Rattle.std.specs.Prelude.{◌≡◌, [], true, IfOk, option_map};

use s7_outer::{Buffer, Memory};
use std::alloc::Global;
use std::marker::Model;

/// The outcome of adding a piece.
#[derive(Clone, Copy, Debug, PartialEq, Eq)]
pub enum Added {
    /// The piece was added, and further pieces are awaited.
    More,
    /// The piece was added, and the image is whole.
    Last,
    /// The piece doesn't fit, and everything held was dropped.
    Dropped,
}

/// The state of an image that is sent in pieces.
#[derive(Clone, Copy)]
pub(crate) enum Stage {
    /// Nothing is held or awaited.
    Idle,
    /// Pieces are awaited, for an image of this length.
    Awaiting { len: u32 },
    /// The image is whole.
    Whole,
}

/// An image that is sent in pieces. Its room is allocated when it is made.
#[derive(Drop)]
pub(crate) struct Assembly {
    octets: Buffer,
    stage: Stage,
}

impl Model for Assembly {
    ghost use Rattle.s7_block.specs.Assembly.{Assembled};

    ghost Value = { Assembled };

    ghost use Rattle.s7_block.specs.AssemblyView.{progress_of, IsWithin};

    ghost view = { λ a. record { progress = progress_of a.octets.octets a.stage; room = a.octets.room } };

    ghost invariant = { λ a. IsWithin a.octets.octets a.stage };
}

impl Assembly {
    ghost use Rattle.s7_block.specs.Assembly.{idle, awaiting, is_awaiting, octets_of, whole_image, answer_to};
    ghost use Rattle.s7_block.specs.Assembly.{after_piece};

    /// An assembly that holds and awaits nothing, with room for `room` octets. Returns `Memory` if the allocation
    /// fails.
    pub(crate) fn new(alloc: Global, room: usize) -> Result<Assembly, Memory>
        ensures { IfOk result (λ a. a ≡ record { progress = idle; room = room }) }
    {
        Ok(Assembly {
            octets: Buffer::new(alloc, room)?,
            stage: Stage::Idle,
        })
    }

    /// Awaits an image of this length, and drops what was held.
    pub(crate) fn begin(&mut self, len: u32)
        ensures { self.new ≡ record { progress = awaiting len []; room = self.old.room } }
    {
        self.octets.clear();
        self.stage = Stage::Awaiting { len };
    }

    /// Drops what was held, and awaits nothing.
    pub(crate) fn clear(&mut self)
        ensures { self.new ≡ record { progress = idle; room = self.old.room } }
    {
        self.octets.clear();
        self.stage = Stage::Idle;
    }

    /// Whether pieces are awaited.
    pub(crate) fn is_awaiting(&self) -> bool
        ensures { result ≡ is_awaiting self.now.progress }
    {
        matches!(self.stage, Stage::Awaiting { .. })
    }

    /// Adds a piece to the image that is awaited; `more` says whether further pieces follow.
    pub(crate) fn add(&mut self, octets: &[u8], more: bool) -> Added
        requires { is_awaiting self.old.progress ≡ true }
        ensures answer { result ≡ answer_to self.old.room self.old.progress
            (record { more = more; octets = octets.now }) }
        ensures after { self.new ≡ after_piece self.old (record { more = more; octets = octets.now }) }
    {
        let answer = self.judge(octets, more);
        match answer {
            Added::More => self.octets.add(octets),
            Added::Last => {
                self.octets.add(octets);
                self.stage = Stage::Whole;
            }
            Added::Dropped => self.clear(),
        }
        answer
    }

    /// The outcome of adding this piece.
    fn judge(&self, octets: &[u8], more: bool) -> Added
        ensures { result ≡ answer_to self.now.room self.now.progress
            (record { more = more; octets = octets.now }) }
    {
        let Stage::Awaiting { len } = self.stage else {
            return Added::Dropped;
        };
        let held = self.octets.as_slice().len();
        let missing = len as usize - held;
        if octets.len() > missing || octets.len() > self.octets.room() - held {
            Added::Dropped
        } else if more && !octets.is_empty() {
            Added::More
        } else if !more && octets.len() == missing {
            Added::Last
        } else {
            Added::Dropped
        }
    }

    /// The octets added so far.
    pub(crate) fn octets(&self) -> &[u8]
        ensures { result.now ≡ octets_of self.now.progress }
    {
        self.octets.as_slice()
    }

    /// The image if it is whole, else `None`.
    pub(crate) fn image(&self) -> Option<&[u8]>
        ensures { option_map (λ octets. octets.now) result ≡ whole_image self.now.progress }
    {
        match self.stage {
            Stage::Whole => Some(self.octets.as_slice()),
            Stage::Idle | Stage::Awaiting { .. } => None,
        }
    }
}
