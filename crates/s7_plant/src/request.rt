//! What a plant can be asked.
ghost use Rattle.std.specs.Prelude.{◌≡◌, ℕ, List, Some, true, IfOk, IfSome, option_map};
ghost use Rattle.s7_block.specs.Heads.{head_agrees};
ghost use Rattle.s7_block.specs.Kinds.{is_stored_kind};
ghost use Rattle.s7_outer.specs.Held.{Held};

use crate::codes::{CLOCK, CONTROL, DIRECTORY, DOWNLOADS, READS, STATUS_LISTS, UPLOADS, WRITES};
use s7_block::BlockName;
use s7_item::{BoxedDataItems, Items};
use s7_outer::{Buffer, Memory, Octets};
use std::alloc::Global;

/// A request with the right of the link that sends it.
#[derive(Drop)]
pub struct Ask {
    /// Whether the link has the right that the guard's password gives.
    pub right: bool,
    /// What the link asks.
    pub request: Request,
}

/// A request to a plant.
#[derive(Drop)]
pub enum Request {
    /// Read the octets of items.
    Read {
        /// At most 20 items, in order.
        items: Items,
    },
    /// Write octets to items.
    Write {
        /// At most 20 items, in order.
        items: Items,
        /// For each item, the range of its new octets in `octets`.
        places: BoxedDataItems,
        /// The octets that `places` refers to.
        octets: Octets,
    },
    /// Read the image of a status list.
    Szl {
        id: u16,
        index: u16,
    },
    /// Read the clock.
    ClockRead {
        /// The time of the request, in milliseconds since 1970.
        moment: u64,
    },
    /// Set the clock to this value.
    ClockSet {
        /// The time of the request, in milliseconds since 1970.
        moment: u64,
        /// The new time in milliseconds since 1970: 631,152,000,000 to 3,786,911,999,999, which is 1990 to the end of
        /// 2089.
        value: u64,
    },
    /// Start the controller.
    Start {
        /// Whether it is a cold start, which has the answer and the effect of a warm one.
        cold: bool,
    },
    /// Stop the controller.
    Stop,
    /// Compress the memory, which changes nothing here.
    Compress,
    /// Copy the memory to the module, which changes nothing here.
    CopyRam,
    /// Count the blocks of each kind.
    ListAll,
    /// List the blocks of a kind.
    ListOf {
        kind: u8,
    },
    /// Read the head of a block.
    Info {
        kind: u8,
        number: u16,
    },
    /// Start an upload: read the image of a block.
    StartUpload {
        kind: u8,
        number: u16,
    },
    /// Store a block in place of the one of the same name.
    Insert {
        /// OB, FC or FB.
        kind: u8,
        number: u16,
        /// The image, whose head has this kind and number.
        image: Octets,
        /// Room for a copy of the image, which the plant keeps. A request in a history has no such room.
        spare: Buffer,
    },
    /// Delete a block from the store.
    Delete {
        kind: u8,
        number: u16,
    },
}

impl Request {
    ghost use Rattle.s7_plant.specs.Events.{code_of};
    ghost use Rattle.s7_plant.specs.Images.{stored_as};
    ghost use Rattle.s7_plant.specs.Requests.{HasSpare, IsReady, kept_request};

    /// The code of the request for observers, one bit for each group of requests (Snap7 1.4 reference manual,
    /// `Srv_SetMask`): 00020000 a read, 00040000 a write, 00100000 a status list, 00200000 the clock, 00400000 the
    /// start of an upload, 00800000 a block that is stored, 01000000 a question about blocks, and 04000000 control of
    /// the run state and of the memory, and the deletion of a block.
    pub fn code(&self) -> u32
        ensures { result ≡ code_of self.now }
    {
        match self {
            Request::Read { .. } => READS,
            Request::Write { .. } => WRITES,
            Request::Szl { .. } => STATUS_LISTS,
            Request::ClockRead { .. } | Request::ClockSet { .. } => CLOCK,
            Request::StartUpload { .. } => UPLOADS,
            Request::Insert { .. } => DOWNLOADS,
            Request::ListAll | Request::ListOf { .. } | Request::Info { .. } => DIRECTORY,
            Request::Start { .. } | Request::Stop => CONTROL,
            Request::Compress | Request::CopyRam | Request::Delete { .. } => CONTROL,
        }
    }

    /// The image, borrowed, if the request stores the block of this name.
    pub(crate) fn image_for(&self, name: BlockName) -> Option<&[u8]>
        requires { IsReady self.now }
        ensures image { option_map (λ image. image.now) result ≡ stored_as name self.now }
        ensures kind { IfSome result (λ image. is_stored_kind name.kind ≡ true) }
        ensures head { IfSome result (λ image. head_agrees image.now name.kind name.number ≡ true) }
    {
        match self {
            Request::Insert {
                kind,
                number,
                image,
                ..
            } if *kind == name.kind && *number == name.number => Some(image.as_slice()),
            _ => None,
        }
    }

    /// If the request stores a block, a copy of its image, made in the room that the request brings. The request stays
    /// as a history keeps it.
    pub(crate) fn take_copy(&mut self) -> Option<Octets>
        requires { HasSpare self.old }
        ensures copy { (kind number : ℕ) (image : List ℕ) (spare : Held)
            → self.new ≡ Request.Insert kind number image spare → result ≡ Some image }
        ensures kept { self.new ≡ kept_request self.old }
    {
        match self {
            Request::Insert { image, spare, .. } => {
                spare.clear();
                spare.add(image.as_slice());
                Some(spare.take())
            }
            _ => None,
        }
    }

    /// If the request stores a block, a copy of its image, allocated here. Returns `Memory` if the allocation fails.
    pub(crate) fn copy_image(&self, alloc: Global) -> Result<Option<Octets>, Memory>
        ensures { IfOk result (λ copy. (kind number : ℕ) (image : List ℕ) (spare : Held)
            → self.now ≡ Request.Insert kind number image spare → copy ≡ Some image) }
    {
        match self {
            Request::Insert { image, .. } => Ok(Some(Octets::copy_of(alloc, image.as_slice())?)),
            _ => Ok(None),
        }
    }
}
