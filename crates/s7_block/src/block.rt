//! Blocks and their names.
ghost use Rattle.std.specs.Prelude.{◌≡◌, IfOk};

use s7_outer::{Memory, Octets};
use std::alloc::Global;

/// A block: its kind, its number, and its image, which begins with the head.
#[derive(Debug, Drop)]
pub struct Block {
    /// The code of the kind.
    pub kind: u8,
    pub number: u16,
    /// The image: the head and the octets after it.
    pub image: Octets,
}

impl Block {
    ghost use Rattle.s7_block.specs.Store.{name_of};

    /// The name of the block.
    pub fn name(&self) -> BlockName
        ensures { result ≡ name_of self.now }
    {
        BlockName {
            kind: self.kind,
            number: self.number,
        }
    }

    /// A copy of the block. Returns `Memory` if the allocation fails.
    pub fn copy(&self, alloc: Global) -> Result<Block, Memory>
        ensures { IfOk result (λ copy. copy ≡ self.now) }
    {
        Ok(Block {
            kind: self.kind,
            number: self.number,
            image: Octets::copy_of(alloc, self.image.as_slice())?,
        })
    }
}

/// The name of a block. Names are ordered by kind, and then by number.
#[derive(Clone, Copy, Debug, PartialEq, Eq, PartialOrd, Ord)]
pub struct BlockName {
    /// The code of the kind.
    pub kind: u8,
    pub number: u16,
}

/// Why a block isn't stored.
#[derive(Clone, Copy, Debug, PartialEq, Eq)]
pub enum BlockFault {
    /// The kind isn't OB, FC or FB.
    Kind,
    /// The head isn't that of this block.
    BadHead,
    /// The store has as many blocks as allowed, and none of this name.
    Full,
}
