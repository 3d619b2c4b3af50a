//! A store of blocks.
ghost use Rattle.std.specs.Prelude.{◌≡◌, ◌≢◌, ◌≤◌, [], None, Some, Ok, Err, true, length, is_none, IfOk, IfErr, IfSome};
ghost use Rattle.std.specs.Prelude.{IfNone, OnErr, IsTrue, option_map};
ghost use Rattle.std.specs.Option.{option_copied};
ghost use Rattle.s7_block.specs.Heads.{head_agrees};
ghost use Rattle.s7_block.specs.Kinds.{is_stored_kind};

use crate::block::{Block, BlockFault, BlockName};
use crate::head::head_agrees;
use crate::kinds::is_stored_kind;
use crate::numbers::Numbers;
use s7_outer::Memory;
use std::alloc::Global;
use std::marker::Model;
use std::mem;

/// Blocks by their names, in a vector that is allocated when the store is made. Contracts see the images in the
/// order of the names, and the greatest number of blocks.
#[derive(Drop)]
pub struct Blocks {
    /// The blocks in order: a sorted vector, since a map would allocate at each new block.
    blocks: Vec<Block>,
    limit: usize,
}

impl Model for Blocks {
    ghost use Rattle.std.specs.Prelude.{vec_capacity};
    ghost use Rattle.s7_block.specs.Store.{Store};

    ghost Value = { Store };

    ghost use Rattle.s7_block.specs.StoreView.{images_of, Keeps};

    ghost view = { λ b. record { images = images_of b.blocks.items; limit = b.limit } };

    ghost invariant = { λ b. Keeps b.blocks.items b.limit (vec_capacity b.blocks) };
}

impl Blocks {
    ghost use Rattle.s7_block.specs.Store.{name_of, block_at, with_block, without_block, numbers_of, is_full, fault_of};
    ghost use Rattle.s7_block.specs.Store.{IsStore};
    ghost use Rattle.s7_block.specs.StoreView.{images_of};
    ghost use Rattle.s7_block.specs.StorePlaces.{IsAt, IsGapFor};

    /// A store without blocks, for up to `limit` blocks; `limit` is at most 1,024. Its vector is allocated here;
    /// returns `Memory` if that fails.
    pub fn new(alloc: Global, limit: usize) -> Result<Blocks, Memory>
        requires { limit ≤ 1024 }
        ensures images { IfOk result (λ blocks. blocks.images ≡ []) }
        ensures limit { IfOk result (λ blocks. blocks.limit ≡ limit) }
    {
        Ok(Blocks {
            blocks: Vec::with_capacity(alloc, limit)?,
            limit,
        })
    }

    /// The number of blocks.
    pub fn len(&self) -> usize
        ensures len { result ≡ length self.now.images }
        ensures store { IsStore self.now }
    {
        self.blocks.len()
    }

    /// The greatest number of blocks.
    pub fn limit(&self) -> usize
        ensures limit { result ≡ self.now.limit }
        ensures store { IsStore self.now }
    {
        self.limit
    }

    /// The blocks in the order of their names, borrowed.
    pub(crate) fn as_slice(&self) -> &[Block]
        ensures images { images_of result.now ≡ self.now.images }
        ensures store { IsStore self.now }
    {
        self.blocks.as_slice()
    }

    /// The block of this name, borrowed. `None` exactly if no block has this name.
    pub fn get(&self, kind: u8, number: u16) -> Option<&Block>
        ensures block { option_copied result ≡ block_at self.now kind number }
        ensures kind { IfSome result (λ block. is_stored_kind block.now.kind ≡ true) }
        ensures head { IfSome result (λ block. head_agrees block.now.image block.now.kind block.now.number ≡ true) }
    {
        match self.search(BlockName { kind, number }) {
            Ok(at) => Some(&self.blocks[at]),
            Err(_) => None,
        }
    }

    /// The numbers of the blocks of this kind, in ascending order.
    pub fn numbers_of(&self, kind: u8) -> Numbers<'_>
        ensures numbers { result ≡ numbers_of self.now.images kind }
        ensures store { IsStore self.now }
    {
        Numbers {
            blocks: self.blocks.iter(),
            kind,
        }
    }

    /// The number of blocks of this kind.
    pub fn count_of(&self, kind: u8) -> u16
        ensures { result ≡ length (numbers_of self.now.images kind) }
    {
        self.numbers_of(kind).count() as u16
    }

    /// Stores a block. A block of the same name is replaced and handed back. The first fault in this order is
    /// returned: `Kind` if the kind isn't OB, FC or FB; `BadHead` if the head isn't that of this block; `Full` if
    /// the limit is reached and no block has this name. A refusal changes nothing and hands the block back. Nothing
    /// is allocated.
    pub fn insert(&mut self, block: Block) -> Result<Option<Block>, (BlockFault, Block)>
        ensures refused { IfSome (fault_of self.old block) (λ fault. result ≡ Err (fault, block)) }
        ensures err { OnErr result (self.new ≡ self.old) }
        ensures replaced { IfNone (fault_of self.old block)
            (result ≡ Ok (block_at self.old block.kind block.number)) }
        ensures joined { IfNone (fault_of self.old block) (self.new ≡ with_block self.old block) }
    {
        match self.fault_of(&block) {
            Some(fault) => Err((fault, block)),
            None => Ok(self.put(block)),
        }
    }

    /// Stores a block for which `fault_of` finds no fault.
    fn put(&mut self, block: Block) -> Option<Block>
        requires { fault_of self.old block ≡ None }
        ensures replaced { result ≡ block_at self.old block.kind block.number }
        ensures joined { self.new ≡ with_block self.old block }
    {
        match self.search(block.name()) {
            Ok(at) => Some(mem::replace(&mut self.blocks[at], block)),
            Err(at) => match self.blocks.insert(at, block) {
                Ok(()) => None,
                Err(_) => unreachable!(),
            },
        }
    }

    /// The first fault of a block, if it were stored now; `None` if it has none.
    fn fault_of(&self, block: &Block) -> Option<BlockFault>
        ensures { result ≡ fault_of self.now block.now }
    {
        if !is_stored_kind(block.kind) {
            Some(BlockFault::Kind)
        } else if !head_agrees(block.image.as_slice(), block.kind, block.number) {
            Some(BlockFault::BadHead)
        } else if self.blocks.len() >= self.limit && self.get(block.kind, block.number).is_none() {
            Some(BlockFault::Full)
        } else {
            None
        }
    }

    /// Removes the block of this name and hands it back. `None` exactly if no block has this name; nothing changes
    /// then.
    pub fn delete(&mut self, kind: u8, number: u16) -> Option<Block>
        ensures block { result ≡ block_at self.old kind number }
        ensures others { self.new ≡ without_block self.old kind number }
    {
        match self.search(BlockName { kind, number }) {
            Ok(at) => Some(self.blocks.remove(at)),
            Err(_) => None,
        }
    }

    /// A copy of the store, with the same limit. Returns `Memory` if an allocation fails.
    pub fn copy(&self, alloc: Global) -> Result<Blocks, Memory>
        ensures { IfOk result (λ copy. copy ≡ self.now) }
    {
        let mut blocks = Vec::with_capacity(alloc, self.limit)?;
        for block in &self.blocks {
            let copy = block.copy(alloc)?;
            if blocks.push(copy).is_err() {
                return Err(Memory);
            }
        }
        Ok(Blocks {
            blocks,
            limit: self.limit,
        })
    }

    /// The index of the block of this name, or else the index at which it would be stored.
    fn search(&self, name: BlockName) -> Result<usize, usize>
        ensures found { IfOk result (IsAt self.now.images name) }
        ensures absent { IfErr result (IsGapFor self.now.images name) }
    {
        self.blocks
            .binary_search_by_key(&name, |block| block.name())
    }
}
