//! The numbers of the blocks of a kind.
ghost use Rattle.std.specs.Iterator.{YieldsFirst, item_count};

use crate::block::Block;
use std::marker::Model;
use std::slice::Iter;

/// The numbers of the blocks of one kind, in ascending order, as an iterator. Contracts see the numbers that are
/// left.
#[derive(Drop)]
pub struct Numbers<'a> {
    pub(crate) blocks: Iter<'a, Block>,
    pub(crate) kind: u8,
}

impl<'a> Model for Numbers<'a> {
    ghost use Rattle.std.specs.Prelude.{List, ℕ};
    ghost use Rattle.std.specs.Slice.Iter.{iter_rest};
    ghost use Rattle.s7_block.specs.Store.{numbers_of};
    ghost use Rattle.s7_block.specs.StoreView.{images_of};

    ghost Value = { List ℕ };

    ghost view = { λ n. numbers_of (images_of (iter_rest n.blocks)) n.kind };
}

impl<'a> Iterator for Numbers<'a> {
    type Item = u16;

    ghost next_gives = { YieldsFirst (λ rest. rest) };

    ghost remaining = { item_count (λ rest. rest) };

    fn next(&mut self) -> Option<u16> {
        while let Some(block) = self.blocks.next() {
            if block.kind == self.kind {
                return Some(block.number);
            }
        }
        None
    }
}
