//! Names of blocks, each with or without a number.
ghost use Rattle.std.specs.Prelude.{◌≡◌, ◌≤◌, ◌<◌, None, length, IfOk, IfErr};
ghost use Rattle.s7_block.specs.Marks.{mark_at, with_mark, without_mark, unmarked};

use crate::block::BlockName;
use crate::blocks::Blocks;
use s7_outer::Memory;
use std::alloc::Global;
use std::marker::Model;

/// The name of a block, with or without a number.
pub type Mark = (BlockName, Option<u64>);

/// Names of blocks, each with or without a number, in a vector that is allocated when they are made. Contracts see
/// the marks in the order of the names, and the greatest number of marks.
#[derive(Drop)]
pub struct Marks {
    marks: Vec<Mark>,
    limit: usize,
}

impl Model for Marks {
    ghost use Rattle.std.specs.Prelude.{vec_capacity};
    ghost use Rattle.s7_block.specs.Marks.{MarkList, KeepsMarks};

    ghost Value = { MarkList };

    ghost view = { λ m. record { marks = m.marks.items; limit = m.limit } };

    ghost invariant = { λ m. KeepsMarks m.marks.items m.limit (vec_capacity m.marks) };
}

impl Marks {
    ghost use Rattle.s7_block.specs.Marks.{IsMarkList};
    ghost use Rattle.s7_block.specs.StorePlaces.{IsAt, IsGapFor};

    /// The names of a store's blocks, each without a number, with room for as many names as the store may have
    /// blocks, allocated here. Returns `Memory` if the allocation fails.
    pub fn of(alloc: Global, blocks: &Blocks) -> Result<Marks, Memory>
        ensures marks { IfOk result (λ m. m.marks ≡ unmarked blocks.now.images) }
        ensures limit { IfOk result (λ m. m.limit ≡ blocks.now.limit) }
    {
        let limit = blocks.limit();
        let mut marks = Vec::with_capacity(alloc, limit)?;
        for block in blocks.as_slice() {
            marks.push_reserved((block.name(), None));
        }
        Ok(Marks { marks, limit })
    }

    /// The marks in the order of the names, borrowed.
    pub fn as_slice(&self) -> &[Mark]
        ensures marks { result.now ≡ self.now.marks }
        ensures list { IsMarkList self.now }
    {
        self.marks.as_slice()
    }

    /// The greatest number of marks.
    pub fn limit(&self) -> usize
        ensures limit { result ≡ self.now.limit }
        ensures list { IsMarkList self.now }
    {
        self.limit
    }

    /// Marks a name with a number, in place of an earlier mark. The caller ensures that there is room for a new
    /// name. Nothing is allocated.
    pub fn put(&mut self, name: BlockName, number: u64)
        requires { mark_at self.old.marks name ≡ None → length self.old.marks < self.old.limit }
        ensures { self.new ≡ with_mark self.old name number }
    {
        let mark = (name, Some(number));
        match self.search(name) {
            Ok(at) => self.marks[at] = mark,
            Err(at) => match self.marks.insert(at, mark) {
                Ok(()) => {}
                Err(_) => unreachable!(),
            },
        }
    }

    /// Removes a name, if it is in the list.
    pub fn remove(&mut self, name: BlockName)
        ensures { self.new ≡ without_mark self.old name }
    {
        match self.search(name) {
            Ok(at) => {
                self.marks.remove(at);
            }
            Err(_) => {}
        }
    }

    /// Copies the marks of another list. This list has room for as many names as the other may have. Nothing is
    /// allocated.
    pub fn overwrite(&mut self, from: &Marks)
        requires { from.now.limit ≤ self.old.limit }
        ensures { self.new ≡ record self.old { marks = from.now.marks } }
    {
        self.marks.clear();
        match self.marks.extend_from_slice(from.marks.as_slice()) {
            Ok(()) => {}
            Err(_) => unreachable!(),
        }
    }

    /// The index of the name, or else the index at which it would be added.
    fn search(&self, name: BlockName) -> Result<usize, usize>
        ensures found { IfOk result (IsAt self.now.marks name) }
        ensures absent { IfErr result (IsGapFor self.now.marks name) }
    {
        self.marks.binary_search_by_key(&name, |mark| mark.0)
    }
}
