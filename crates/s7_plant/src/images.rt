//! Images of a plant, one kept after every 4,096th entry.
ghost use Rattle.std.specs.Prelude.{◌≡◌, ◌≤◌, ◌-◌, ◌%◌, [], Some, true, length, All, IfOk, IfSome, IsSome, option_map};
ghost use Rattle.s7_area.specs.Memory.{shape_of};
ghost use Rattle.s7_block.specs.Heads.{head_agrees};
ghost use Rattle.s7_block.specs.Kinds.{is_stored_kind};
ghost use Rattle.s7_plant.specs.Images.{AreKept, AreNoted, CanBeNoted, HasPlace, all_there, image_of_source, kept_of};
ghost use Rattle.s7_plant.specs.Images.{kept_state, sourced, sources_after};
ghost use Rattle.s7_plant.specs.Journals.{AreReady, at, entries_of, image_interval};
ghost use Rattle.s7_plant.specs.State.{state_of};

use crate::journal::{Entry, Journal};
use crate::plant::Plant;
use crate::request::Request;
use s7_area::Areas;
use s7_block::{Block, BlockName, Blocks, Marks};
use s7_outer::{Memory, Octets};
use std::alloc::Global;

/// An image of the plant is kept each time that this number of entries has been added.
pub(crate) const IMAGE_INTERVAL: u64 = 4_096;

/// A plant's state at one point of the journal, without the octets of its blocks.
#[derive(Drop)]
pub(crate) struct Kept {
    areas: Areas,
    offset: i64,
    running: bool,
    // for each block the number of the entry that stored it, or none if it was there at the opening
    sources: Marks,
}

impl Kept {
    /// A kept state with the areas of this plant and room for its sources of blocks. Returns `Memory` if an allocation
    /// fails.
    fn of(alloc: Global, plant: &Plant) -> Result<Kept, Memory>
        ensures areas { IfOk result (λ kept. kept.areas ≡ plant.now.areas) }
        ensures limit { IfOk result (λ kept. kept.sources.limit ≡ plant.now.blocks.limit) }
    {
        Ok(Kept {
            areas: plant.areas.copy(alloc)?,
            offset: plant.offset,
            running: plant.running,
            sources: Marks::of(alloc, &plant.blocks)?,
        })
    }

    /// Copies the state of a plant whose blocks have these sources. The areas must have the names and lengths of those
    /// kept here. Allocates nothing.
    fn overwrite(&mut self, plant: &Plant, sources: &Marks)
        requires shape { shape_of plant.now.areas ≡ shape_of self.old.areas }
        requires limit { sources.now.limit ≡ self.old.sources.limit }
        ensures { self.new ≡ kept_of plant.now sources.now }
    {
        self.areas.overwrite(&plant.areas);
        self.offset = plant.offset;
        self.running = plant.running;
        self.sources.overwrite(sources);
    }

    /// The plant of this kept state with these blocks. Returns `Memory` if an allocation fails.
    fn with_blocks(&self, alloc: Global, blocks: Blocks) -> Result<Plant, Memory>
        ensures { IfOk result (λ plant. state_of plant ≡ kept_state self.now blocks) }
    {
        Ok(Plant {
            areas: self.areas.copy(alloc)?,
            blocks,
            offset: self.offset,
            running: self.running,
        })
    }
}

/// The kept images, with room for all that the journal can need, and the current source of each block.
#[derive(Drop)]
pub(crate) struct Images {
    kept: Vec<Kept>,
    count: usize,
    sources: Marks,
}

impl Images {
    /// No image, and room for all images of a journal with this limit, at most 262,144. All room is allocated here.
    /// Returns `Memory` if an allocation fails.
    pub(crate) fn new(alloc: Global, opening: &Plant, limit: u64) -> Result<Images, Memory>
        requires { limit ≤ 262144 }
        ensures { IfOk result (AreKept (state_of opening.now) (entries_of [] limit)) }
    {
        // a store keeps its blocks in order
        let _blocks = opening.blocks.len();
        let room = limit / IMAGE_INTERVAL;
        let mut kept = Vec::with_capacity(alloc, room as usize)?;
        for _ in 0..room {
            kept.push_reserved(Kept::of(alloc, opening)?);
        }
        Ok(Images {
            kept,
            count: 0,
            sources: Marks::of(alloc, &opening.blocks)?,
        })
    }

    /// Records an entry: its number, what it asked, the error word of its answer, and the plant that it left. After
    /// each 4,096th entry the plant is kept. Allocates nothing.
    pub(crate) fn note(&mut self, entry: u64, request: &Request, error: u16, plant: &Plant)
        requires { CanBeNoted self.old entry request.now error plant.now }
        ensures { AreNoted self.old entry request.now error plant.now self.new }
    {
        note_source(&mut self.sources, entry, request, error);
        if (entry + 1) % IMAGE_INTERVAL == 0 {
            self.kept[self.count].overwrite(plant, &self.sources);
            self.count += 1;
        }
    }

    /// The plant of the newest image at or before entry `n`, or the opening if there is none. Returns `Memory` if an
    /// allocation fails.
    pub(crate) fn newest(
        &self,
        alloc: Global,
        opening: &Plant,
        journal: &Journal,
        n: u64,
    ) -> Result<Plant, Memory>
        requires kept { AreKept (state_of opening.now) journal.now self.now }
        requires within { n ≤ length journal.now.entries }
        ensures { IfOk result (λ plant. state_of plant
            ≡ at (state_of opening.now) journal.now.entries (n - n % image_interval)) }
    {
        let place = (n / IMAGE_INTERVAL) as usize;
        if place == 0 {
            return opening.copy(alloc);
        }
        let kept = &self.kept[place - 1];
        let entries = journal.as_slice();
        let blocks = blocks_from(alloc, &opening.blocks, entries, &kept.sources)?;
        kept.with_blocks(alloc, blocks)
    }
}

/// Records the entry as the source of the block that its request stores, and forgets the source of a block that it
/// deletes. Changes nothing if the error word isn't 0.
fn note_source(sources: &mut Marks, entry: u64, request: &Request, error: u16)
    requires { HasPlace sources.old request.now error }
    ensures { sources.new ≡ sources_after sources.old entry request.now error }
{
    if error != 0 {
        return;
    }
    match request {
        Request::Insert { kind, number, .. } => {
            sources.put(
                BlockName {
                    kind: *kind,
                    number: *number,
                },
                entry,
            );
        }
        Request::Delete { kind, number } => {
            sources.remove(BlockName {
                kind: *kind,
                number: *number,
            });
        }
        _ => {}
    }
}

/// The blocks with these sources: their images are copied from the opening or from the entries. Returns `Memory` if an
/// allocation fails.
fn blocks_from(
    alloc: Global,
    opening: &Blocks,
    entries: &[Entry],
    sources: &Marks,
) -> Result<Blocks, Memory>
    requires ready { AreReady entries.now }
    requires limit { sources.now.limit ≡ opening.now.limit }
    requires there { All (λ e. IsSome (image_of_source opening.now.images entries.now e.0 e.1)) sources.now.marks }
    ensures images { IfOk result (λ blocks. all_there blocks.images
        ≡ sourced opening.now.images entries.now sources.now.marks) }
    ensures limit { IfOk result (λ blocks. blocks.limit ≡ opening.now.limit) }
{
    let mut blocks = Blocks::new(alloc, opening.limit())?;
    for mark in sources.as_slice() {
        let name = mark.0;
        let Some(image) = find_source(opening, entries, name, mark.1) else {
            unreachable!();
        };
        let image = Octets::copy_of(alloc, image)?;
        // the names come in order, and there is room for all of them
        let _ = blocks.insert(Block {
            kind: name.kind,
            number: name.number,
            image,
        });
    }
    Ok(blocks)
}

/// The image of a block with this source, borrowed: from the opening if `source` is `None`, otherwise from the entry of
/// that number. `None` exactly if it isn't there.
fn find_source<'a>(
    opening: &'a Blocks,
    entries: &'a [Entry],
    name: BlockName,
    source: Option<u64>,
) -> Option<&'a [u8]>
    requires { AreReady entries.now }
    ensures image { option_map (λ image. image.now) result
        ≡ image_of_source opening.now.images entries.now name source }
    ensures kind { IfSome result (λ image. is_stored_kind name.kind ≡ true) }
    ensures head { IfSome result (λ image. head_agrees image.now name.kind name.number ≡ true) }
{
    match source {
        None => match opening.get(name.kind, name.number) {
            Some(block) => Some(block.image.as_slice()),
            None => None,
        },
        Some(number) => match entries.get(number as usize) {
            Some(entry) => entry.ask.request.image_for(name),
            None => None,
        },
    }
}
