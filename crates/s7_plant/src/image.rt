//! The images of blocks.
ghost use Rattle.std.specs.Prelude.{◌≡◌, ◌≤◌, ◌++◌, length, option_map};
ghost use Rattle.s7_item.specs.Codes.{data_blocks};
ghost use Rattle.s7_area.specs.Memory.{area_octets};
ghost use Rattle.s7_block.specs.Store.{image_at};
ghost use Rattle.s7_plant.specs.Answers.{db_image, image_in};
ghost use Rattle.s7_plant.specs.State.{state_of};

use crate::plant::Plant;
use s7_area::{AreaKey, Areas};
use s7_block::kinds::DB;
use s7_block::{Blocks, db_head};
use s7_item::codes::DATA_BLOCKS;

/// The number of octets of a block's head.
const HEAD_LEN: usize = 36;

/// The image of a block: its head, and the octets after the head.
#[derive(Drop)]
pub(crate) struct Image<'a> {
    pub(crate) head: [u8; HEAD_LEN],
    pub(crate) rest: &'a [u8],
}

/// The image of a block, borrowed from the plant. `None` exactly if there is no such block.
pub(crate) fn find_image(plant: &Plant, kind: u8, number: u16) -> Option<Image<'_>>
    ensures { option_map (λ image. image.head ++ image.rest.now) result
        ≡ image_in (state_of plant.now) kind number }
{
    if kind == DB {
        find_area(&plant.areas, number)
    } else {
        find_stored(&plant.blocks, kind, number)
    }
}

/// The image of a data block. Its head is made here; its octets are those of the area. `None` exactly if there is no
/// such area.
fn find_area(areas: &Areas, number: u16) -> Option<Image<'_>>
    ensures { option_map (λ image. image.head ++ image.rest.now) result
        ≡ option_map (db_image number) (area_octets areas.now (record { area = data_blocks; number = number })) }
{
    // every registered area is within the limits of areas
    let _numbers = areas.db_numbers();
    let key = AreaKey {
        area: DATA_BLOCKS,
        number,
    };
    match areas.octets_of(key) {
        Some(rest) => {
            let mut head = [0; HEAD_LEN];
            db_head(number, rest.len() as u32, &mut head);
            Some(Image { head, rest })
        }
        None => None,
    }
}

/// The image of a block of the store. `None` exactly if the store has no such block.
#[tactic(auto, unfolding(s7_block::specs::Heads::head_agrees))]
fn find_stored(blocks: &Blocks, kind: u8, number: u16) -> Option<Image<'_>>
    ensures { option_map (λ image. image.head ++ image.rest.now) result
        ≡ image_at blocks.now.images (record { kind = kind; number = number }) }
{
    match blocks.get(kind, number) {
        Some(block) => Some(split(block.image.as_slice())),
        None => None,
    }
}

/// Splits an image of at least 36 octets into its head and the octets after it.
fn split(image: &[u8]) -> Image<'_>
    requires { 36 ≤ length image.now }
    ensures { result.head ++ result.rest.now ≡ image.now }
{
    let (front, rest) = image.split_at(HEAD_LEN);
    let mut head = [0; HEAD_LEN];
    head.copy_from_slice(front);
    Image { head, rest }
}
