//! The areas that `gen` runs on.
ghost use Rattle.std.specs.Prelude.{◌≡◌, ◌≤◌, ◌<◌, ◌+◌, IfOk, None, OnOk, length};
ghost use Rattle.s7_area.specs.Memory.{with_area};
ghost use Rattle.s7_area.specs.Registers.{fault_of};
ghost use Rattle.s7_tool_main.specs.Gen.{block_key, blank_octets, made_areas, rising_octets};

use s7_area::{AreaKey, Areas, RegisterFault};
use s7_item::codes::{DATA_BLOCKS, FLAGS};
use s7_outer::{Memory, Octets};
use std::alloc::{AllocError, Global};

/// The name of the flags.
pub(crate) const FLAGS_KEY: AreaKey = AreaKey {
    area: FLAGS,
    number: 0,
};

/// The name of a data block.
pub(crate) fn block_key(number: u16) -> AreaKey
    ensures { result ≡ block_key number }
{
    AreaKey {
        area: DATA_BLOCKS,
        number,
    }
}

/// The flags with 256 octets 00, and four data blocks of 4,096 octets. The octets of a block count up by one, modulo
/// 256, from the block's number.
pub(crate) fn made_areas(alloc: Global) -> Result<Areas, Memory>
    ensures { IfOk result (λ areas. areas ≡ made_areas) }
{
    let mut areas = Areas::new();
    add(alloc, &mut areas, FLAGS_KEY, blank_octets(alloc, 256)?)?;
    add(
        alloc,
        &mut areas,
        block_key(1),
        rising_octets(alloc, 1, 4_096)?,
    )?;
    add(
        alloc,
        &mut areas,
        block_key(2),
        rising_octets(alloc, 2, 4_096)?,
    )?;
    add(
        alloc,
        &mut areas,
        block_key(3),
        rising_octets(alloc, 3, 4_096)?,
    )?;
    add(
        alloc,
        &mut areas,
        block_key(4),
        rising_octets(alloc, 4, 4_096)?,
    )?;
    Ok(areas)
}

/// Adds an area, which must have no fault.
fn add(alloc: Global, areas: &mut Areas, key: AreaKey, octets: Octets) -> Result<(), Memory>
    requires { fault_of areas.old key (length octets) ≡ None }
    ensures { OnOk result (areas.new ≡ with_area areas.old key octets) }
{
    match areas.register(alloc, key, octets) {
        Ok(()) => Ok(()),
        Err((RegisterFault::Memory, _)) => Err(Memory),
        Err(_) => unreachable!(),
    }
}

/// This number of octets 00.
#[tactic(auto, unfolding(crate::specs::Gen::blank_octets))]
fn blank_octets(alloc: Global, count: usize) -> Result<Octets, AllocError>
    ensures octets { IfOk result (λ octets. octets ≡ blank_octets count) }
    ensures len { IfOk result (λ octets. length octets ≡ count) }
{
    Ok(Octets::of_vec(vec![in alloc; 0; count]?))
}

/// This number of octets that count up by one from `first`, modulo 256.
fn rising_octets(alloc: Global, first: u32, count: u32) -> Result<Octets, AllocError>
    requires { first + count < 65536 }
    ensures octets { IfOk result (λ octets. octets ≡ rising_octets first count) }
    ensures len { IfOk result (λ octets. length octets ≡ count) }
{
    let mut octets = Vec::new(alloc);
    for k in 0..count {
        octets.push(((first + k) % 256) as u8)?;
    }
    Ok(Octets::of_vec(octets))
}
