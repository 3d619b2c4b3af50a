//! How areas are divided among banks.
ghost use Rattle.std.specs.Prelude.{◌≡◌, ◌+◌, ◌<◌, ◌==◌, None, ℕ, Some, IfOk, OnOk, filter, if◌then◌else◌, length};
ghost use Rattle.std.specs.Prelude.{slice_get};
ghost use Rattle.std.specs.BTreeMap.{is_at};
ghost use Rattle.std.specs.Map.{keys_of};
ghost use Rattle.std.specs.Option.{option_or};
ghost use Rattle.s7_item.specs.Codes.{data_blocks};
ghost use Rattle.s7_area.specs.Memory.{area_octets, key_cmp};
ghost use Rattle.s7_area.specs.Registers.{IsMemory, db_numbers};
ghost use Rattle.s7_area.specs.declared.key.AreaKey.{AreaKey};
ghost use Rattle.s7_bank.specs.Areas.{bank_of, part_of};
ghost use Rattle.s7_bank.specs.Dividing.{AreLeftBy, ArePartOf, block_key};

use crate::bank::bank_of;
use s7_area::{AreaKey, Areas};
use s7_item::codes::DATA_BLOCKS;
use s7_outer::Memory;
use std::alloc::Global;

/// Moves the areas of each bank but the first out of `areas`, in the order of the banks. Those of the first stay. No
/// octets are copied. Returns `Memory` if an allocation fails; areas may be lost then.
pub(crate) fn divide(alloc: Global, areas: &mut Areas, banks: u8) -> Result<Vec<Areas>, Memory>
    requires { 0 < banks }
    ensures many { IfOk result (λ parts. length parts.items + 1 ≡ banks) }
    ensures parts { IfOk result (λ parts. (i : ℕ) (part : _) → slice_get parts.items i ≡ Some part
        → part ≡ part_of banks (i + 1) areas.old) }
    ensures first { OnOk result (areas.new ≡ part_of banks 0 areas.old) }
{
    let _known = areas.db_numbers();
    let mut parts = Vec::with_capacity(alloc, usize::from(banks))?;
    for bank in 1..banks {
        let part = take_part(alloc, areas, banks, bank)?;
        parts.push_reserved(part);
    }
    let _left = areas.db_numbers();
    Ok(parts)
}

/// Moves the areas of a bank other than the first out of `areas`. Returns `Memory` if an allocation fails; areas may be
/// lost then.
fn take_part(alloc: Global, areas: &mut Areas, banks: u8, bank: u8) -> Result<Areas, Memory>
    requires bank { 0 < bank }
    requires banks { 0 < banks }
    ensures part { IfOk result (λ part. ArePartOf banks bank areas.old part) }
    ensures left { OnOk result (AreLeftBy banks bank areas.old areas.new) }
{
    let numbers = numbers_in(alloc, areas, banks, bank)?;
    let mut part = Areas::new();
    part.set_guard(areas.guard());
    for number in numbers {
        move_block(alloc, number, areas, &mut part)?;
    }
    let _taken = part.db_numbers();
    Ok(part)
}

/// The numbers of the data blocks that are in a bank, in ascending order. The contract also states that these areas are
/// a memory. Returns `Memory` if an allocation fails.
fn numbers_in(alloc: Global, areas: &Areas, banks: u8, bank: u8) -> Result<Vec<u16>, Memory>
    requires { 0 < banks }
    ensures numbers { IfOk result (λ numbers. numbers.items
        ≡ filter (λ n. bank_of banks data_blocks n == bank) (db_numbers (keys_of areas.now.areas))) }
    ensures memory { IsMemory areas.now }
{
    let mut numbers = Vec::with_capacity(alloc, areas.db_numbers().count())?;
    for number in areas.db_numbers() {
        if bank_of(banks, DATA_BLOCKS, number) == bank {
            numbers.push_reserved(number);
        }
    }
    Ok(numbers)
}

/// Moves a data block, if it is registered, to areas that have no data block of this number. Returns `Memory` if an
/// allocation fails; the data block is lost then.
fn move_block(alloc: Global, number: u16, areas: &mut Areas, part: &mut Areas) -> Result<(), Memory>
    ensures left { OnOk result ((key : AreaKey) → area_octets areas.new key
        ≡ (if is_at (key_cmp (block_key number)) key then None else area_octets areas.old key)) }
    ensures part { OnOk result ((key : AreaKey) → area_octets part.new key
        ≡ (if is_at (key_cmp (block_key number)) key
        then option_or (area_octets areas.old key) (area_octets part.old key) else area_octets part.old key)) }
    ensures guards { OnOk result ((areas.new.guard ≡ areas.old.guard) × (part.new.guard ≡ part.old.guard)) }
{
    let _numbers = areas.db_numbers();
    let key = AreaKey {
        area: DATA_BLOCKS,
        number,
    };
    let Ok(octets) = areas.unregister(key) else {
        return Ok(());
    };
    match part.register(alloc, key, octets) {
        Ok(()) => Ok(()),
        Err(_) => Err(Memory),
    }
}
