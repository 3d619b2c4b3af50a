//! Writing area files.
ghost use Rattle.std.specs.Prelude.{◌≡◌, ◌++◌, Ok, IfOk, OnOk, length, map};
ghost use Rattle.std.specs.List.{AllByRecursion, flat_map};
ghost use Rattle.std.specs.Map.{keys_of};
ghost use Rattle.hex.specs.Hex.{IsBytes};
ghost use Rattle.s7_area.specs.Registers.{IsMemory, db_numbers};
ghost use Rattle.s7_script.specs.Reading.{areas as areas_by};
ghost use Rattle.s7_script.specs.Spelling.{IsInRange, area_text, block, guard_text, name_of, part, single, singles};
ghost use Rattle.s7_script.specs.Spelling.{spelling};

use crate::areas::octet_lines::write_octets;
use s7_area::{AreaKey, Areas, areas_join};
use s7_item::codes::{COUNTERS, DATA_BLOCKS, FLAGS, INPUTS, OUTPUTS, TIMERS};
use s7_outer::{Memory, Octets};
use s7_text::split_field;
use std::alloc::Global;

/// The area file of these areas, in version 2: the first line; the line of the guard, if there is one; then inputs,
/// outputs, flags, counters, timers, and the data blocks in ascending order of their numbers. At least 33 equal octets
/// are a run, all of them on one line. The others are digits in lower case, 32 octets on a line, or fewer before a run
/// and at the end of an area. Every line ends with LF. `read_areas` reads the same areas and the same guard from it.
/// Returns `Memory` if an allocation fails.
pub fn write_areas(alloc: Global, areas: &Areas) -> Result<Octets, Memory>
    ensures spelled { IfOk result (λ text. text ≡ spelling areas.now) }
    ensures law { IfOk result (λ text. areas_by text ≡ Ok areas.now) }
{
    areas_join();
    let mut text = Vec::new(alloc);
    text.extend_from_slice(b"s7 areas 2\n")?;
    write_guard(alloc, &mut text, areas)?;
    write_singles(
        alloc,
        &mut text,
        areas,
        &[INPUTS, OUTPUTS, FLAGS, COUNTERS, TIMERS],
    )?;
    write_blocks(alloc, &mut text, areas)?;
    Ok(Octets::of_vec(text))
}

/// Appends the line of the guard, if there is one.
fn write_guard(alloc: Global, text: &mut Vec<u8>, areas: &Areas) -> Result<(), Memory>
    ensures { OnOk result (text.new.items ≡ text.old.items ++ guard_text areas.now.guard) }
{
    let Some(guard) = areas.guard() else {
        return Ok(());
    };
    let level = guard.level;
    let line = format!(in alloc; "protect {level} ")?;
    let (word, _) = split_field(guard.password.as_slice());
    text.extend_from_slice(line.as_bytes())?;
    text.extend_from_slice(word)?;
    text.extend_from_slice(b"\n")?;
    Ok(())
}

/// Appends the areas with these codes; each code has one area at most.
fn write_singles(
    alloc: Global,
    text: &mut Vec<u8>,
    areas: &Areas,
    codes: &[u8],
) -> Result<(), Memory>
    ensures ok { OnOk result (text.new.items
        ≡ text.old.items ++ flat_map (part areas.now) (map single codes.now)) }
    ensures range { OnOk result (AllByRecursion (IsInRange areas.now) (map single codes.now)) }
{
    for area in codes {
        write_part(
            alloc,
            text,
            areas,
            AreaKey {
                area: *area,
                number: 0,
            },
        )?;
    }
    Ok(())
}

/// Appends the data blocks.
fn write_blocks(alloc: Global, text: &mut Vec<u8>, areas: &Areas) -> Result<(), Memory>
    ensures ok { OnOk result (text.new.items
        ≡ text.old.items ++ flat_map (part areas.now) (map block (db_numbers (keys_of areas.now.areas)))) }
    ensures range { OnOk result
        (AllByRecursion (IsInRange areas.now) (map block (db_numbers (keys_of areas.now.areas)))) }
    ensures memory { OnOk result (IsMemory areas.now) }
{
    for number in areas.db_numbers() {
        let area = DATA_BLOCKS;
        write_part(alloc, text, areas, AreaKey { area, number })?;
    }
    Ok(())
}

/// Appends the area of this name, if there is one.
#[tactic(auto, unfolding(crate::specs::Spelling::part))]
fn write_part(alloc: Global, text: &mut Vec<u8>, areas: &Areas, key: AreaKey) -> Result<(), Memory>
    ensures ok { OnOk result (text.new.items ≡ text.old.items ++ part areas.now key) }
    ensures range { IsInRange areas.now key }
{
    match areas.octets_of(key) {
        Some(octets) => write_area(alloc, text, key, octets),
        None => Ok(()),
    }
}

/// Appends an area: the line that begins it, and the lines of its octets.
fn write_area(alloc: Global, text: &mut Vec<u8>, key: AreaKey, octets: &[u8]) -> Result<(), Memory>
    ensures ok { OnOk result (text.new.items ≡ text.old.items ++ area_text key octets.now) }
    ensures octets { IsBytes octets.now }
{
    let size = octets.len();
    let number = key.number;
    let name = name_of(key.area);
    let line = if key.area == DATA_BLOCKS {
        format!(in alloc; "DB {number} {size}\n")?
    } else {
        format!(in alloc; "{name} {size}\n")?
    };
    text.extend_from_slice(line.as_bytes())?;
    write_octets(alloc, text, octets)
}

/// The name of an area that isn't a data block.
fn name_of(area: u8) -> &'static str
    ensures { result.now ≡ name_of area }
{
    match area {
        INPUTS => "PE",
        OUTPUTS => "PA",
        FLAGS => "MK",
        COUNTERS => "CT",
        _ => "TM",
    }
}
