//! Loading the areas that an argument of the command line names.
ghost use Rattle.std.specs.Prelude.{◌≡◌, ◌≢◌, ◌≤◌, length, option_map, Err, IfSome, Ok};
ghost use Rattle.hex.specs.Hex.{decode_of};
ghost use Rattle.s7_text.specs.Fields.{number_of};
ghost use Rattle.s7_script.specs.Naming.{naming, path, inline_parts, block_number, block_octets, block_named};
ghost use Rattle.s7_script.specs.Naming.{block_with};
ghost use Rattle.s7_script.specs.Loading.{AnswersOctets, Loads, LoadsBlock};

use crate::areas::read::read_areas;
use crate::{AreasFault, AreasKind};
use hex::FromHexError;
use s7_area::{AreaKey, Areas, RegisterFault};
use s7_item::codes::DATA_BLOCKS;
use s7_outer::{FileFault, Files, Octets};
use s7_text::{number, split_mark};
use std::alloc::Global;

/// The greatest number of octets of a data block.
const MOST_OCTETS: usize = 2_097_152;

/// Why a file, or an inline word, wasn't loaded.
#[derive(Clone, Copy, Debug, PartialEq, Eq)]
pub enum LoadFault {
    /// The file doesn't exist, or it couldn't be read.
    Failed,
    /// The file has more than 67,108,864 octets.
    TooLong,
    /// The number of the first faulty line of the file, from 1 on. It is 1 for an inline word that can't be read.
    Line(u32),
    /// An allocation failed.
    Memory,
}

/// The areas that a word names. No file is changed.
///
/// A word that begins with `DB` and contains `=` is inline: `DBn=HEX`, where `n` is a decimal number of at most ten
/// digits from 1 to 65,535, and `HEX` an even number of hexadecimal digits in either case for 1 to 2,097,152 octets. It
/// names the data block `n` alone, with these octets and without a guard. If an inline word can't be read, the result
/// is `Line(1)`. An inline word touches no file.
///
/// Every other word is a path. The file is read as `read_areas` reads it, with its guard if it has one. Returns
/// `Failed` only if this path's fault counter rose in this call, `TooLong` exactly if more than 67,108,864 octets were
/// read, and `Line` exactly if a line is faulty. Returns `Memory` if an allocation fails.
pub fn load_areas<F: Files>(alloc: Global, files: &mut F, word: &str) -> Result<Areas, LoadFault>
    ensures { Loads (naming word.now) (F.shows files.old) (F.shows files.new) result }
{
    match inline_parts(word.as_bytes()) {
        Some((number, digits)) => load_block(alloc, number, digits),
        None => load_file(alloc, files, word),
    }
}

/// The number and the digits of an inline word; `None` if the word isn't inline.
fn inline_parts(word: &[u8]) -> Option<(&[u8], &[u8])>
    ensures { option_map (λ p. (p.0.now, p.1.now)) result ≡ inline_parts word.now }
{
    match word.strip_prefix(b"DB") {
        Some(rest) => split_mark(rest, b'='),
        None => None,
    }
}

/// The data block of this number, with the octets of these digits.
fn load_block(alloc: Global, number_text: &[u8], digits: &[u8]) -> Result<Areas, LoadFault>
    ensures { LoadsBlock (block_named (block_number (number_of number_text.now)) digits.now) result }
{
    let Some(number) = block_number(number(number_text)) else {
        return Err(LoadFault::Line(1));
    };
    match hex::decode(alloc, digits) {
        Ok(octets) => open_block(alloc, number, octets),
        Err(FromHexError::OutOfMemory) => Err(LoadFault::Memory),
        Err(_) => Err(LoadFault::Line(1)),
    }
}

/// The number of a data block, from 1 to 65,535.
fn block_number(number: Option<u64>) -> Option<u16>
    ensures number { result ≡ block_number number }
    ensures least { IfSome result (λ n. 1 ≤ n) }
{
    match number {
        Some(number) if 1 <= number && number <= 65_535 => Some(number as u16),
        _ => None,
    }
}

/// One data block with these octets.
fn open_block(alloc: Global, number: u16, octets: Vec<u8>) -> Result<Areas, LoadFault>
    requires { 1 ≤ number }
    ensures { LoadsBlock (block_with number (block_octets (Ok octets.items))) result }
{
    if octets.is_empty() || octets.len() > MOST_OCTETS {
        return Err(LoadFault::Line(1));
    }
    let key = AreaKey {
        area: DATA_BLOCKS,
        number,
    };
    let mut areas = Areas::new();
    match areas.register(alloc, key, Octets::of_vec(octets)) {
        Ok(()) => Ok(areas),
        Err((RegisterFault::Memory, _)) => Err(LoadFault::Memory),
        Err(_) => unreachable!(),
    }
}

/// The areas of the file under a path.
fn load_file<F: Files>(alloc: Global, files: &mut F, file: &str) -> Result<Areas, LoadFault>
    ensures { Loads (path file.now) (F.shows files.old) (F.shows files.new) result }
{
    let mut octets = Vec::new(alloc);
    match files.read(alloc, file, &mut octets) {
        Ok(()) => areas_of(alloc, octets.as_slice()),
        Err(FileFault::Failed) => Err(LoadFault::Failed),
        Err(FileFault::TooLong) => Err(LoadFault::TooLong),
        Err(FileFault::Memory) => Err(LoadFault::Memory),
    }
}

/// The areas of an area file, or the number of its first faulty line.
fn areas_of(alloc: Global, text: &[u8]) -> Result<Areas, LoadFault>
    ensures { AnswersOctets text.now result }
{
    match read_areas(alloc, text) {
        Ok(areas) => Ok(areas),
        Err(fault) if fault.kind == AreasKind::Memory => Err(LoadFault::Memory),
        Err(fault) => Err(LoadFault::Line(fault.line)),
    }
}
