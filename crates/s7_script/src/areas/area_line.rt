//! Lines that begin an area.
ghost use Rattle.std.specs.Prelude.{◌≡◌, option_map};
ghost use Rattle.std.specs.List.{position};
ghost use Rattle.s7_text.specs.Fields.{is_space};
ghost use Rattle.s7_script.specs.Reading.{area_line, area_named, block_line, number_within, with_size};

use crate::{AreasFault, AreasKind};
use s7_area::AreaKey;
use s7_item::codes::{COUNTERS, DATA_BLOCKS, FLAGS, INPUTS, OUTPUTS, TIMERS};
use s7_text::{number, split_field};

/// A fault of this kind in this line.
pub(crate) fn fault(line: u32, kind: AreasKind) -> AreasFault
    ensures { result ≡ record { line = line; kind = kind } }
{
    AreasFault { line, kind }
}

/// The name and the length of the area that a line begins.
pub(crate) fn area_line(line: u32, text: &[u8]) -> Result<(AreaKey, u64), AreasFault>
    ensures { result ≡ area_line line text.now }
{
    let (name, rest) = split_field(text);
    match area_named(name) {
        Some(DATA_BLOCKS) => block_line(line, rest),
        Some(area) => with_size(line, AreaKey { area, number: 0 }, rest),
        None => Err(fault(line, AreasKind::Line)),
    }
}

/// The code of the area of this name: `PE`, `PA`, `MK`, `CT` or `TM`; `None` for any other name.
pub(crate) fn area_named(name: &[u8]) -> Option<u8>
    ensures { result ≡ area_named name.now }
{
    if name == b"PE".as_slice() {
        Some(INPUTS)
    } else if name == b"PA".as_slice() {
        Some(OUTPUTS)
    } else if name == b"MK".as_slice() {
        Some(FLAGS)
    } else if name == b"CT".as_slice() {
        Some(COUNTERS)
    } else if name == b"TM".as_slice() {
        Some(TIMERS)
    } else if name == b"DB".as_slice() {
        Some(DATA_BLOCKS)
    } else {
        None
    }
}

/// The fields after `DB`: the number of a data block, and its length.
fn block_line(line: u32, rest: Option<&[u8]>) -> Result<(AreaKey, u64), AreasFault>
    ensures { result ≡ block_line line (option_map (λ t. t.now) rest.entry) }
{
    let Some(text) = rest else {
        return Err(fault(line, AreasKind::Line));
    };
    let (field, rest) = split_field(text);
    let number = number_within(1, 65_535, number(field), line)?;
    let key = AreaKey {
        area: DATA_BLOCKS,
        number: number as u16,
    };
    with_size(line, key, rest)
}

/// The length, which must be the last field.
fn with_size(line: u32, key: AreaKey, rest: Option<&[u8]>) -> Result<(AreaKey, u64), AreasFault>
    ensures { result ≡ with_size line key (option_map (λ t. t.now) rest.entry) }
{
    let Some(text) = rest else {
        return Err(fault(line, AreasKind::Line));
    };
    let (field, rest) = split_field(text);
    let size = number_within(0, 9_999_999_999, number(field), line)?;
    match rest {
        Some(_) => Err(fault(line, AreasKind::Line)),
        None => Ok((key, size)),
    }
}

/// The number, if there is one from `low` to `high`; otherwise the fault `Number` of this line.
pub(crate) fn number_within(
    low: u64,
    high: u64,
    found: Option<u64>,
    line: u32,
) -> Result<u64, AreasFault>
    ensures { result ≡ number_within low high found line }
{
    match found {
        Some(n) if low <= n && n <= high => Ok(n),
        _ => Err(fault(line, AreasKind::Number)),
    }
}
