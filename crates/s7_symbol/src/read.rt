//! Reading tag files.
ghost use Rattle.std.specs.Prelude.{◌≡◌, OnOk, IfErr, Ok};
ghost use Rattle.s7_symbol.specs.Tags.{GivesTags, has_name, tags, with_tag};
ghost use Rattle.s7_symbol.specs.LineShown.{FailsLine};

use crate::fault::{TagFault, TagFaultKind};
use crate::line::read_tag;
use crate::tag::{Tag, Tags};
use s7_text::first_line;
use std::alloc::Global;

/// The greatest number of tags in a file.
const MOST_TAGS: usize = 2_048;

/// The tags of a file, or its first wrong line.
///
/// Each line ends with LF; a CR right before the LF is skipped, and the last LF may be missing. Empty lines and lines
/// that begin with `#` are skipped. Every other line is `NAME TYPE KEY START`, with one space between fields. NAME is 1
/// to 32 ASCII letters, digits or `_`. TYPE is `BOOL`, `INT`, `DINT`, `BCD`, `S5TIME`, `STRING[n]` with an n from 1 to
/// 254, or `DATE_AND_TIME`. KEY is `PE`, `PA`, `MK`, or `DB` and the number of the data block from 1 to 65,535. START
/// is an octet from 0 to 2,097,151; for `BOOL` it is an octet, a point and a bit from 0 to 7. Numbers are decimal, with
/// at most ten digits. The faults of a line are checked in the order of `TagFaultKind`.
pub fn read_tags(alloc: Global, text: &[u8]) -> Result<Tags, TagFault>
    ensures { GivesTags result (tags text.now) }
{
    let mut found = Vec::new(alloc);
    let mut rest = text;
    let mut line: u32 = 1;
    while !rest.is_empty() {
        let (next, after) = first_line(rest);
        if let Err(kind) = take_line(alloc, next, &mut found) {
            return Err(TagFault { line, kind });
        }
        line = line.saturating_add(1);
        rest = after;
    }
    Ok(Tags::of_vec(found))
}

/// Adds the tag of a line, if the line has one.
fn take_line(alloc: Global, text: &[u8], found: &mut Vec<Tag>) -> Result<(), TagFaultKind>
    ensures ok { OnOk result (with_tag found.old.items text.now ≡ Ok found.new.items) }
    ensures err { IfErr result (FailsLine found.old.items text.now) }
{
    if text.is_empty() || text[0] == b'#' {
        return Ok(());
    }
    let tag = read_tag(alloc, text)?;
    if has_name(tag.name.as_slice(), found.as_slice()) {
        return Err(TagFaultKind::Double);
    }
    if found.len() >= MOST_TAGS {
        return Err(TagFaultKind::TooMany);
    }
    if found.push(tag).is_err() {
        return Err(TagFaultKind::Memory);
    }
    Ok(())
}

/// Whether one of the tags has this name.
fn has_name(name: &[u8], tags: &[Tag]) -> bool
    ensures { result ≡ has_name name.now tags.now }
{
    tags.iter().any(|tag| tag.name.as_slice() == name)
}
