//! Reading sends files.
ghost use Rattle.std.specs.Prelude.{◌≡◌, All, OnOk, IfErr, IfOk, Ok};
ghost use Rattle.s7_script.specs.Script.{GivesScript, LineFails};
ghost use Rattle.s7_script.specs.ScriptShown.{appended};
ghost use Rattle.s7_script.specs.Sends.{IsSized, line_sends, sends};

use crate::scripts::reading::add_line;
use crate::sends::send_line::{NamedBlock, send_of};
use crate::sends::send_list::{SendLine, Sends};
use crate::{ScriptFault, ScriptKind};
use s7_text::first_line;
use std::alloc::Global;

pub(crate) mod send_line;
pub(crate) mod send_list;

/// The blocks that a sends file names, or its first wrong line.
///
/// Lines end and are skipped as `read_script` states. Every other line is `send RID HEX`, with one space between
/// fields: `RID` identifies the block for the two partners, in eight hexadecimal digits, and `HEX` is the block's
/// octets, an even number of hexadecimal digits, at least two. Digits are in either case.
///
/// The fault is that of the first wrong line, and of this line's first wrong field from the left; a field that is
/// missing or too many is checked last. It is `Word` if the first word isn't `send`, `Digits` if the R_ID or the octets
/// aren't such digits, `Number` if there are more than 65,535 octets, and `Fields` if a field is missing or too many.
/// Returns `Memory` if an allocation fails.
pub fn read_sends(alloc: Global, text: &[u8]) -> Result<Sends, ScriptFault>
    ensures given { GivesScript (λ s. s) result (sends text.now) }
    ensures sized { IfOk result (All IsSized) }
{
    let mut found = Vec::new(alloc);
    let mut rest = text;
    let mut line: u32 = 1;
    while !rest.is_empty() {
        let (next, after) = first_line(rest);
        take_line(alloc, line, next, &mut found)?;
        line = line.saturating_add(1);
        rest = after;
    }
    Ok(Sends::of_vec(found))
}

/// Adds the block of a line, if the line has one.
fn take_line(
    alloc: Global,
    line: u32,
    text: &[u8],
    found: &mut Vec<SendLine>,
) -> Result<(), ScriptFault>
    ensures ok { OnOk result (appended found.old.items (line_sends line text.now) ≡ Ok found.new.items) }
    ensures err { IfErr result (λ e. LineFails e e.kind (line_sends line text.now)) }
{
    if text.is_empty() || text[0] == b'#' {
        return Ok(());
    }
    match send_of(alloc, text) {
        Ok(NamedBlock { rid, body }) => add_line(found, line, SendLine { line, rid, body }),
        Err(kind) => Err(ScriptFault { line, kind }),
    }
}
