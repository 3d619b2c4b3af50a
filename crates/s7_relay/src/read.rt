//! Reading windows files.
ghost use Rattle.std.specs.Prelude.{◌≡◌, IfErr, IfOk, OnOk, map};
ghost use Rattle.std.specs.List.{list_any};
ghost use Rattle.s7_relay.specs.File.{SaysFault, SaysWindows, terms_in};
ghost use Rattle.s7_relay.specs.Keys.{same_key};
ghost use Rattle.s7_relay.specs.LineShown.{Adds, FailsLine};
ghost use Rattle.s7_relay.specs.declared.windows.Window.{Window};

use crate::fault::{WindowFault, WindowKind};
use crate::line::read_line;
use crate::windows::{Window, Windows, is_same};
use s7_area::AreaKey;
use s7_text::first_line;
use std::alloc::Global;

/// The windows of a file, or the first wrong line if there is one.
///
/// Each line ends with LF; a CR right before the LF is skipped; the last LF may be missing. Empty lines and lines that
/// begin with `#` are skipped. Every other line is `KEY LENGTH = KEY OFFSET`, with one space between fields. The fields
/// are the near area, the number of its octets, `=`, the far area, and the octet of the far area at which the near area
/// begins. KEY is `PE`, `PA`, `MK`, or `DB` and the number of the data block from 1 to 65,535. LENGTH is at least 1,
/// OFFSET is at least 0, and their sum is at most 2,097,152. Numbers are decimal, with at most ten digits. No two lines
/// have the same near area. What is wrong with a line is found in the order of `WindowKind`. Returns `Memory` if an
/// allocation fails.
pub fn read_windows(alloc: Global, text: &[u8]) -> Result<Windows, WindowFault>
    ensures ok { IfOk result (SaysWindows text.now) }
    ensures err { IfErr result (SaysFault text.now) }
{
    let mut found = Vec::new(alloc);
    let mut rest = text;
    let mut line: u32 = 1;
    while !rest.is_empty() {
        let (next, after) = first_line(rest);
        if let Err(kind) = take_line(next, &mut found) {
            return Err(WindowFault { line, kind });
        }
        line = line.saturating_add(1);
        rest = after;
    }
    Ok(Windows::of_vec(found))
}

/// Appends the window of a line, unless the line is skipped.
fn take_line(text: &[u8], found: &mut Vec<Window>) -> Result<(), WindowKind>
    ensures ok { OnOk result (Adds (map terms_in found.old.items) text.now (map terms_in found.new.items)) }
    ensures err { IfErr result (FailsLine (map terms_in found.old.items) text.now) }
{
    if text.is_empty() || text[0] == b'#' {
        return Ok(());
    }
    let window = read_line(text)?;
    if is_met(window.near, found.as_slice()) {
        return Err(WindowKind::Double);
    }
    if found.push(window).is_err() {
        return Err(WindowKind::Memory);
    }
    Ok(())
}

/// Whether one of the windows has this near area.
fn is_met(near: AreaKey, found: &[Window]) -> bool
    ensures { result ≡ list_any (λ (w : Window). same_key w.near near) found.now }
{
    found.iter().any(|window| is_same(window.near, near))
}
