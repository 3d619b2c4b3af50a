//! Reading scripts.
ghost use Rattle.std.specs.Prelude.{◌≡◌, OnOk, IfErr, ◌<◌, ◌≤◌, ◌+◌, ◌-◌, ◌∷◌, ◌++◌, [], Ok, length, option_map};
ghost use Rattle.s7_script.specs.declared.scripts.script_fault.ScriptKind.TheVariants.{Memory};
ghost use Rattle.s7_text.specs.Lines.{lines};
ghost use Rattle.s7_script.specs.Script.{GivesScript, LineFails};
ghost use Rattle.s7_script.specs.Tagged.{line_jobs, script, script_by, tag_script};
ghost use Rattle.s7_script.specs.ScriptShown.{appended};

use crate::scripts::tag_line::{TaggedJob, tagged_of};
use crate::{Script, ScriptFault, ScriptKind, ScriptLine};
use s7_symbol::{Tag, Tags};
use s7_text::first_line;
use std::alloc::Global;

/// The jobs that a script names, or its first wrong line.
///
/// Each line ends with LF; a CR right before the LF is skipped, and the last LF may be missing. Empty lines and lines
/// that begin with `#` are skipped. Every other line names a job, with one space between fields:
///
/// - `read KEY WORD START COUNT` and `write KEY WORD START HEX`: one item;
/// - `readmany` and `writemany`: any number of items in the same form, with ` ; ` between two;
/// - `list`, which counts blocks, `listof KIND`, `info KIND NUMBER`, `upload KIND NUMBER` and `delete KIND NUMBER`: a
///   block's `KIND` is `OB`, `DB`, `SDB`, `FC`, `SFC`, `FB` or `SFB`, its number from 0 to 65,535;
/// - `download HEX`: the image of a block, with its head;
/// - `dbget NUMBER` and `dbfill NUMBER HH`: a data block from 1 to 65,535, and the octet that fills it;
/// - `szl ID INDEX`: a status list, by two numbers of four hexadecimal digits in either case;
/// - `clock`, and `setclock MOMENT`: `MOMENT` is a date and time `YYYY-MM-DDThh:mm:ss.mmm` of the years 1990 to 2089;
/// - `start`, `coldstart`, `stop`, `compress` and `copy`, which control the PLC, and `status`, which asks whether it
///   runs;
/// - `password TEXT`, where `TEXT` is printable ASCII octets without space, or nothing at all, and `clearpassword`.
///
/// `KEY` is `PE`, `PA`, `MK`, `CT`, `TM`, or `DB` and the number of the data block from 1 to 65,535. `WORD` is `bit`,
/// `byte`, `char`, `word`, `int`, `dword`, `dint`, `real`, `counter` or `timer`. `START` is an octet from 0 to
/// 2,097,151; for bits it is an octet, a point and a bit from 0 to 7; in `CT` and `TM` it is a number from 0 to
/// 16,777,215 whatever the word. `COUNT` is the number of elements from 0 to 65,535. Numbers are decimal, with at most
/// ten digits. `HEX` is an even number of hexadecimal digits in either case, at least two, and makes a whole number of
/// elements, at most 65,535.
///
/// The fault is that of the first wrong item in the first wrong line, and of this item's first wrong field from the
/// left; a field that is missing or too many is checked last. `ScriptKind` explains each fault. Returns `Memory` if an
/// allocation fails.
pub fn read_script(alloc: Global, text: &[u8]) -> Result<Script, ScriptFault>
    ensures { GivesScript (λ s. s) result (script text.now) }
{
    read_lines(alloc, None, text)
}

/// The jobs that a script names, if these tags have names, or its first wrong line.
///
/// Its lines are those of `read_script`, and two more:
///
/// - `get NAME`: the value of the tag of this name is read;
/// - `put NAME VALUE`: it is set to `VALUE`, a text of the tag's type.
///
/// The fault is `Word` if no tag has the name, and `Number` if the value isn't one of the tag's type. The other faults
/// are those of `read_script`, found in the same order.
pub fn read_tag_script(alloc: Global, text: &[u8], tags: &Tags) -> Result<Script, ScriptFault>
    ensures { GivesScript (λ s. s) result (tag_script tags.now text.now) }
{
    read_lines(alloc, Some(tags.as_slice()), text)
}

/// The jobs that a script names. `get` and `put` are words of a script only if there are tags.
fn read_lines(alloc: Global, tags: Option<&[Tag]>, text: &[u8]) -> Result<Script, ScriptFault>
    ensures { GivesScript (λ s. s) result (script_by (option_map (λ t. t.now) tags.entry) text.now) }
{
    let mut found = Vec::new(alloc);
    let mut rest = text;
    let mut line: u32 = 1;
    while !rest.is_empty() {
        let (next, after) = first_line(rest);
        take_line(alloc, tags, line, next, &mut found)?;
        line = line.saturating_add(1);
        rest = after;
    }
    Ok(Script::of_vec(found))
}

/// Adds the job of a line, if the line has one.
fn take_line(
    alloc: Global,
    tags: Option<&[Tag]>,
    line: u32,
    text: &[u8],
    found: &mut Vec<ScriptLine>,
) -> Result<(), ScriptFault>
    ensures ok { OnOk result (appended found.old.items
        (line_jobs (option_map (λ t. t.now) tags.entry) line text.now) ≡ Ok found.new.items) }
    ensures err { IfErr result (λ e. LineFails e e.kind
        (line_jobs (option_map (λ t. t.now) tags.entry) line text.now)) }
{
    if text.is_empty() || text[0] == b'#' {
        return Ok(());
    }
    match tagged_of(alloc, tags, text) {
        Ok(TaggedJob { job, tag }) => add_line(found, line, ScriptLine { line, job, tag }),
        Err(kind) => Err(ScriptFault { line, kind }),
    }
}

/// Appends what the line of this number names.
pub(crate) fn add_line<T: Drop>(found: &mut Vec<T>, line: u32, next: T) -> Result<(), ScriptFault>
    ensures ok { OnOk result (found.new.items ≡ found.old.items ++ next ∷ []) }
    ensures memory { IfErr result (λ e. e.kind ≡ Memory) }
{
    if found.push(next).is_err() {
        let kind = ScriptKind::Memory;
        return Err(ScriptFault { line, kind });
    }
    Ok(())
}
