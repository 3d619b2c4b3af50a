//! The lines for files that weren't loaded.
ghost use Rattle.std.specs.Prelude.{◌≡◌, IfOk, string_bytes};
ghost use Rattle.s7_tool_main.specs.Loading.{faulty_line};

use crate::load::TextKind;
use std::alloc::{AllocError, Global};

/// The line for a text of this kind whose line of this number is faulty.
pub(crate) fn faulty_line(alloc: Global, kind: TextKind, number: u32) -> Result<String, AllocError>
    ensures { IfOk result (λ text. string_bytes text ≡ faulty_line kind number) }
{
    match kind {
        TextKind::Tags => format!(in alloc; "tags line {number}\n"),
        TextKind::Script => format!(in alloc; "script line {number}\n"),
        TextKind::Areas => format!(in alloc; "areas line {number}\n"),
    }
}
