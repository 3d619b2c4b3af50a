//! Tests of the first wrong line of a text, and of its fault.
use crate::rows::all_forms_hold;
use crate::tag_scripts::{self, TAGS, lines_of, tags_of};
use crate::{areas, scripts, sends};
use s7_script::{
    AreasFault, AreasKind, ScriptFault, ScriptKind, read_areas, read_script, read_sends,
};
use std::alloc::Global;

/// The fault of a line of an area file, a script, a script with tags, or a sends file.
#[derive(Clone, Copy)]
pub(crate) enum Wrong {
    Areas(AreasKind),
    Script(ScriptKind),
    TagScript(ScriptKind),
    Sends(ScriptKind),
}

/// The number of a line, its fault, and texts whose first wrong line it is, with a bar between them.
pub(crate) type Row = (u32, Wrong, &'static str);

/// The fault of an area file. The functions of faults promise nothing, so that their callers are cheap to prove.
fn areas_fault(alloc: Global, text: &str) -> Option<AreasFault> {
    read_areas(alloc, text.as_bytes()).err()
}

/// The fault of a script.
fn script_fault(alloc: Global, text: &str) -> Option<ScriptFault> {
    read_script(alloc, text.as_bytes()).err()
}

/// The fault of a sends file.
fn sends_fault(alloc: Global, text: &str) -> Option<ScriptFault> {
    read_sends(alloc, text.as_bytes()).err()
}

/// The number of the wrong line of a script with tags, and its fault.
fn tag_script_fault(alloc: Global, text: &str) -> Option<(u32, ScriptKind)> {
    lines_of(alloc, &tags_of(alloc, TAGS)?, text).err()
}

/// Reports whether this is the first wrong line of an area file, and its fault.
fn areas_are(fault: &Option<AreasFault>, line: u32, kind: AreasKind) -> bool {
    match fault {
        Some(fault) => fault.line == line && fault.kind == kind,
        None => false,
    }
}

/// Reports whether this is the first wrong line of a script or a sends file, and its fault.
fn script_is(fault: &Option<ScriptFault>, line: u32, kind: ScriptKind) -> bool {
    match fault {
        Some(fault) => fault.line == line && fault.kind == kind,
        None => false,
    }
}

/// Reports whether this is the first wrong line of a script with tags, and its fault.
fn tag_script_is(fault: &Option<(u32, ScriptKind)>, line: u32, kind: ScriptKind) -> bool {
    match fault {
        Some((found, fault)) => *found == line && *fault == kind,
        None => false,
    }
}

/// Reports whether this is the first wrong line of a text, and its fault.
fn is_wrong(alloc: Global, text: &str, line: u32, wrong: Wrong) -> bool {
    match wrong {
        Wrong::Areas(kind) => areas_are(&areas_fault(alloc, text), line, kind),
        Wrong::Script(kind) => script_is(&script_fault(alloc, text), line, kind),
        Wrong::TagScript(kind) => tag_script_is(&tag_script_fault(alloc, text), line, kind),
        Wrong::Sends(kind) => script_is(&sends_fault(alloc, text), line, kind),
    }
}

/// The first text of a row that has another first wrong line or another fault.
fn unmet(alloc: Global, row: &Row) -> Option<&'static str> {
    let (line, wrong, texts) = *row;
    for text in texts.split('|') {
        if !is_wrong(alloc, text, line, wrong) {
            return Some(text);
        }
    }
    None
}

/// The first such text of a table, and the number of its row.
fn unmet_of(alloc: Global, rows: &[Row]) -> Option<(&'static str, usize)> {
    for (number, row) in rows.iter().enumerate() {
        if let Some(text) = unmet(alloc, row) {
            return Some((text, number));
        }
    }
    None
}

/// The tables: wrong area files, scripts, scripts with tags, and sends files.
const TABLES: &[&[Row]] = &[
    areas::WRONG_LINES,
    scripts::WRONG_LINES,
    tag_scripts::WRONG_LINES,
    sends::WRONG_LINES,
];

/// The first such text of all tables, and the number of its row in its table.
fn unmet_of_any(alloc: Global) -> Option<(&'static str, usize)> {
    for rows in TABLES {
        let unmet = unmet_of(alloc, rows);
        if unmet.is_some() {
            return unmet;
        }
    }
    None
}

/// The first wrong lines of texts are found, with their faults.
#[test]
fn first_wrong_line(rt: HostRuntime) {
    all_forms_hold(&rt, unmet_of_any(rt.alloc()));
}
