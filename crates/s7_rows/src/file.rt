//! A file of rows.
use crate::octets::{Scope, add_named};
use crate::parts::cut;
use crate::wrong::Wrong;
use std::alloc::Global;

/// Octets with a name.
#[derive(Drop)]
pub struct Name<'a> {
    pub name: &'a str,
    pub octets: Vec<u8>,
}

/// The lines of a file, each after a newline. Comments and empty lines are left out. A line that begins with a blank is
/// joined to the line before it.
pub fn joined(alloc: Global, text: &str) -> Result<String, Wrong> {
    let mut lines = String::new(alloc);
    for line in text.split('\n') {
        if !line.is_empty() && !line.starts_with('#') {
            add_line(line, &mut lines)?;
        }
    }
    Ok(lines)
}

/// Appends a line.
fn add_line(line: &str, lines: &mut String) -> Result<(), Wrong> {
    lines.push(if line.starts_with(' ') { ' ' } else { '\n' })?;
    lines.push_str(line.trim())?;
    Ok(())
}

/// The named octets of a file, in the order of its lines `let`.
pub fn names_of(alloc: Global, lines: &str) -> Result<Vec<Name<'_>>, Wrong> {
    let mut names = Vec::new(alloc);
    for line in lines.split('\n') {
        if let Some(value) = line.strip_prefix("let ") {
            let (name, items) = cut(value);
            let octets = named_octets(alloc, names.as_slice(), items)?;
            names.push(Name { name, octets })?;
        }
    }
    Ok(names)
}

/// The octets of items, which may use the names so far.
fn named_octets(alloc: Global, names: &[Name<'_>], items: &str) -> Result<Vec<u8>, Wrong> {
    let mut octets = Vec::new(alloc);
    let scope = Scope {
        names,
        with: "",
        jobs: 1,
    };
    add_named(&scope, items, &mut octets)?;
    Ok(octets)
}
