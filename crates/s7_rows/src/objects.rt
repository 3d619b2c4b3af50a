//! The links, the door, the files and the output of a row.
use crate::compare::{compare_texts, note};
use crate::octets::add_items;
use crate::parts::cut;
use crate::row::Row;
use crate::texts::path_text;
use crate::way::{Way, fates_of};
use crate::wrong::Wrong;
use s7_memory::{FailingLink, Fate, MemoryDoor, MemoryFiles, MemoryLink, MemoryOut};
use s7_outer::Octets;
use std::alloc::Global;

/// A link of a row.
pub type RowLink = FailingLink<MemoryLink>;

/// The default room of a link and of the output, in octets.
const ROOM: u64 = 65_536;

/// The moment of each link's clock, in milliseconds since 1970: 2024-02-29, a Thursday, at 13:45:30.123.
const MOMENT: u64 = 1_709_214_330_123;

/// The properties of a link: what comes on it, how many octets a call moves, its room, the moment of its clock, and the
/// fates of its calls.
#[derive(Drop)]
struct Wire {
    input: Vec<u8>,
    most: u64,
    room: u64,
    moment: u64,
    fates: Vec<Fate>,
}

/// The link of this number.
pub fn link_of(row: &Row<'_>, way: &Way, link: u64) -> Result<RowLink, Wrong> {
    let wire = Wire {
        input: input_of(row, way, link)?,
        most: way.most,
        room: row.number_or(link, "space", ROOM)?,
        moment: row.number_or(link, "moment", MOMENT)?,
        fates: fates_of(row, way, link)?,
    };
    wired(row.alloc, wire)
}

/// The octets that come on a link, as many as the way gives.
fn input_of(row: &Row<'_>, way: &Way, link: u64) -> Result<Vec<u8>, Wrong> {
    let mut input = Vec::new(row.alloc);
    if let Some(items) = row.value(link, "in") {
        add_items(&row.scope, items, &mut input)?;
    }
    input.truncate(way.first as usize);
    Ok(input)
}

/// A link with these properties.
fn wired(alloc: Global, wire: Wire) -> Result<RowLink, Wrong> {
    let (most, room) = (wire.most.max(1) as usize, wire.room as usize);
    let inner = MemoryLink::new(alloc, Octets::of_vec(wire.input), most, room, wire.moment)?;
    Ok(FailingLink::new(inner, wire.fates))
}

/// What was written on a link.
pub fn written(link: &RowLink) -> &[u8] {
    link.inner().written()
}

/// The door with the row's links.
pub fn door_of(row: &Row<'_>, way: &Way) -> Result<MemoryDoor<RowLink>, Wrong> {
    let links = links_of(row, way)?;
    let fail_at = row.number_or(0, "door", u64::MAX)?;
    Ok(MemoryDoor::new(links, Some(fail_at as usize)))
}

/// The row's links.
fn links_of(row: &Row<'_>, way: &Way) -> Result<Vec<RowLink>, Wrong> {
    let mut links = Vec::new(row.alloc);
    for before in 0..row.links()? {
        links.push(link_of(row, way, before.saturating_add(1))?)?;
    }
    Ok(links)
}

/// The row's files.
pub fn files_of(row: &Row<'_>, first: u64) -> Result<MemoryFiles, Wrong> {
    let mut files = MemoryFiles::new();
    add_texts(row, first, &mut files)?;
    add_octets(row, &mut files)?;
    files.fail_at(row.number_or(0, "fails", u64::MAX)?);
    Ok(files)
}

/// Adds the files whose texts the row states.
fn add_texts(row: &Row<'_>, first: u64, files: &mut MemoryFiles) -> Result<(), Wrong> {
    for k in 0..u64::MAX {
        let Some(value) = row.nth(0, "file", k) else {
            break;
        };
        add_text(row, first, value, files)?;
    }
    Ok(())
}

/// Adds a file with a text.
fn add_text(row: &Row<'_>, first: u64, value: &str, files: &mut MemoryFiles) -> Result<(), Wrong> {
    let (path, _) = cut(value);
    let text = path_text(row, first, "file", path)?;
    insert(row.alloc, path, text.as_bytes(), files)
}

/// Adds the files whose octets the row states.
fn add_octets(row: &Row<'_>, files: &mut MemoryFiles) -> Result<(), Wrong> {
    for k in 0..u64::MAX {
        let Some(value) = row.nth(0, "octets", k) else {
            break;
        };
        add_file(row, value, files)?;
    }
    Ok(())
}

/// Adds a file with octets.
fn add_file(row: &Row<'_>, value: &str, files: &mut MemoryFiles) -> Result<(), Wrong> {
    let (path, items) = cut(value);
    let mut octets = Vec::new(row.alloc);
    add_items(&row.scope, items, &mut octets)?;
    insert(row.alloc, path, octets.as_slice(), files)
}

/// Adds a file under a path.
fn insert(alloc: Global, path: &str, octets: &[u8], files: &mut MemoryFiles) -> Result<(), Wrong> {
    let octets = Octets::copy_of(alloc, octets)?;
    Ok(files.insert(alloc, meant(path), octets)?)
}

/// The path that a row writes; an empty path is written as two quotes.
fn meant(path: &str) -> &str {
    if path == "\"\"" { "" } else { path }
}

/// The octets of the file under a path, `None` if there is none.
fn file<'a>(files: &'a MemoryFiles, path: &str) -> Option<&'a [u8]> {
    files.get(meant(path))
}

/// Appends the differences of the files that are left from what the row states.
pub fn compare_files(
    row: &Row<'_>,
    first: u64,
    files: &MemoryFiles,
    differences: &mut String,
) -> Result<(), Wrong> {
    for k in 0..u64::MAX {
        let Some(value) = row.nth(0, "left", k) else {
            break;
        };
        compare_file(row, first, value, files, differences)?;
    }
    compare_absent(row, files, differences)
}

/// Appends a difference of one file.
fn compare_file(
    row: &Row<'_>,
    first: u64,
    value: &str,
    files: &MemoryFiles,
    differences: &mut String,
) -> Result<(), Wrong> {
    let (path, _) = cut(value);
    let wanted = path_text(row, first, "left", path)?;
    let came = file(files, path).unwrap_or(b"");
    compare_texts(value, wanted.as_str(), came, differences)
}

/// Appends a difference if a file exists that shouldn't.
fn compare_absent(
    row: &Row<'_>,
    files: &MemoryFiles,
    differences: &mut String,
) -> Result<(), Wrong> {
    for k in 0..u64::MAX {
        let Some(path) = row.nth(0, "absent", k) else {
            break;
        };
        if file(files, path).is_some() {
            note("absent", "no file", path, differences)?;
        }
    }
    Ok(())
}

/// The row's output.
pub fn out_of(row: &Row<'_>) -> Result<MemoryOut, Wrong> {
    let room = row.number_or(0, "room", ROOM)?;
    Ok(MemoryOut::new(row.alloc, room as usize)?)
}

/// What was printed.
pub fn printed(out: &MemoryOut) -> &[u8] {
    out.text()
}
