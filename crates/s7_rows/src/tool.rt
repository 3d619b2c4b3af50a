//! A row that runs the tool.
use crate::objects::{RowLink, files_of, link_of, out_of, printed};
use crate::octets::Scope;
use crate::parts::number;
use crate::row::Row;
use crate::texts::{lent, words_of};
use crate::tool_compare::{compare_left, compare_text};
use crate::tool_dial::CountedDial;
use crate::way::{Way, ways_of};
use crate::wrong::Wrong;
use s7_client::Counter;
use s7_memory::{MemoryDial, MemoryFiles, MemoryOut};
use s7_tool_main::{ToolEnd, tool_main};
use std::alloc::Global;

/// What the tool leaves.
pub type Left = ToolEnd<RowLink, Counter>;

/// What the tool is given besides its words.
#[derive(Drop)]
struct Outside {
    files: MemoryFiles,
    dial: CountedDial<MemoryDial<RowLink>>,
    out: MemoryOut,
}

/// Runs a row with each of its numbers of jobs and in each of its ways, and appends the differences.
pub fn play(row: &Row<'_>, differences: &mut String) -> Result<(), Wrong> {
    let with = row.value(0, "with").unwrap_or("");
    for jobs in row.value(0, "jobs").unwrap_or("").split(' ') {
        let scope = Scope {
            with,
            jobs: count_of(jobs)?,
            ..row.scope
        };
        play_ways(&Row { scope, ..*row }, jobs, differences)?;
    }
    Ok(())
}

/// How many jobs may be under way; one if nothing is stated.
fn count_of(jobs: &str) -> Result<u8, Wrong> {
    if jobs.is_empty() {
        return Ok(1);
    }
    Ok(number(jobs)?.min(255) as u8)
}

/// Runs a row in each of its ways, all of which must print the same.
fn play_ways(row: &Row<'_>, jobs: &str, differences: &mut String) -> Result<(), Wrong> {
    let mut first: Option<Vec<u8>> = None;
    for way in ways_of(row)?.iter() {
        let text = play_way(row, jobs, way, differences)?;
        if let Some(first) = &first {
            compare_ways(first.as_slice(), text.as_slice(), differences)?;
        }
        first = Some(text);
    }
    Ok(())
}

/// Appends a difference of what two ways printed.
fn compare_ways(first: &[u8], text: &[u8], differences: &mut String) -> Result<(), Wrong> {
    if first != text {
        differences.push_str("  prints another text in another way\n")?;
    }
    Ok(())
}

/// Runs a row in one way, and returns what was printed.
fn play_way(
    row: &Row<'_>,
    jobs: &str,
    way: &Way,
    differences: &mut String,
) -> Result<Vec<u8>, Wrong> {
    let mut outside = outside_of(row, way)?;
    play_in(row, jobs, way, &mut outside, differences)
}

/// Runs a row in one way.
fn play_in(
    row: &Row<'_>,
    jobs: &str,
    way: &Way,
    outside: &mut Outside,
    differences: &mut String,
) -> Result<Vec<u8>, Wrong> {
    let owned = words_of(row, way.first)?;
    let mut words = lent(row.alloc, owned.as_slice())?;
    if !jobs.is_empty() {
        words.extend_from_slice(&["--jobs", jobs])?;
    }
    play_words(row, words.as_slice(), outside, differences)?;
    compare_text(row, way.first, printed(&outside.out), differences)?;
    Ok(Vec::from_slice(row.alloc, printed(&outside.out))?)
}

/// Runs the tool with these words.
fn play_words(
    row: &Row<'_>,
    words: &[&str],
    outside: &mut Outside,
    differences: &mut String,
) -> Result<(), Wrong> {
    let left = called(row.alloc, words, outside);
    compare_left(row, &left, outside.dial.calls(), differences)
}

/// What the tool is given in one way.
fn outside_of(row: &Row<'_>, way: &Way) -> Result<Outside, Wrong> {
    let out = out_of(row)?;
    let files = files_of(row, way.first)?;
    let dial = CountedDial::new(MemoryDial::new(line_of(row, way)?));
    Ok(Outside { files, dial, out })
}

/// The link that the dial gives; none if the row states nothing that comes, or states `nobody`.
fn line_of(row: &Row<'_>, way: &Way) -> Result<Option<RowLink>, Wrong> {
    if has_line(row) {
        Ok(Some(link_of(row, way, 0)?))
    } else {
        Ok(None)
    }
}

/// Whether the dial has a link.
pub fn has_line(row: &Row<'_>) -> bool {
    row.value(0, "in").is_some() && row.value(0, "nobody").is_none()
}

/// Calls the tool.
fn called(alloc: Global, words: &[&str], outside: &mut Outside) -> Left {
    tool_main(
        alloc,
        words,
        &mut outside.files,
        &mut outside.dial,
        &mut outside.out,
        Some(Counter::new()),
    )
}
