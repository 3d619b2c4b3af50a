//! Compares what the tool left with what a row states.
use crate::book::octets_of;
use crate::compare::{
    block_of, compare_count, compare_line, compare_numbers, compare_octets, compare_printed,
    compare_written, note,
};
use crate::objects::{RowLink, written};
use crate::octets::plain_octets;
use crate::row::Row;
use crate::texts::{add_number, text_of};
use crate::tool::{Left, has_line};
use crate::wrong::Wrong;
use s7_client::{Counter, JobResult};
use s7_rig::RigEnd;
use s7_tool_main::RunEnd;
use std::alloc::Global;

/// Appends the differences of what the tool left. It dialled this number of times.
pub fn compare_left(
    row: &Row<'_>,
    left: &Left,
    dialled: u64,
    differences: &mut String,
) -> Result<(), Wrong> {
    compare_end(row, left, dialled, differences)?;
    compare_done(row, left, differences)?;
    if let Some(rig) = &left.rig {
        compare_rig(row, rig, differences)?;
    }
    match &left.run {
        Some(run) => compare_run(row, run, differences),
        None => Ok(()),
    }
}

/// Compares the printed text with a text, with its beginning or its end, or with its lines in any order.
pub fn compare_text(
    row: &Row<'_>,
    first: u64,
    came: &[u8],
    differences: &mut String,
) -> Result<(), Wrong> {
    compare_printed(row, first, "prints", came, differences)?;
    if row.value(0, "begins").is_some() {
        let length = text_of(row, first, "begins")?.len();
        let front = came.get(..length).unwrap_or(came);
        compare_printed(row, first, "begins", front, differences)?;
    }
    if row.value(0, "ends").is_some() {
        let length = text_of(row, first, "ends")?.len();
        let rest = came
            .get(came.len().saturating_sub(length)..)
            .unwrap_or(came);
        compare_printed(row, first, "ends", rest, differences)?;
    }
    if row.value(0, "mixed").is_some() {
        let text = text_of(row, first, "mixed")?;
        compare_mixed(text.as_str(), came, differences)?;
    }
    Ok(())
}

/// Compares the lines that came with those of a text, in any order.
fn compare_mixed(text: &str, came: &[u8], differences: &mut String) -> Result<(), Wrong> {
    let alloc = *differences.allocator();
    let came = String::from_utf8_lossy(alloc, came)?;
    let wanted = sorted(alloc, text)?;
    let lines = sorted(alloc, came.as_str())?;
    if wanted.as_slice() != lines.as_slice() {
        note("mixed", text, came.as_str(), differences)?;
    }
    Ok(())
}

/// The lines of a text, sorted.
fn sorted(alloc: Global, text: &str) -> Result<Vec<String>, Wrong> {
    let mut lines = Vec::new(alloc);
    for line in text.split('\n') {
        lines.push(String::from_str(alloc, line)?)?;
    }
    lines.sort()?;
    Ok(lines)
}

/// Compares the status with the one that the row states. The dial is called once if it has a link or the dial failed,
/// and otherwise not at all. A script was run exactly if the dial has a link. A rig has as many clients as the row
/// states.
fn compare_end(
    row: &Row<'_>,
    left: &Left,
    dialled: u64,
    differences: &mut String,
) -> Result<(), Wrong> {
    let status = row.number_or(0, "status", 0)?;
    compare_numbers("status", status, u64::from(left.status), differences)?;
    let has_line = has_line(row);
    compare_numbers(
        "dialled",
        u64::from(has_line || status == 4),
        dialled,
        differences,
    )?;
    let runs = u64::from(left.run.is_some());
    compare_numbers("runs", u64::from(has_line), runs, differences)?;
    let clients = row.number_or(0, "clients", 0)?;
    compare_numbers("clients", clients, client_count(&left.rig), differences)
}

/// The number of a rig's clients.
fn client_count(rig: &Option<RigEnd>) -> u64 {
    match rig {
        Some(rig) => rig.clients.len() as u64,
        None => 0,
    }
}

/// Compares the results that the completion was notified of with those that the row states, and their number with that
/// of the run's results, or of the results of a rig's first client.
fn compare_done(row: &Row<'_>, left: &Left, differences: &mut String) -> Result<(), Wrong> {
    let Some(counter) = left.done else {
        return note("completion", "one", "none", differences);
    };
    let results = result_count(left);
    compare_numbers("told of results", results, counter.calls(), differences)?;
    let mut told = String::new(row.alloc);
    add_told(counter, &mut told)?;
    compare_line(row, 0, "told", told.as_str(), differences)
}

/// The number of results of the run, or of a rig's first client.
fn result_count(left: &Left) -> u64 {
    match (&left.run, &left.rig) {
        (Some(run), _) => run.results.len() as u64,
        (None, Some(rig)) => match rig.clients.first() {
            Some(client) => client.results.len() as u64,
            None => 0,
        },
        (None, None) => 0,
    }
}

/// Appends how often a completion was notified, and the last job with its code.
fn add_told(counter: Counter, text: &mut String) -> Result<(), Wrong> {
    add_number(counter.calls(), text)?;
    match counter.last() {
        Some((job, code)) => {
            let job = format!(in *text.allocator(); " {job} {code:08X}")?;
            Ok(text.push_str(job.as_str())?)
        }
        None => Ok(()),
    }
}

/// Compares the beginning of a data block of the rig with the octets that the row states.
fn compare_rig(row: &Row<'_>, rig: &RigEnd, differences: &mut String) -> Result<(), Wrong> {
    let Some(block) = row.value(0, "block") else {
        return Ok(());
    };
    let (number, item) = block_of(block)?;
    let wanted = plain_octets(row.alloc, &row.scope, item)?;
    let octets = octets_of(&rig.book, number);
    let front = octets.get(..wanted.len()).unwrap_or(octets);
    compare_octets("block", wanted.as_slice(), front, differences)
}

/// Compares what was written on the link, and the results.
fn compare_run(
    row: &Row<'_>,
    run: &RunEnd<RowLink>,
    differences: &mut String,
) -> Result<(), Wrong> {
    let written = written(&run.line);
    compare_written(row, 0, written, differences)?;
    compare_count(row, 0, "count", written.len() as u64, differences)?;
    compare_results(row, run.results.as_slice(), differences)
}

/// Compares the number of results, and the messages that they carry.
fn compare_results(
    row: &Row<'_>,
    results: &[JobResult],
    differences: &mut String,
) -> Result<(), Wrong> {
    compare_count(row, 0, "results", results.len() as u64, differences)?;
    let item = row.value(0, "carried").unwrap_or("");
    let wanted = plain_octets(row.alloc, &row.scope, item)?;
    let mut came = Vec::new(row.alloc);
    add_carried(results, &mut came)?;
    compare_octets("carried", wanted.as_slice(), came.as_slice(), differences)
}

/// Appends the messages that the results carry.
fn add_carried(results: &[JobResult], all: &mut Vec<u8>) -> Result<(), Wrong> {
    for told in results {
        all.extend_from_slice(told.carried.as_slice())?;
    }
    Ok(())
}
