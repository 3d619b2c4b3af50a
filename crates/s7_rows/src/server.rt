//! A row that runs the server.
ghost use Rattle.std.specs.Prelude.{IfOk};
ghost use Rattle.std.specs.List.{AllByRecursion};
ghost use Rattle.s7_plant.specs.Observers.{IsFresh};

use crate::book::{compare_asked, compare_book, entries};
use crate::compare::{compare_count, compare_numbers, compare_printed, compare_written, note};
use crate::objects::{
    RowLink, compare_files, door_of, files_of, link_of, out_of, printed, written,
};
use crate::parts::number;
use crate::row::Row;
use crate::texts::{lent, words_of};
use crate::way::{Way, ways_of};
use crate::wrong::Wrong;
use s7_listener::Served;
use s7_memory::{HoldGate, MemoryDoor, MemoryFiles, MemoryOut};
use s7_plant::Tail;
use s7_server_main::{Run, ServerEnd, server_main};
use std::alloc::Global;
use std::sync::Wait;
use std::thread::Threads;
use std::time::Clock;

/// How often a link that is held looks for the other one.
const LOOKS: u64 = 1_000_000_000;

/// What the server leaves.
type Left = ServerEnd<RowLink, Tail>;

/// What a server is given besides its words, its link and its observer.
#[derive(Drop)]
struct Outside {
    files: MemoryFiles,
    door: MemoryDoor<RowLink>,
    gate: HoldGate,
    out: MemoryOut,
}

/// Runs a row in each of its ways, and appends the differences.
pub fn play<R: Threads + Wait + Clock + Sync>(
    rt: &R,
    row: &Row<'_>,
    differences: &mut String,
) -> Result<(), Wrong> {
    for way in ways_of(row)?.iter() {
        play_way(rt, row, way, differences)?;
    }
    Ok(())
}

/// Runs a row in one way, and appends the differences.
fn play_way<R: Threads + Wait + Clock + Sync>(
    rt: &R,
    row: &Row<'_>,
    way: &Way,
    differences: &mut String,
) -> Result<(), Wrong> {
    let mut outside = outside_of(row, way)?;
    play_in(rt, row, way, &mut outside, differences)
}

/// Runs a row in one way.
fn play_in<R: Threads + Wait + Clock + Sync>(
    rt: &R,
    row: &Row<'_>,
    way: &Way,
    outside: &mut Outside,
    differences: &mut String,
) -> Result<(), Wrong> {
    let owned = words_of(row, way.first)?;
    let words = lent(row.alloc, owned.as_slice())?;
    play_words(rt, row, way, words.as_slice(), outside, differences)?;
    compare_outside(row, way.first, outside, differences)
}

/// Runs the server with these words.
fn play_words<R: Threads + Wait + Clock + Sync>(
    rt: &R,
    row: &Row<'_>,
    way: &Way,
    words: &[&str],
    outside: &mut Outside,
    differences: &mut String,
) -> Result<(), Wrong> {
    let observers = observers_of(row)?;
    let pipe = link_of(row, way, 0)?;
    let left = serve(rt, row.alloc, words, pipe, outside, observers);
    compare_left(row, &left, differences)
}

/// What the server is given in one way.
fn outside_of(row: &Row<'_>, way: &Way) -> Result<Outside, Wrong> {
    let gate = gate_of(row)?;
    let out = out_of(row)?;
    let files = files_of(row, way.first)?;
    let door = door_of(row, way)?;
    Ok(Outside {
        files,
        door,
        gate,
        out,
    })
}

/// The row's gate, which holds one link until another one has sent two requests.
fn gate_of(row: &Row<'_>) -> Result<HoldGate, Wrong> {
    let Some(text) = row.value(0, "hold") else {
        return Ok(HoldGate::new(0, 0, 0));
    };
    match text.split_once(" until ") {
        Some((held, until)) => Ok(HoldGate::new(link_number(held)?, link_number(until)?, LOOKS)),
        None => Err(Wrong::Hold),
    }
}

/// The number of a link.
fn link_number(text: &str) -> Result<u32, Wrong> {
    Ok(number(text)?.min(0xFFFF_FFFF) as u32)
}

/// The row's observer, which counts the codes of a mask and keeps its newest event; none if the row has no mask.
fn observers_of(row: &Row<'_>) -> Result<Vec<Tail>, Wrong>
    ensures { IfOk result (λ tails. AllByRecursion (λ o. IsFresh o) tails.items) }
{
    match row.value(0, "observer") {
        Some(mask) => one_observer(row.alloc, mask),
        None => Ok(Vec::new(row.alloc)),
    }
}

/// An observer with this mask.
fn one_observer(alloc: Global, mask: &str) -> Result<Vec<Tail>, Wrong>
    ensures { IfOk result (λ tails. AllByRecursion (λ o. IsFresh o) tails.items) }
{
    let Ok(mask) = u32::from_str_radix(mask, 16) else {
        return Err(Wrong::Number);
    };
    let tail = Tail::new(alloc, mask, 1)?;
    let mut tails = Vec::new(alloc);
    tails.push(tail)?;
    Ok(tails)
}

/// Calls the server.
fn serve<R: Threads + Wait + Clock + Sync>(
    rt: &R,
    alloc: Global,
    words: &[&str],
    pipe: RowLink,
    outside: &mut Outside,
    observers: Vec<Tail>,
) -> Left
    requires { AllByRecursion (λ o. IsFresh o) observers.items }
{
    server_main(
        rt,
        alloc,
        words,
        &mut outside.files,
        pipe,
        &mut outside.door,
        &outside.gate,
        &mut outside.out,
        observers,
    )
}

/// Compares what was printed and the files with what the row states, and checks that the gate didn't give up.
fn compare_outside(
    row: &Row<'_>,
    first: u64,
    outside: &Outside,
    differences: &mut String,
) -> Result<(), Wrong> {
    compare_printed(row, first, "report", printed(&outside.out), differences)?;
    compare_files(row, first, &outside.files, differences)?;
    if outside.gate.gave_up() {
        note("hold", "the other link", "none", differences)?;
    }
    Ok(())
}

/// Compares what the server left with what the row states.
fn compare_left(row: &Row<'_>, left: &Left, differences: &mut String) -> Result<(), Wrong> {
    let status = row.number_or(0, "status", 0)?;
    compare_numbers("status", status, u64::from(left.status), differences)?;
    match &left.run {
        Some(run) => compare_run(row, run, differences),
        None => Ok(()),
    }
}

/// Compares a run with what the row states.
fn compare_run(
    row: &Row<'_>,
    run: &Run<RowLink, Tail>,
    differences: &mut String,
) -> Result<(), Wrong> {
    let entries = entries(&run.book);
    let of_door = row.links()? != 0;
    for served in run.links.iter() {
        let place = if of_door { u64::from(served.link) } else { 0 };
        compare_link(row, place, served, differences)?;
        compare_asked(row, place, served.link, entries, differences)?;
    }
    compare_book(row, &run.book, differences)
}

/// Compares what was written on a link, and the number of its newest entry, with what the row states.
fn compare_link(
    row: &Row<'_>,
    place: u64,
    served: &Served<RowLink>,
    differences: &mut String,
) -> Result<(), Wrong> {
    compare_count(
        row,
        place,
        "last",
        served.last.unwrap_or(u64::MAX),
        differences,
    )?;
    compare_written(row, place, written(&served.line), differences)
}
