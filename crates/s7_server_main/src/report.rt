//! The text of the report.
ghost use Rattle.std.specs.Prelude.{◌≡◌, ◌≤◌, ◌++◌, Some, IfOk, OnOk, length, string_bytes};
ghost use Rattle.std.specs.List.{flat_map};
ghost use Rattle.s7_plant.specs.Books.{book_told};
ghost use Rattle.s7_plant.specs.Journals.{at};
ghost use Rattle.s7_plant.specs.State.{state_of};
ghost use Rattle.s7_listener.specs.Served.{told_of};
ghost use Rattle.s7_server_main.specs.Report.{entry_text, line_of, refusal_line, report_text};
ghost use Rattle.s7_server_main.specs.Told.{all_told, run_told};

use crate::run::Run;
use s7_listener::Served;
use s7_outer::{Link, Memory};
use s7_plant::{Book, Observer, Plant, Steps};
use s7_program::{journal_line, line_with, outcome_text};
use s7_script::{LoadFault, write_areas};
use std::alloc::{AllocError, Global};
use std::marker::Brand;
use std::sync::ledger::{Blank, Ledger};

/// The report of a run: a line for each link that was served, one for the journal, and one more if the door failed.
/// Then, if they are asked for, the areas after the first `at` entries.
pub fn report<L: Link + Drop, O: Observer>(
    alloc: Global,
    run: &Run<L, O>,
    at: Option<u64>,
) -> Result<Vec<u8>, Memory>
    ensures { IfOk result (λ text. text.items ≡ report_text (run_told L.shows run.now) at) }
{
    let mut text = Vec::new(alloc);
    add_links(alloc, &mut text, run.links.as_slice())?;
    let journal = journal_line(alloc, run.book.journal.len())?;
    text.extend_from_slice(journal.as_bytes())?;
    if run.door_failed {
        text.extend_from_slice(b"door\n")?;
    }
    if let Some(n) = at {
        add_areas(alloc, &mut text, &run.book, n)?;
    }
    Ok(text)
}

/// Appends the areas after the first `n` entries, or a line that says that there are fewer entries.
fn add_areas<O: Observer>(
    alloc: Global,
    text: &mut Vec<u8>,
    book: &Book<O>,
    n: u64,
) -> Result<(), Memory>
    ensures { OnOk result (text.new.items ≡ text.old.items ++ entry_text (book_told book.now) (Some n)) }
{
    if n > book.journal.len() {
        let line = format!(in alloc; "at {n} none\n")?;
        text.extend_from_slice(line.as_bytes())?;
        return Ok(());
    }
    let line = format!(in alloc; "at {n}\n")?;
    text.extend_from_slice(line.as_bytes())?;
    let plant = plant_at::<O, Brand>(alloc, book, n, Blank::new(1))?;
    let areas = write_areas(alloc, &plant.areas)?;
    text.extend_from_slice(areas.as_slice())?;
    Ok(())
}

/// The plant after the first `n` entries.
fn plant_at<O: Observer, S: Ledger>(
    alloc: Global,
    book: &Book<O>,
    n: u64,
    blank: Blank,
) -> Result<Plant, Memory>
    requires name { blank.name ≡ S.name }
    requires parts { blank.parts ≡ S.parts }
    requires one { blank.parts ≡ 1 }
    requires within { n ≤ length book.now.journal.entries }
    ensures { IfOk result (λ plant.
        state_of plant ≡ at (state_of book.now.opening) book.now.journal.entries n) }
{
    let mut steps = Steps::<S>::new(blank);
    book.image_at(alloc, n, &mut steps)
}

/// Appends a line for each link.
fn add_links<L: Link + Drop>(
    alloc: Global,
    text: &mut Vec<u8>,
    links: &[Served<L>],
) -> Result<(), AllocError>
    ensures { OnOk result (text.new.items ≡ text.old.items ++ flat_map line_of (all_told L.shows links.now)) }
{
    for served in links {
        let line = link_line(alloc, served)?;
        text.extend_from_slice(line.as_bytes())?;
    }
    Ok(())
}

/// The line of a link.
fn link_line<L: Link + Drop>(alloc: Global, served: &Served<L>) -> Result<String, AllocError>
    ensures { IfOk result (λ line. string_bytes line ≡ line_of (told_of L.shows served.now)) }
{
    let outcome = outcome_text(alloc, served.outcome)?;
    line_with(alloc, served.link, outcome.as_str(), served.entries)
}

/// The line for an area file whose line of this number is faulty.
pub fn areas_line(alloc: Global, number: u32) -> Result<String, AllocError>
    ensures { IfOk result (λ text. refusal_line (LoadFault.Line number) ≡ Some (string_bytes text)) }
{
    format!(in alloc; "areas line {number}\n")
}
