//! Runs the rows of files through `server_main` and `tool_main` over objects in memory, and prints how the results
//! differ from what the rows state. `docs/ROWS.md` describes the language of the rows.
#![tactic(auto)]

mod book;
mod compare;
mod file;
mod objects;
mod octets;
mod parts;
mod row;
mod server;
mod texts;
mod tool;
mod tool_compare;
mod tool_dial;
mod way;
mod wrong;

use file::{Name, joined, names_of};
use octets::Scope;
use row::Row;
use std::alloc::Global;
use std::process::ExitCode;
use std::rt::{Env, Files};
use std::sync::Wait;
use std::thread::Threads;
use std::time::Clock;
use std::{env, fs};
use wrong::Wrong;

/// How many rows were run, and how many of them differ from what they state.
#[derive(Clone, Copy)]
struct Tally {
    rows: u64,
    differing: u64,
}

/// A file of rows: its path, the names of octets in it, and whether its rows run the tool.
#[derive(Clone, Copy)]
struct RowFile<'a> {
    alloc: Global,
    path: &'a str,
    names: &'a [Name<'a>],
    is_tool: bool,
}

/// Runs all files. Exits with 0 if every row holds, with 1 if one differs, and with 2 if rows can't be run.
fn main(rt: HostRuntime) -> ExitCode {
    let mut tally = Tally {
        rows: 0,
        differing: 0,
    };
    match run(&rt, &mut tally) {
        Ok(()) => report(&rt, tally),
        Err(wrong) => {
            let _ = rt.println(format_args!("{}", wrong.text()));
            ExitCode::from(2)
        }
    }
}

/// Prints how many rows hold and how many differ.
fn report<R: Print>(rt: &R, tally: Tally) -> ExitCode {
    let Tally { rows, differing } = tally;
    let printed = if differing == 0 {
        rt.println(format_args!("{rows} rows hold"))
    } else {
        rt.println(format_args!("{differing} of {rows} rows differ"))
    };
    if printed.is_ok() && differing == 0 {
        ExitCode::from(0)
    } else {
        ExitCode::from(1)
    }
}

/// Runs the rows of each file that the command line names.
fn run<R: Print + Files + Env + AllocGlobal + Threads + Wait + Clock + Sync>(
    rt: &R,
    tally: &mut Tally,
) -> Result<(), Wrong> {
    let Ok(paths) = env::args(rt) else {
        return Err(Wrong::File);
    };
    for path in paths.skip(1) {
        run_file(rt, path.as_str(), tally)?;
    }
    Ok(())
}

/// Runs the rows of one file.
fn run_file<R: Print + Files + AllocGlobal + Threads + Wait + Clock + Sync>(
    rt: &R,
    path: &str,
    tally: &mut Tally,
) -> Result<(), Wrong> {
    let Ok(text) = fs::read_to_string(rt, path) else {
        return unread(rt, path, Wrong::File);
    };
    match run_text(rt, rt.alloc(), path, text.as_str(), tally) {
        Ok(()) => Ok(()),
        Err(wrong) => unread(rt, path, wrong),
    }
}

/// Prints which file or which row can't be run, and why.
fn unread<R: Print>(rt: &R, what: &str, wrong: Wrong) -> Result<(), Wrong> {
    let _ = rt.println(format_args!("can't be run: {what}"));
    Err(wrong)
}

/// Runs the rows of a file's text.
fn run_text<R: Print + Threads + Wait + Clock + Sync>(
    rt: &R,
    alloc: Global,
    path: &str,
    text: &str,
    tally: &mut Tally,
) -> Result<(), Wrong> {
    let lines = joined(alloc, text)?;
    let names = names_of(alloc, lines.as_str())?;
    let file = RowFile {
        alloc,
        path,
        names: names.as_slice(),
        is_tool: lines.contains("\nprogram s7tool"),
    };
    for table in lines.split("\ntable") {
        run_table(rt, &file, table, tally)?;
    }
    Ok(())
}

/// Runs the rows of a table, which follow the lines that they share.
fn run_table<'a, R: Print + Threads + Wait + Clock + Sync>(
    rt: &R,
    file: &RowFile<'a>,
    table: &'a str,
    tally: &mut Tally,
) -> Result<(), Wrong> {
    let Some((shared, rows)) = table.split_once("\nrow") else {
        return Ok(());
    };
    for own in rows.split("\nrow") {
        let row = row_of(file, shared, own);
        run_row(rt, file, &row, tally)?;
    }
    Ok(())
}

/// A row with its own lines and those of its table.
fn row_of<'a>(file: &RowFile<'a>, table: &'a str, own: &'a str) -> Row<'a> {
    let (title, _) = own.split_once('\n').unwrap_or((own, ""));
    let scope = Scope {
        names: file.names,
        with: "",
        jobs: 1,
    };
    Row {
        alloc: file.alloc,
        scope,
        table,
        own,
        title: title.trim(),
    }
}

/// Runs one row, and prints the differences.
fn run_row<R: Print + Threads + Wait + Clock + Sync>(
    rt: &R,
    file: &RowFile<'_>,
    row: &Row<'_>,
    tally: &mut Tally,
) -> Result<(), Wrong> {
    let (path, title) = (file.path, row.title);
    let mut differences = String::new(row.alloc);
    tally.rows = tally.rows.saturating_add(1);
    if let Err(wrong) = play(rt, file.is_tool, row, &mut differences) {
        return unread(rt, title, wrong);
    }
    if !differences.is_empty() {
        tally.differing = tally.differing.saturating_add(1);
        let _ = rt.println(format_args!("{path}: {title}\n{differences}"));
    }
    Ok(())
}

/// Runs one row with the program that its file names, and appends the differences.
fn play<R: Threads + Wait + Clock + Sync>(
    rt: &R,
    is_tool: bool,
    row: &Row<'_>,
    differences: &mut String,
) -> Result<(), Wrong> {
    if is_tool {
        return tool::play(row, differences);
    }
    server::play(rt, row, differences)
}
