//! The text that `rig` prints.
ghost use Rattle.std.specs.Prelude.{◌≡◌, ◌+◌, ◌==◌, ◌&&◌, ◌++◌, [], All, IfOk, OnOk};
ghost use Rattle.std.specs.Prelude.{length, map, string_bytes, if◌then◌else◌};
ghost use Rattle.std.specs.List.{list_all};
ghost use Rattle.s7_rig.specs.Shown.{client_told, end_told};
ghost use Rattle.s7_script.specs.Printing.{IsPrintable};
ghost use Rattle.s7_program.specs.Lines.{journal_line};
ghost use Rattle.s7_tool_main.specs.Report.{line_by};
ghost use Rattle.s7_tool_main.specs.RigText.{ArePrintable, client_line, client_text, clients_text, results_text, text_by};
ghost use Rattle.s7_tool_main.specs.RigText.{are_good_by, is_client_good, is_finished, unfinished_line};

use crate::head::Head;
use crate::scripts::jobs::all_good;
use s7_client::JobResult;
use s7_outer::Memory;
use s7_program::journal_line;
use s7_rig::{RigClient, RigEnd};
use std::alloc::{AllocError, Global};

/// The text of a rig whose clients have lines with these heads, and whose watcher has this text. Returns `Memory` if an
/// allocation fails.
pub fn rig_text(
    alloc: Global,
    heads: &[Vec<Head>],
    watched: &[u8],
    end: &RigEnd,
) -> Result<Vec<u8>, Memory>
    requires { All ArePrintable (end_told end.now).clients }
    ensures { IfOk result (λ text. text.items
        ≡ text_by (map (λ v. v.items) heads.now) watched.now (end_told end.now)) }
{
    let mut text = Vec::new(alloc);
    add_clients(alloc, &mut text, heads, end.clients.as_slice())?;
    text.extend_from_slice(watched)?;
    let journal = journal_line(alloc, end.book.journal.len())?;
    text.extend_from_slice(journal.as_bytes())?;
    Ok(text)
}

/// Appends the lines of the clients.
fn add_clients(
    alloc: Global,
    text: &mut Vec<u8>,
    heads: &[Vec<Head>],
    clients: &[RigClient],
) -> Result<(), Memory>
    requires { All ArePrintable (map client_told clients.now) }
    ensures { OnOk result (text.new.items ≡ text.old.items
        ++ clients_text (map (λ v. v.items) heads.now) (map client_told clients.now)) }
{
    for (lines, client) in heads.iter().zip(clients) {
        add_client(alloc, text, lines.as_slice(), client)?;
    }
    Ok(())
}

/// Appends the lines of a client.
fn add_client(
    alloc: Global,
    text: &mut Vec<u8>,
    heads: &[Head],
    client: &RigClient,
) -> Result<(), Memory>
    requires { ArePrintable (client_told client.now) }
    ensures { OnOk result (text.new.items ≡ text.old.items ++ client_text heads.now (client_told client.now)) }
{
    add_results(alloc, text, client.link, heads, client.results.as_slice())?;
    if !is_finished(heads, client) {
        let line = unfinished_line(alloc, client.link)?;
        text.extend_from_slice(line.as_bytes())?;
    }
    Ok(())
}

/// Appends the results of lines.
fn add_results(
    alloc: Global,
    text: &mut Vec<u8>,
    link: u32,
    heads: &[Head],
    results: &[JobResult],
) -> Result<(), Memory>
    requires { All IsPrintable results.now }
    ensures { OnOk result (text.new.items ≡ text.old.items ++ results_text link heads.now results.now) }
{
    for (head, told) in heads.iter().zip(results) {
        add_result(alloc, text, link, *head, told)?;
    }
    Ok(())
}

/// Appends the result of a line.
fn add_result(
    alloc: Global,
    text: &mut Vec<u8>,
    link: u32,
    head: Head,
    told: &JobResult,
) -> Result<(), Memory>
    requires { IsPrintable told.now }
    ensures { OnOk result (text.new.items ≡ text.old.items
        ++ client_line link (line_by head.line head.tag told.now)) }
{
    let client = client_head(alloc, link)?;
    let printed = head.print(alloc, told)?;
    text.extend_from_slice(client.as_bytes())?;
    text.extend_from_slice(printed.as_slice())?;
    Ok(())
}

/// The text before a result of a client.
fn client_head(alloc: Global, link: u32) -> Result<String, AllocError>
    ensures { IfOk result (λ text. string_bytes text ≡ client_line link []) }
{
    format!(in alloc; "client {link} line ")
}

/// The line of a client that isn't finished.
pub(crate) fn unfinished_line(alloc: Global, link: u32) -> Result<String, AllocError>
    ensures { IfOk result (λ text. string_bytes text ≡ unfinished_line link) }
{
    format!(in alloc; "client {link} unfinished\n")
}

/// Whether there are this many clients, and each of the first ones, whose lines have these heads, is finished, with code 0
/// in all results.
pub fn are_good(heads: &[Vec<Head>], count: usize, clients: &[RigClient]) -> bool
    ensures { result ≡ are_good_by (map (λ v. v.items) heads.now) count (map client_told clients.now) }
{
    clients.len() == count
        && heads
            .iter()
            .zip(clients)
            .all(|(lines, client)| is_client_good(lines.as_slice(), client))
}

/// Whether a client is finished, with code 0 in all results.
fn is_client_good(heads: &[Head], client: &RigClient) -> bool
    ensures { result ≡ is_client_good heads.now (client_told client.now) }
{
    is_finished(heads, client) && all_good(client.results.as_slice())
}

/// Whether a client did its connect, its lines and its disconnect.
fn is_finished(heads: &[Head], client: &RigClient) -> bool
    ensures { result ≡ is_finished heads.now (client_told client.now) }
{
    client.results.len() == heads.len() + 1
}
