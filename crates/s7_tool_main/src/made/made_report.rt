//! The text that `gen` prints.
ghost use Rattle.std.specs.Prelude.{◌≡◌, ◌≤◌, ◌<◌, ◌*◌, ◌^◌, ◌++◌, ◌==◌, ◌∷◌, [], IfOk, OnOk, length, map, sum};
ghost use Rattle.std.specs.Prelude.{string_bytes};
ghost use Rattle.std.specs.List.{flat_map, list_all};
ghost use Rattle.std.specs.Map.{keys_of};
ghost use Rattle.s7_rig.specs.Shown.{client_told, end_told};
ghost use Rattle.s7_tool_main.specs.Gen.{block_key, flags_key};
ghost use Rattle.s7_tool_main.specs.GenText.{are_made_good, client_tally, counted, errors_in, is_made_good, made_text};
ghost use Rattle.s7_tool_main.specs.GenText.{octet_sum, octets_in, sum_at, sum_line, tally_line};

use crate::made::made_areas::{FLAGS_KEY, block_key};
use crate::scripts::jobs::{all_good, is_good};
use s7_area::{AreaKey, Areas};
use s7_client::JobResult;
use s7_outer::Memory;
use s7_program::journal_line;
use s7_rig::{RigClient, RigEnd};
use std::alloc::{AllocError, Global};

/// The text of a rig over the flags and four data blocks.
pub(crate) fn made_text(alloc: Global, end: &RigEnd) -> Result<Vec<u8>, Memory>
    requires { keys_of end.now.book.plant.areas.areas
        ≡ flags_key ∷ map block_key (1 ∷ 2 ∷ 3 ∷ 4 ∷ []) }
    ensures { IfOk result (λ text. text.items ≡ made_text (end_told end.now)) }
{
    let mut text = Vec::new(alloc);
    for client in &end.clients {
        let line = client_tally(alloc, client)?;
        text.extend_from_slice(line.as_bytes())?;
    }
    let journal = journal_line(alloc, end.book.journal.len())?;
    let sum = sum_line(alloc, octet_sum(&end.book.plant.areas))?;
    text.extend_from_slice(journal.as_bytes())?;
    text.extend_from_slice(sum.as_bytes())?;
    Ok(text)
}

/// The line of a client.
fn client_tally(alloc: Global, client: &RigClient) -> Result<String, AllocError>
    ensures { IfOk result (λ line. string_bytes line ≡ client_tally (client_told client.now)) }
{
    tally_line(alloc, client.link, counted(client.results.as_slice()))
}

/// The results that count: those of the connect and of the lines.
#[tactic(auto, unfolding(crate::specs::GenText::counted))]
fn counted(results: &[JobResult]) -> &[JobResult]
    ensures { result.now ≡ counted results.now }
{
    &results[..results.len().min(201)]
}

/// The line of these results of a link.
fn tally_line(alloc: Global, link: u32, results: &[JobResult]) -> Result<String, AllocError>
    ensures { IfOk result (λ line. string_bytes line ≡ tally_line link results.now) }
{
    let count = results.len();
    let errors = errors_in(results);
    let octets = octets_in(results);
    format!(in alloc; "client {link} results {count} errors {errors} octets {octets}\n")
}

/// How many results have a code other than 0.
fn errors_in(results: &[JobResult]) -> usize
    ensures { result ≡ errors_in results.now }
{
    let mut errors = 0;
    for told in results {
        if !is_good(told) {
            errors += 1;
        }
    }
    errors
}

/// How many octets the results have. Their sum may exceed 64 bits.
fn octets_in(results: &[JobResult]) -> u128
    ensures { result ≡ octets_in results.now }
{
    let mut count = 0;
    for told in results {
        count += told.octets.as_slice().len() as u128;
    }
    count
}

/// The line of a sum.
fn sum_line(alloc: Global, sum: u128) -> Result<String, AllocError>
    ensures { IfOk result (λ line. string_bytes line ≡ sum_line sum) }
{
    format!(in alloc; "sum {sum}\n")
}

/// The sum of all octets of the flags and the four data blocks.
fn octet_sum(areas: &Areas) -> u128
    requires { keys_of areas.now.areas ≡ flags_key ∷ map block_key (1 ∷ 2 ∷ 3 ∷ 4 ∷ []) }
    ensures { result ≡ octet_sum areas.now }
{
    sum_at(areas, FLAGS_KEY)
        + sum_at(areas, block_key(1))
        + sum_at(areas, block_key(2))
        + sum_at(areas, block_key(3))
        + sum_at(areas, block_key(4))
}

/// The sum of the octets of the area of this name, 0 if there is none.
fn sum_at(areas: &Areas, key: AreaKey) -> u128
    ensures sum { result ≡ sum_at areas.now key }
    ensures most { result < 2 ^ 72 }
{
    match areas.octets_of(key) {
        Some(octets) => sum_of(octets),
        None => 0,
    }
}

/// The sum of octets.
fn sum_of(octets: &[u8]) -> u128
    ensures sum { result ≡ sum octets.now }
    ensures most { result ≤ 255 * length octets.now }
{
    let mut sum = 0;
    for octet in octets {
        sum += u128::from(*octet);
    }
    sum
}

/// Whether there are four clients, each of which did all its jobs with code 0.
pub(crate) fn are_made_good(clients: &[RigClient]) -> bool
    ensures { result ≡ are_made_good (map client_told clients.now) }
{
    clients.len() == 4 && clients.iter().all(|client| is_made_good(client))
}

/// Whether a client did all its jobs with code 0.
fn is_made_good(client: &RigClient) -> bool
    ensures { result ≡ is_made_good (client_told client.now) }
{
    client.results.len() == 202 && all_good(client.results.as_slice())
}
