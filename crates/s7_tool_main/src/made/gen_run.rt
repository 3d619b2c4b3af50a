//! The command `gen`, which makes areas and scripts from a seed and runs the scripts.
ghost use Rattle.std.specs.Prelude.{◌≡◌, ◌≢◌, ◌∷◌, [], IfOk, OnErr, is_some, map, option_map, vec_len};
ghost use Rattle.std.specs.Map.{keys_of};
ghost use Rattle.s7_client.specs.Completions.{told_of_results};
ghost use Rattle.s7_rig.specs.Rigs.{RigRan, ToldWanting};
ghost use Rattle.s7_rig.specs.Scripts.{goes_on};
ghost use Rattle.s7_rig.specs.Shown.{end_told, first_results, script_told};
ghost use Rattle.s7_tool_main.specs.End.{results_in_rig};
ghost use Rattle.s7_tool_main.specs.Gen.{GenEnds, block_key, client_scripts, flags_key, made_areas, made_config, made_turning};
ghost use Rattle.s7_tool_main.specs.GenText.{are_made_good, made_text};

use crate::ended::Ended;
use crate::made::made_areas::made_areas;
use crate::made::made_report::{are_made_good, made_text};
use crate::made::made_scripts::made_scripts;
use crate::output::print_text;
use crate::rigs::rigging::{Rigged, rig_config};
use s7_client::{Completion, Job};
use s7_outer::{Memory, Out};
use s7_program::print_as;
use s7_rig::{ClientScript, RigEnd, Schedule, run_rig};
use std::alloc::{AllocError, Global};

/// The greatest number of entries in the journal.
const JOURNAL: u64 = 65_536;

/// Runs four clients on made areas, with scripts that are drawn from the seed, and prints the results. The completion
/// is notified of the first client's jobs.
pub(crate) fn run_gen<O: Out, C: Completion>(
    alloc: Global,
    seed: u32,
    out: &mut O,
    done: &mut Option<C>,
) -> (Ended, Option<RigEnd>)
    ensures ended { GenEnds seed (O.shows out.old) (O.shows out.new) result.1 result.0 }
    ensures told { result.0 ≢ Ended.Memory → option_map C.told done.new
        ≡ option_map (λ t. told_of_results t (results_in_rig result.1)) (option_map C.told done.old) }
    ensures told_wanting { result.0 ≡ Ended.Memory → ToldWanting made_areas 65536 made_config (client_scripts seed)
        (made_turning seed) (option_map C.told done.old) (option_map C.told done.new) }
    ensures handed { is_some done.new ≡ is_some done.old }
{
    match rig_made(alloc, seed, done) {
        Ok(rigged) => {
            let ended = print_text(rigged.text.as_slice(), rigged.is_good, out);
            (ended, Some(rigged.end))
        }
        Err(_) => (print_as(Ended::Memory, b"memory\n", out), None),
    }
}

/// Runs the clients, and makes the text of the results.
fn rig_made<C: Completion>(alloc: Global, seed: u32, done: &mut Option<C>) -> Result<Rigged, Memory>
    ensures ran { IfOk result (λ r.
        RigRan made_areas 65536 made_config (client_scripts seed) (made_turning seed) (end_told r.end)) }
    ensures text { IfOk result (λ r. r.text.items ≡ made_text (end_told r.end)) }
    ensures good { IfOk result (λ r. r.is_good ≡ are_made_good (end_told r.end).clients) }
    ensures told { IfOk result (λ r. option_map C.told done.new
        ≡ option_map (λ t. told_of_results t (first_results (end_told r.end))) (option_map C.told done.old)) }
    ensures told_wanting { OnErr result (ToldWanting made_areas 65536 made_config (client_scripts seed)
        (made_turning seed) (option_map C.told done.old) (option_map C.told done.new)) }
    ensures handed { is_some done.new ≡ is_some done.old }
{
    let end = run_made(alloc, seed, done)?;
    let text = made_text(alloc, &end)?;
    let is_good = are_made_good(end.clients.as_slice());
    Ok(Rigged { end, text, is_good })
}

/// Runs the clients. The areas keep their names.
fn run_made<C: Completion>(alloc: Global, seed: u32, done: &mut Option<C>) -> Result<RigEnd, Memory>
    ensures ran { IfOk result (λ end.
        RigRan made_areas 65536 made_config (client_scripts seed) (made_turning seed) (end_told end)) }
    ensures names { IfOk result (λ end. keys_of end.book.plant.areas.areas
        ≡ flags_key ∷ map block_key (1 ∷ 2 ∷ 3 ∷ 4 ∷ [])) }
    ensures told { IfOk result (λ end. option_map C.told done.new
        ≡ option_map (λ t. told_of_results t (first_results (end_told end))) (option_map C.told done.old)) }
    ensures told_wanting { OnErr result (ToldWanting made_areas 65536 made_config (client_scripts seed)
        (made_turning seed) (option_map C.told done.old) (option_map C.told done.new)) }
    ensures handed { is_some done.new ≡ is_some done.old }
{
    let areas = made_areas(alloc)?;
    let scripts = client_scripts(alloc, seed)?;
    let schedule = Schedule {
        turns: &[],
        seed,
        steps: 2_000,
    };
    run_rig(
        alloc,
        areas,
        JOURNAL,
        scripts,
        rig_config(240, 4),
        schedule,
        done,
    )
}

/// The scripts of the clients.
fn client_scripts(alloc: Global, seed: u32) -> Result<Vec<ClientScript>, AllocError>
    ensures scripts { IfOk result (λ all. map script_told all.items ≡ client_scripts seed) }
    ensures len { IfOk result (λ all. vec_len all ≡ 4) }
{
    let scripts = made_scripts(alloc, seed)?;
    going_on(alloc, scripts)
}

/// The scripts of these jobs for clients that don't halt.
fn going_on(alloc: Global, scripts: Vec<Vec<Job>>) -> Result<Vec<ClientScript>, AllocError>
    ensures scripts { IfOk result (λ all.
        map script_told all.items ≡ map goes_on (map (λ s. s.items) scripts.items)) }
    ensures len { IfOk result (λ all. vec_len all ≡ vec_len scripts) }
{
    let mut all = Vec::new(alloc);
    for jobs in scripts {
        all.push(ClientScript { jobs, halts: false })?;
    }
    Ok(all)
}
