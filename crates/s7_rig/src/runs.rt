//! A whole run of a rig.
ghost use Rattle.std.specs.Prelude.{◌≡◌, ◌≤◌, ◌<◌, ◌*◌, All, length, map, IfOk, OnErr, is_some, option_map};
ghost use Rattle.std.specs.List.{AllByRecursion};
ghost use Rattle.s7_header.specs.Negotiation.{most_pdu};
ghost use Rattle.s7_rig.specs.Scripts.{BeginsWell};
ghost use Rattle.s7_client.specs.Completions.{told_of_results};
ghost use Rattle.s7_rig.specs.Shown.{end_told, first_results, script_told};
ghost use Rattle.s7_rig.specs.Rigs.{Turning, RigRan, ToldWanting};

use crate::end::RigEnd;
use crate::rig::Rig;
use crate::script::ClientScript;
use s7_area::Areas;
use s7_client::{Completion, Config};
use s7_outer::Memory;
use std::alloc::Global;

/// The turns that a rig takes before its rounds. With K clients, actors 0 to K - 1 are the clients, and actors K to 2K
/// - 1 are their sessions.
#[derive(Clone, Copy, Debug, PartialEq, Eq)]
pub struct Schedule<'a> {
    /// The actors of the first turns, in order.
    pub turns: &'a [u32],
    /// The seed of the turns after these.
    pub seed: u32,
    /// How many turns are drawn from the seed.
    pub steps: u32,
}

/// Runs a rig over these areas, with a journal of this limit, from 1 to 262,144, and a client for each script, of which
/// there are 1 to 1,025. The links are numbered from 1 in that order. The first job of each script is a connect, and no
/// other job is. The clients ask for a PDU from 64 to 1,920 octets and for 1 to 8 parallel jobs, and a job takes at
/// least 1 poll that finds the link not ready before it times out. In its turn a client starts its next job if none is
/// outstanding, and polls once. In its turn a session takes one turn on the book.
///
/// The turns of the schedule come first, and then rounds of all actors in order. The rounds end when every client is
/// finished, after a round in which no octet was moved or used and no job was done, or after 16,777,216 rounds. Returns
/// `Memory` if an allocation for the rig, for a job or for a session fails.
///
/// The completion is notified of each job of the first client when the job is done, once, in order, and of nothing
/// else. If `Memory` is returned, it was notified of the jobs that were done by then, or of none.
pub fn run_rig<C: Completion>(
    alloc: Global,
    areas: Areas,
    limit: u64,
    scripts: Vec<ClientScript>,
    config: Config,
    schedule: Schedule<'_>,
    done: &mut Option<C>,
) -> Result<RigEnd, Memory>
    requires some { 1 ≤ limit }
    requires few { limit ≤ 262144 }
    requires least_pdu { 64 ≤ config.pdu }
    requires most_pdu { config.pdu ≤ most_pdu }
    requires least_jobs { 1 ≤ config.jobs }
    requires most_jobs { config.jobs ≤ 8 }
    requires polls { 1 ≤ config.polls }
    requires clients { 0 < length scripts.items }
    requires connects { AllByRecursion BeginsWell (map script_told scripts.items) }
    requires few_clients { length scripts.items ≤ 1025 }
    requires actors { All (λ actor. actor < 2 * length scripts.items) schedule.turns.now }
    ensures ran { IfOk result (λ end. RigRan areas limit config (map script_told scripts.items)
        (record { turns = schedule.entry.turns.now; seed = schedule.entry.seed; steps = schedule.entry.steps })
        (end_told end)) }
    ensures told { IfOk result (λ end. option_map C.told done.new
        ≡ option_map (λ t. told_of_results t (first_results (end_told end))) (option_map C.told done.old)) }
    ensures told_wanting { OnErr result (ToldWanting areas limit config (map script_told scripts.items)
        (record { turns = schedule.entry.turns.now; seed = schedule.entry.seed; steps = schedule.entry.steps })
        (option_map C.told done.old) (option_map C.told done.new)) }
    ensures handed { is_some done.new ≡ is_some done.old }
{
    // every registered area is within the limits of areas
    let _numbers = areas.db_numbers();
    let mut rig = Rig::new(alloc, areas, limit, scripts, config)?;
    rig.run(alloc, schedule.turns, schedule.seed, schedule.steps, done)?;
    rig.into_end(alloc)
}
