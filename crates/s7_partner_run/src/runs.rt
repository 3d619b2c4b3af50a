//! A whole run of two partners.
ghost use Rattle.std.specs.Prelude.{◌≤◌, All, IfOk};
ghost use Rattle.s7_script.specs.Sends.{IsSized};
ghost use Rattle.s7_partner_run.specs.Pairs.{PairRan, end_told};

use crate::pair::{Pair, PairEnd};
use s7_client::Config;
use s7_outer::Memory;
use s7_script::Sends;
use std::alloc::Global;

/// Runs an active and a passive partner over two pipes of 4,096 octets each. They are given the blocks of `one` and of
/// `other`. In each turn, a partner that isn't closed is given its next block if none is unacknowledged, and polls
/// once. First come `steps` turns that are drawn from the seed; actor 0 is the active partner and actor 1 the passive
/// one. Then come rounds of both partners. The rounds end when every block was acknowledged and nothing is outstanding,
/// when one of the partners is closed, or after 16,777,216 rounds. Returns `Memory` if an allocation fails.
pub fn run_pair(
    alloc: Global,
    config: Config,
    one: Sends,
    other: Sends,
    seed: u32,
    steps: u32,
) -> Result<PairEnd, Memory>
    requires least_pdu { 64 ≤ config.pdu }
    requires most_pdu { config.pdu ≤ 1920 }
    requires least_jobs { 1 ≤ config.jobs }
    requires most_jobs { config.jobs ≤ 8 }
    requires polls { 1 ≤ config.polls }
    requires sized { All IsSized one }
    requires other_sized { All IsSized other }
    ensures { IfOk result (λ end. PairRan config one other seed steps (end_told end)) }
{
    let mut pair = Pair::new(alloc, config, one, other)?;
    pair.run(alloc, seed, steps)?;
    Ok(pair.into_end())
}
