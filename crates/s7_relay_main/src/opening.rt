//! Opening a doer over the windows that are named.
ghost use Rattle.std.specs.Prelude.{◌≡◌, ◌≢◌, ◌≤◌, IfErr, IfOk, OnOk};
ghost use Rattle.s7_script.specs.Loading.{FailedOnce};
ghost use Rattle.s7_relay.specs.Doer.{begins, doer_model};
ghost use Rattle.s7_args.specs.RelayShown.{relay_told_of};
ghost use Rattle.s7_relay_main.specs.Asked.{relay_config};
ghost use Rattle.s7_relay_main.specs.End.{Opens, Unopened};

use crate::ended::Ended;
use crate::load::load_windows;
use crate::output::print_refusal;
use s7_args::RelayWords;
use s7_client::Config;
use s7_outer::{Dial, Files, Link, Memory, Octets, Out};
use s7_program::print_as;
use s7_relay::{RelayDoer, Windows};
use std::alloc::Global;

/// Loads the windows file, and opens a doer over these windows. If that fails, prints why, and returns how the program
/// ends.
pub(crate) fn open_doer<F: Files, M: Link + Drop, K: Dial<M> + Drop, O: Out>(
    alloc: Global,
    asked: RelayWords<'_>,
    files: &mut F,
    dial: K,
    out: &mut O,
) -> Result<RelayDoer<K, M>, Ended>
    ensures opened { IfOk result (λ doer. Opens (relay_told_of asked.entry) (F.shows files.old) (K.shows dial)
        (doer_model K.shows M.shows doer)) }
    ensures silent { OnOk result (O.shows out.new ≡ O.shows out.old) }
    ensures unchanged { OnOk result (F.shows files.new ≡ F.shows files.old) }
    ensures unopened { IfErr result (λ ended. Unopened (relay_told_of asked.entry)
        (F.shows files.old) (F.shows files.new) (O.shows out.old) (O.shows out.new) ended) }
    ensures unfailed { IfErr result (λ ended. ended ≢ Ended.File → ended ≢ Ended.Memory
        → F.shows files.new ≡ F.shows files.old) }
    ensures paths { F.shows files.new ≡ record (F.shows files.old) { faults = (F.shows files.new).faults } }
    ensures counts { FailedOnce (F.shows files.old).faults (F.shows files.new).faults }
{
    let windows = match load_windows(alloc, files, asked.windows) {
        Ok(windows) => windows,
        Err(fault) => return Err(print_refusal(alloc, fault, asked.windows, out)),
    };
    let config = config_of(asked.polls);
    match new_doer(
        alloc,
        windows,
        dial,
        asked.host,
        asked.port,
        config,
        asked.journal,
    ) {
        Ok(doer) => Ok(doer),
        Err(_) => Err(print_as(Ended::Memory, b"memory\n", out)),
    }
}

/// How the client of the far server connects. A job times out after this number of polls that found the link not
/// ready.
fn config_of(polls: u32) -> Config
    ensures { result ≡ relay_config polls }
{
    let usual = Config::new(1, 0, 2);
    Config { polls, ..usual }
}

/// A doer that has relayed nothing. Returns `Memory` if an allocation fails.
fn new_doer<M: Link + Drop, K: Dial<M> + Drop>(
    alloc: Global,
    windows: Windows,
    dial: K,
    host: &str,
    port: u16,
    config: Config,
    limit: u64,
) -> Result<RelayDoer<K, M>, Memory>
    requires config { config ≡ relay_config config.polls }
    requires polls { 1 ≤ config.polls }
    requires some { 1 ≤ limit }
    requires few { limit ≤ 262144 }
    ensures { IfOk result (λ doer. doer_model K.shows M.shows doer
        ≡ begins windows host.now port config limit (K.shows dial)) }
{
    let host = Octets::copy_of(alloc, host.as_bytes())?;
    RelayDoer::new(alloc, windows, dial, host, port, config, limit)
}
