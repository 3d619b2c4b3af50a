//! Serving the near link.
ghost use Rattle.std.specs.Prelude.{◌≡◌, ◌⊎◌, []};
ghost use Rattle.s7_relay.specs.Doer.{GoesOn, doer_model};
ghost use Rattle.s7_relay_main.specs.Relay.{IsLeftAlone, IsRelayedLink, RelaysOn};

use crate::output::LINK;
use s7_outer::{Clock, Dial, Link};
use s7_relay::RelayDoer;
use s7_session::{Outcome, Session};
use std::alloc::Global;
use std::sync::Wait;
use std::time;

/// Serves the near link by a doer that has relayed nothing, and then shuts the link.
pub(crate) fn serve_near<
    R: Wait + time::Clock,
    L: Link + Clock + Drop,
    M: Link + Drop,
    K: Dial<M> + Drop,
>(rt: &R, alloc: Global, line: &mut L, doer: &mut RelayDoer<K, M>) -> Outcome
    requires begun { (doer_model K.shows M.shows doer.old).kept ≡ [] }
    ensures came { IsRelayedLink (doer_model K.shows M.shows doer.old).limit (L.shows line.old) (L.shows line.new) result
        (doer_model K.shows M.shows doer.new).kept
        ⊎ IsLeftAlone (L.shows line.old) (L.shows line.new) result (doer_model K.shows M.shows doer.new).kept }
    ensures goes_on { GoesOn M.shows (doer_model K.shows M.shows doer.old) (doer_model K.shows M.shows doer.new) }
    ensures relays_on { RelaysOn M.shows (doer_model K.shows M.shows doer.old) (doer_model K.shows M.shows doer.new) }
{
    let Ok(mut session) = Session::new(alloc, LINK, None) else {
        line.shutdown();
        return Outcome::Memory;
    };
    let outcome = session.serve(rt, alloc, line, doer);
    line.shutdown();
    outcome
}
