//! Serving one link at a hall.
ghost use Rattle.std.specs.Prelude.{◌≡◌, ◌≤◌, true, [], ◌∷◌, length};
ghost use Rattle.s7_outer.specs.Calls.{shut_down};
ghost use Rattle.s7_turn.specs.Histories.{has, calls};
ghost use Rattle.s7_turn.specs.Seats.{IsOf, made, seen, caller, callers};
ghost use Rattle.s7_session.specs.Books.{own};
ghost use Rattle.s7_session.specs.LinkRun.{IsFresh};
ghost use Rattle.s7_session.specs.LinkState.{LinkState, first_link};
ghost use Rattle.s7_session.specs.Stands.{entry_count, newest};
ghost use Rattle.s7_listener.specs.Seats.{SeatGoesOn};
ghost use Rattle.s7_listener.specs.Served.{IsServed, IsServedLink, served_told, told_of};

use crate::hall_doer::HallDoer;
use crate::keeper::Keeper;
use crate::served::Served;
use s7_area::Guard;
use s7_outer::{Clock, Gate, Link};
use s7_session::{Outcome, Session};
use s7_turn::{Hall, Seat};
use std::alloc::Global;
use std::sync::Wait;
use std::time;

/// Serves a link to its end, in the name of a seat of the hall. The seat must represent its caller alone, which has
/// made no call. The link has the caller's number and begins with this guard and without a right. Returns the seat and
/// the result of the link, which is shut down by then. If the allocation of the link's session fails, the outcome is
/// `Memory`, and the link was only shut down.
pub fn serve_link<M: Keeper, R: Wait + time::Clock, L: Link + Clock, G: Gate>(
    rt: &R,
    alloc: Global,
    hall: &Hall<M>,
    seat: Seat<M>,
    gate: &G,
    guard: Option<Guard>,
    line: L,
) -> (Seat<M>, Served<L>)
    requires hall { IsOf hall.now seat }
    requires alone { callers seat ≡ caller seat ∷ [] }
    requires new { calls (caller seat) (seen seat) ≡ [] }
    ensures hall { IsOf hall.entry.now result.0 }
    ensures seat { SeatGoesOn (M.limit (made hall.entry.now)) seat result.0 }
    ensures number { result.1.link ≡ caller seat }
    ensures served { IsServed (M.opened (made hall.entry.now)) (M.limit (made hall.entry.now)) (first_link guard)
        (seen result.0) (L.shows line) (told_of L.shows result.1) }
    ensures count { result.1.entries ≡ length (own (M.opened (made hall.entry.now)) (caller seat) (seen result.0)) }
{
    let link = seat.caller();
    let mut seat = seat;
    let mut line = line;
    let Ok(mut session) = Session::new(alloc, link, guard) else {
        return (seat, shut(link, line, Outcome::Memory, 0, None));
    };
    let outcome = serve_session(rt, alloc, hall, &mut seat, gate, &mut session, &mut line);
    let (entries, last) = (session.entries(), session.last());
    (seat, shut(link, line, outcome, entries, last))
}

/// Shuts down a link that was served, or for which an allocation failed, and returns its result.
fn shut<L: Link + Clock>(
    link: u32,
    line: L,
    outcome: Outcome,
    entries: u64,
    last: Option<u64>,
) -> Served<L>
    ensures link { result.link ≡ link }
    ensures entries { result.entries ≡ entries }
    ensures told { told_of L.shows result ≡ served_told link (shut_down (L.shows line)) outcome entries last }
{
    let mut line = line;
    line.shutdown();
    Served {
        link,
        line,
        outcome,
        entries,
        last,
    }
}

/// Serves a link with a fresh session.
fn serve_session<M: Keeper, R: Wait + time::Clock, L: Link + Clock, G: Gate>(
    rt: &R,
    alloc: Global,
    hall: &Hall<M>,
    seat: &mut Seat<M>,
    gate: &G,
    session: &mut Session,
    line: &mut L,
) -> Outcome
    requires hall { IsOf hall.now seat.old }
    requires named { has (callers seat.old) (caller seat.old) ≡ true }
    requires new { calls (caller seat.old) (seen seat.old) ≡ [] }
    ensures hall { IsOf hall.entry.now seat.new }
    ensures seat { SeatGoesOn (M.limit (made hall.entry.now)) seat.old seat.new }
    ensures served { (first : LinkState) → IsFresh first session.old
        → IsServedLink (M.opened (made hall.entry.now)) (M.limit (made hall.entry.now)) first (seen seat.new)
        (L.shows line.old)
        (served_told (caller seat.old) (L.shows line.new) result (entry_count session.new) (newest session.new)) }
    ensures unshut { (first : LinkState) → IsFresh first session.old
        → (L.shows line.new).shut ≡ (L.shows line.old).shut }
{
    let mut doer = HallDoer {
        rt,
        hall,
        seat,
        gate,
        ordinal: 0,
    };
    session.serve(rt, alloc, line, &mut doer)
}
