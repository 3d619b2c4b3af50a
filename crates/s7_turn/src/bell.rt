//! How a seat with a ticket waits for its turn, and how it is woken.
//!
//! After a few looks it sleeps at the bell of its ticket. A waiter writes its mark to its bell, reads `SERVING` once
//! more, and only then sleeps. Whoever advances `SERVING` reads the bell after the advance. So either the waiter sees
//! the advance or the other sees the mark, and no wake-up is lost. Tickets that share a bell have different marks, and
//! no seat sleeps on the mark of another.
ghost use Rattle.std.specs.Prelude.{◌≡◌, ◌<◌, ◌≤◌};
ghost use Rattle.s7_turn.specs.Turns.{IsSized};

use crate::machine::Machine;
use crate::plays::{Place, Ring, Top};
use crate::words::{BELLS, FIRST_BELL, SERVING};
use std::hint::spin_loop;
use std::sync::Wait;

/// How often a seat looks before it sleeps; this takes some microseconds.
const LOOKS: u32 = 100;

/// The index of the word that is the bell of a ticket.
fn bell_of(ticket: u64) -> usize
    ensures { (2 ≤ result) × (result < 36) }
{
    FIRST_BELL + (ticket % BELLS) as usize
}

/// The value of the bell while the seat with this ticket may sleep there. It is never 0.
fn mark_of(ticket: u64) -> u32 {
    (ticket % (1 << 32)) as u32 | 1
}

/// Sleeps until the bell rings, unless the turn has come.
fn sleep<M: Machine, R: Wait>(rt: &R, top: &Top<M>, place: &mut Place<M>, ticket: u64)
    requires table { (place.old.table_id ≡ top.now.table_id) × IsSized top.now.table_id }
    ensures seat { (place.new.table_id ≡ place.old.table_id) × (place.new.id ≡ place.old.id)
        × (place.new.me ≡ place.old.me) }
{
    let bell = bell_of(ticket);
    let mark = mark_of(ticket);
    top.store::<Ring>(place, bell, mark as u64);
    if top.peek(SERVING) != ticket {
        top.park(rt, bell, mark);
    }
}

/// Waits a little, after this number of looks: looks again, or sleeps and begins to count anew. Returns the new number
/// of looks.
pub(crate) fn linger<M: Machine, R: Wait>(
    rt: &R,
    top: &Top<M>,
    place: &mut Place<M>,
    ticket: u64,
    looks: u32,
) -> u32
    requires table { (place.old.table_id ≡ top.now.table_id) × IsSized top.now.table_id }
    ensures seat { (place.new.table_id ≡ place.old.table_id) × (place.new.id ≡ place.old.id)
        × (place.new.me ≡ place.old.me) }
{
    if looks < LOOKS {
        spin_loop();
        return looks + 1;
    }
    sleep(rt, top, place, ticket);
    0
}

/// Wakes the seat with this ticket, if it sleeps.
pub(crate) fn ring<M: Machine>(top: &Top<M>, place: &mut Place<M>, ticket: u64)
    requires table { (place.old.table_id ≡ top.now.table_id) × IsSized top.now.table_id }
    ensures seat { (place.new.table_id ≡ place.old.table_id) × (place.new.id ≡ place.old.id)
        × (place.new.me ≡ place.old.me) }
{
    let bell = bell_of(ticket);
    if top.peek(bell) != 0 {
        top.store::<Ring>(place, bell, 0);
        top.wake_all(bell);
    }
}
