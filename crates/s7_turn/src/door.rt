//! How seats wait before they have a ticket.
//!
//! Tickets are served in their order. If many seats held one, each turn would wait until one more sleeper is awake; so
//! few seats hold a ticket at a time. A newcomer looks for a while, since a turn is shorter than a sleep, and then
//! sleeps at the door. It adds itself to the number of sleepers before it looks a last time, and whoever advances reads
//! that number after the advance. Whoever finds the queue empty lets a sleeper in, so sleepers are let in as long as
//! there are any.
ghost use Rattle.std.specs.Prelude.{◌≡◌};
ghost use Rattle.s7_turn.specs.Turns.{IsSized};

use crate::machine::Machine;
use crate::plays::{Place, Ring, Top};
use crate::words::{DOOR, SERVING, SLEEPERS, TICKET};
use std::hint::spin_loop;
use std::sync::Wait;

/// With this number of tickets out, newcomers wait.
const FEW: u64 = 1;

/// How often a newcomer looks before it sleeps. Each pause between two looks is twice as long as the one before.
const LOOKS: u32 = 6;

/// A sleeper that was woken this number of times goes in, however many tickets are out.
const PATIENCE: u32 = 4;

/// A sleeper is woken each time that this number of turns was served, even if the queue is never empty.
const PERIOD: u64 = 16;

/// Whether as many tickets are out as there may be.
fn is_full<M: Machine>(top: &Top<M>) -> bool
    requires { IsSized top.now.table_id }
{
    let served = top.peek(SERVING);
    top.peek(TICKET).wrapping_sub(served) >= FEW
}

/// Spins this number of times.
fn pause(times: u32) {
    for _ in 0..times {
        spin_loop();
    }
}

/// Looks for about a microsecond whether the queue has room.
fn has_room_soon<M: Machine>(top: &Top<M>) -> bool
    requires { IsSized top.now.table_id }
{
    for look in 0..LOOKS {
        if !is_full(top) {
            return true;
        }
        pause(1 << look);
    }
    false
}

/// Waits until the queue has room for one more ticket, or until this seat has slept often enough.
pub(crate) fn pass<M: Machine, R: Wait>(rt: &R, top: &Top<M>, place: &mut Place<M>)
    requires table { (place.old.table_id ≡ top.now.table_id) × IsSized top.now.table_id }
    ensures seat { (place.new.table_id ≡ place.old.table_id) × (place.new.id ≡ place.old.id)
        × (place.new.me ≡ place.old.me) }
{
    if has_room_soon(top) {
        return;
    }
    top.fetch_add::<Ring>(place, SLEEPERS, 1);
    for _ in 0..PATIENCE {
        let rung = top.peek(DOOR);
        if !is_full(top) {
            break;
        }
        top.park(rt, DOOR, (rung % (1 << 32)) as u32);
    }
    top.fetch_sub::<Ring>(place, SLEEPERS, 1);
}

/// Wakes one sleeper, if there is one, and if the queue is empty now that this number of tickets was served or the
/// period is over.
pub(crate) fn open<M: Machine>(top: &Top<M>, place: &mut Place<M>, served: u64)
    requires table { (place.old.table_id ≡ top.now.table_id) × IsSized top.now.table_id }
    ensures seat { (place.new.table_id ≡ place.old.table_id) × (place.new.id ≡ place.old.id)
        × (place.new.me ≡ place.old.me) }
{
    if top.peek(SLEEPERS) == 0 {
        return;
    }
    if served % PERIOD == 0 || top.peek(TICKET) == served {
        top.fetch_add::<Ring>(place, DOOR, 1);
        top.wake_one(DOOR);
    }
}
