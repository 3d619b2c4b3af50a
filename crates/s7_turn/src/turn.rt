//! One turn: a ticket, the wait for it, the machine out of its slot and back.
ghost use Rattle.std.specs.Prelude.{◌≡◌, ℕ, ◌<◌, ◌++◌, true, List, [], ◌∷◌, Some, None};
ghost use Rattle.atomic_table.specs.Seated.{TableId};
ghost use Rattle.s7_turn.specs.declared.view.Stage.TheVariants.{Idle, Called, Took};
ghost use Rattle.s7_turn.specs.declared.view.Entry.{Entry};
ghost use Rattle.s7_turn.specs.Histories.{has, Agrees, AddedBy, Each};
ghost use Rattle.s7_turn.specs.Machines.{IsFrom};
ghost use Rattle.s7_turn.specs.Turns.{at_stage, IsSized};

use crate::bell::{linger, ring};
use crate::door;
use crate::machine::Machine;
use crate::plays::{Advance, Draw, Enter, Give, Look, Place, Take, Top};
use crate::words::{SERVING, TICKET};
use std::sync::Wait;

/// Draws a ticket for this seat, and waits until its turn has come.
pub(crate) fn wait_turn<M: Machine, R: Wait>(rt: &R, top: &Top<M>, place: &mut Place<M>)
    requires table { (place.old.table_id ≡ top.now.table_id) × IsSized top.now.table_id }
    requires idle { (place.old.me.0.stage ≡ Idle) × (has place.old.me.0.callers place.old.me.0.caller ≡ true) }
    ensures seat { (place.new.table_id ≡ place.old.table_id) × (place.new.id ≡ place.old.id) }
    ensures called { (t : ℕ) × (place.new.me ≡ (at_stage place.old.me.0 (Called t), place.old.me.1)) }
{
    door::pass(rt, top, place);
    let ticket = top.fetch_add::<Draw>(place, TICKET, 1);
    let mut looks = 0;
    for _ in rt.forever() {
        let served = top.load::<Look>(place, SERVING);
        if served == ticket {
            return;
        }
        looks = linger(rt, top, place, ticket, looks);
    }
    unreachable!()
}

/// Takes the machine out of its slot.
pub(crate) fn take<M: Machine>(top: &Top<M>, place: &mut Place<M>) -> Box<M>
    requires table { (place.old.table_id ≡ top.now.table_id) × IsSized top.now.table_id }
    requires called { (place.old.me.1 ≡ []) × ((t : ℕ) × (place.old.me.0.stage ≡ Called t)) }
    ensures seat { (place.new.table_id ≡ place.old.table_id) × (place.new.id ≡ place.old.id) }
    ensures took { (t : ℕ)
        × (place.new.me ≡ (at_stage place.old.me.0 (Took t (M.history result.value)), (0, None) ∷ [])) }
    ensures agrees { Agrees place.old.me.0.seen place.old.me.0.callers (M.history result.value) }
    ensures origin { (x : _) → place.old.me.0.origin ≡ Some x → IsFrom M.Machine result.value x }
    ensures numbered { (n : ℕ) → place.old.me.0.next ≡ Some n → Each (λ e. e.caller < n) (M.history result.value) }
{
    top.load::<Take<M>>(place, SERVING);
    top.exchange(place, 0, None).unwrap()
}

/// Puts the machine back, and passes the turn on.
pub(crate) fn give<M: Machine>(top: &Top<M>, place: &mut Place<M>, machine: Box<M>)
    requires table { (place.old.table_id ≡ top.now.table_id) × IsSized top.now.table_id }
    requires took { (place.old.me.1 ≡ (0, None) ∷ [])
        × ((t : ℕ) × (h : _) × (place.old.me.0.stage ≡ Took t h)
        × AddedBy place.old.me.0.caller h (M.history machine.value)) }
    requires origin { (x : _) × (place.old.me.0.origin ≡ Some x) × IsFrom M.Machine machine.value x }
    ensures seat { (place.new.table_id ≡ place.old.table_id) × (place.new.id ≡ place.old.id) }
    ensures gave { place.new.me ≡ (record place.old.me.0 { seen = M.history machine.value; stage = Idle }, []) }
{
    let found = top.exchange(place, 0, Some(machine));
    let None = found else { unreachable!() };
    top.load::<Enter<M>>(place, SERVING);
    top.load::<Give>(place, SERVING);
    let last = top.fetch_add::<Advance>(place, SERVING, 1);
    let served = last.wrapping_add(1);
    ring(top, place, served);
    door::open(top, place, served);
}
