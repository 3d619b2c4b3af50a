//! The operations of a hall.
ghost use Rattle.std.specs.Prelude.{◌≡◌, ℕ, ◌+◌, ◌<◌, true, List, [], ◌∷◌, ◌++◌, length, Some, None, IsSome, IfOk};
ghost use Rattle.std.specs.Prelude.{IfErr, MatchResult};
ghost use Rattle.std.specs.Option.{option_or};
ghost use Rattle.s7_turn.specs.Histories.{has, entry, Each, Agrees, calls, replay};
ghost use Rattle.s7_turn.specs.Machines.{IsReplayed};
ghost use Rattle.s7_turn.specs.Turns.{most, longer};
ghost use Rattle.s7_turn.specs.Seats.{IsOf, made, seen, caller, callers, next};

use super::{Full, Hall, Receipt, Seat};
use crate::machine::Machine;
use crate::plays::{Both, Compare, Number};
use crate::turn::{give, take, wait_turn};
use crate::words::{SERVING, WORDS};
use atomic_table::{Refused, Table};
use s7_outer::Memory;
use std::alloc::{AllocFailed, Global};
use std::snapshot::Snapshot;
use std::sync::Wait;

impl<M: Machine> Seat<M> {
    /// The caller in whose name it makes calls: 0 for the first seat, then the numbers in the order in which they were
    /// handed out.
    pub fn caller(&self) -> u32
        ensures { result ≡ caller self.now }
    {
        self.caller
    }
}

/// One slot, with the machine in it. Hands the machine back if the allocation fails.
fn slot_of<M>(alloc: Global, machine: M) -> Result<Vec<Option<Box<M>>>, M>
    ensures { MatchResult result (λ v. (b : _) × (v.items ≡ Some b ∷ []) × (b.value ≡ machine)) (λ m. m ≡ machine) }
{
    let machine = match Box::new(alloc, machine) {
        Ok(machine) => machine,
        Err(failed) => {
            let AllocFailed { value } = failed;
            return Err(value);
        }
    };
    let mut slots = Vec::new(alloc);
    if let Err(failed) = slots.push(Some(machine)) {
        let AllocFailed { value } = failed;
        slots.destroy_empty();
        return Err(Box::into_inner(value.unwrap()));
    }
    Ok(slots)
}

/// The machine of the one slot.
fn machine_of<M>(mut slots: Vec<Option<Box<M>>>) -> M
    requires { (b : _) × (slots.items ≡ Some b ∷ []) }
    ensures { (b : _) → slots.items ≡ Some b ∷ [] → result ≡ b.value }
{
    let machine = slots.pop().unwrap().unwrap();
    slots.destroy_empty();
    Box::into_inner(machine)
}

impl<M: Machine> Hall<M> {
    /// A hall with this machine, and its first seat. That seat's caller is 0, and it hands out the numbers of the other
    /// callers, from 1 on. Hands the machine back with `Memory` if an allocation fails.
    pub fn new(alloc: Global, machine: M) -> Result<(Hall<M>, Seat<M>), (Memory, M)>
        requires new { (M.history machine ≡ []) × (M.state machine ≡ M.opening machine) }
        requires holds { M.holds machine }
        ensures hall { IfOk result (λ r. (M.opening (made r.0) ≡ M.opening machine)
            × (M.limit (made r.0) ≡ M.limit machine) × IsOf r.0 r.1) }
        ensures seat { IfOk result
            (λ r. (caller r.1 ≡ 0) × (callers r.1 ≡ 0 ∷ []) × (seen r.1 ≡ []) × (next r.1 ≡ Some 1)) }
        ensures memory { IfErr result (λ e. e.1 ≡ machine) }
    {
        let about = Snapshot::of(&machine);
        let slots = match slot_of(alloc, machine) {
            Ok(slots) => slots,
            Err(machine) => return Err((Memory, machine)),
        };
        match Table::new(alloc, &[0; WORDS], slots, &about) {
            Ok((table, place)) => {
                let seat = Seat {
                    caller: 0,
                    next: Some(1),
                    place,
                };
                Ok((Hall { table }, seat))
            }
            Err(Refused { slots }) => Err((Memory, machine_of(slots))),
        }
    }

    /// Splits a seat for a new caller off this one, without waiting. The new seat has seen as much of the history, and
    /// its caller has made no call. The caller is the number that was next; the next one is then one higher.
    pub fn split(&self, seat: &mut Seat<M>) -> Seat<M>
        requires hall { IsOf self.now seat.old }
        requires number { (n : ℕ) × (next seat.old ≡ Some n) × (n < most) }
        ensures hall { IsOf self.now result }
        ensures new { (next seat.old ≡ Some (caller result)) × (callers result ≡ caller result ∷ [])
            × (seen result ≡ seen seat.old) × (calls (caller result) (seen result) ≡ []) × (next result ≡ None) }
        ensures old { IsOf self.now seat.new × (caller seat.new ≡ caller seat.old)
            × (callers seat.new ≡ callers seat.old) × (seen seat.new ≡ seen seat.old)
            × (next seat.new ≡ Some (caller result + 1)) }
        ensures below { (x : ℕ) → has (callers seat.old) x ≡ true → x < caller result }
    {
        let caller = seat.next.unwrap();
        let place = self.table.shared.split_seat::<Number>(&mut seat.place);
        seat.next = Some(caller + 1);
        Seat {
            caller,
            next: None,
            place,
        }
    }

    /// Has the machine carry out the request, in a turn of the seat's. Fails with `Full` exactly if the history that it
    /// finds has its greatest length.
    pub fn act<R: Wait>(
        &self,
        rt: &R,
        seat: &mut Seat<M>,
        request: M::Request,
        reply: &mut M::Reply,
    ) -> Result<Receipt, Full<M::Request>>
        requires hall { IsOf self.now seat.old }
        requires request { M.request_ready request }
        requires reply { M.reply_ready reply.old }
        ensures seat { IsOf self.now seat.new × (caller seat.new ≡ caller seat.old)
            × (callers seat.new ≡ callers seat.old) × (next seat.new ≡ next seat.old) }
        ensures reply { M.reply_ready reply.new }
        ensures entered { IfOk result (λ r. (h : List _)
            × (seen seat.new ≡ h ++ entry (caller seat.old) (M.kept request) ∷ []) × (length h ≡ r.number)
            × (r.number < M.limit (made self.now)) × Agrees (seen seat.old) (callers seat.old) h
            × M.gives (replay M.after (M.opening (made self.now)) h) (caller seat.old) (M.kept request) reply.new
            × (calls (caller seat.old) (seen seat.new) ≡ calls (caller seat.old) (seen seat.old) ++ r.number ∷ [])) }
        ensures full { IfErr result (λ f. (f.request ≡ request) × (f.len ≡ M.limit (made self.now))
            × (length (seen seat.new) ≡ f.len) × Agrees (seen seat.old) (callers seat.old) (seen seat.new)
            × (reply.new ≡ reply.old)) }
    {
        let top = &self.table.shared;
        wait_turn(rt, top, &mut seat.place);
        let mut machine = take(top, &mut seat.place);
        let done = machine.step(seat.caller, request, reply);
        let len = machine.len();
        give(top, &mut seat.place, machine);
        match done {
            Ok(number) => Ok(Receipt { number }),
            Err(request) => Err(Full { request, len }),
        }
    }

    /// Joins two seats, without waiting. The result calls as `one`'s caller, represents the callers of both, has seen
    /// the longer of their histories, and hands out new caller numbers if one of the two did.
    pub fn meet(&self, one: Seat<M>, two: Seat<M>) -> Seat<M>
        requires one { IsOf self.now one }
        requires two { IsOf self.now two }
        ensures hall { IsOf self.now result }
        ensures callers { (caller result ≡ caller one) × (callers result ≡ callers one ++ callers two) }
        ensures seen { (seen result ≡ longer (seen one) (seen two)) × Agrees (seen one) (callers one) (seen result)
            × Agrees (seen two) (callers two) (seen result) }
        ensures next { (next result ≡ option_or (next one) (next two)) × (IsSome (next one) → next two ≡ None) }
    {
        let Seat {
            caller,
            next,
            mut place,
        } = one;
        let Seat {
            caller: _,
            next: other_next,
            place: other,
        } = two;
        let top = &self.table.shared;
        top.join_seat::<Both>(&mut place, other);
        top.load::<Compare>(&mut place, SERVING);
        Seat {
            caller,
            next: next.or(other_next),
            place,
        }
    }

    /// Takes a turn like a call, and returns the machine. The machine's history begins with all that the seat has seen.
    pub fn close<R: Wait>(self, rt: &R, seat: Seat<M>) -> M
        requires hall { IsOf self seat }
        ensures fixed { (M.opening result ≡ M.opening (made self)) × (M.limit result ≡ M.limit (made self)) }
        ensures state { IsReplayed M.Machine result }
        ensures holds { M.holds result }
        ensures agrees { Agrees (seen seat) (callers seat) (M.history result) }
        ensures numbered { (n : ℕ) → next seat ≡ Some n → Each (λ e. e.caller < n) (M.history result) }
        ensures whole { (n : ℕ) → next seat ≡ Some n → ((x : ℕ) → x < n → has (callers seat) x ≡ true)
            → (M.history result ≡ seen seat) × Each (λ e. has (callers seat) e.caller ≡ true) (M.history result) }
    {
        let Hall { table } = self;
        let Seat {
            caller: _,
            next: _,
            mut place,
        } = seat;
        wait_turn(rt, &table.shared, &mut place);
        let mut closed = table.close_with(place);
        let machine = closed.take(0).unwrap();
        closed.free();
        Box::into_inner(machine)
    }
}
