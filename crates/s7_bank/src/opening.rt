//! How banks are opened.
ghost use Rattle.std.specs.Prelude.{◌≡◌, ◌<◌, ◌≤◌, ◌∷◌, ℕ, [], Some, IfOk, length, slice_get};
ghost use Rattle.s7_bank.specs.Opening.{IsOpened, IsUnused, OpenedAt};
ghost use Rattle.s7_bank.specs.Seats.{IsSeatOf, caller_of, callers_of, next_of};

use crate::banks::Banks;
use crate::seat::BankSeat;
use s7_outer::Memory;
use s7_turn::{Hall, Machine, Seat};
use std::alloc::Global;

impl<M: Machine + Drop> Banks<M> {
    /// A bank for each of these 1 to 16 machines, in their order, and the first seat. The caller of that seat is 0 at
    /// each bank, and the seat hands out the numbers of the other callers, from 1 on. No machine may have carried out
    /// anything. Returns `Memory` if an allocation fails; the machines are dropped then.
    pub fn over(alloc: Global, machines: Vec<M>) -> Result<(Banks<M>, BankSeat<M>), Memory>
        requires some { 1 ≤ length machines.items }
        requires few { length machines.items ≤ 16 }
        requires unused { (bank : ℕ) (machine : _) → slice_get machines.items bank ≡ Some machine
            → IsUnused M.Machine machine }
        ensures many { IfOk result (λ r. length r.0.halls.items ≡ length machines.items) }
        ensures banks { IfOk result (λ r. (bank : ℕ) → bank < length machines.items
            → OpenedAt machines.items r.0.halls.items r.1.seats.items bank) }
        ensures seat { IfOk result (λ r. IsSeatOf r.0.halls.items r.1.seats.items) }
        ensures first { IfOk result (λ r. (caller_of r.1.seats.items ≡ 0) × (callers_of r.1.seats.items ≡ 0 ∷ [])
            × (next_of r.1.seats.items ≡ Some 1)) }
    {
        let mut halls = Vec::with_capacity(alloc, machines.len())?;
        let mut seat = BankSeat::new();
        for machine in machines {
            let opened = hall_of(alloc, machine)?;
            halls.push_reserved(opened.0);
            seat.seats.push(Some(opened.1));
        }
        Ok((Banks { halls }, seat))
    }
}

/// A hall with this machine, and its first seat. Returns `Memory` if an allocation fails; the machine is dropped then.
fn hall_of<M: Machine + Drop>(alloc: Global, machine: M) -> Result<(Hall<M>, Seat<M>), Memory>
    requires unused { IsUnused M.Machine machine }
    ensures opened { IfOk result (λ r. IsOpened machine r.0 r.1) }
{
    match Hall::new(alloc, machine) {
        Ok(opened) => Ok(opened),
        Err((memory, _)) => Err(memory),
    }
}
