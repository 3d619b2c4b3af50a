//! A doer that calls a hall in the name of a seat.
ghost use Rattle.std.specs.Prelude.{◌≡◌, ◌-◌, ◌^◌, ℕ, true, length, min};
ghost use Rattle.std.proofs.Common.{refl, ◌∙◌, subst};
ghost use Rattle.s7_turn.specs.Histories.{has, calls};
ghost use Rattle.s7_turn.specs.Seats.{IsOf, made, seen, caller, callers};
ghost use Rattle.s7_session.specs.Books.{own};
ghost use Rattle.s7_listener.specs.Seats.{SeatGoesOn};
ghost use Rattle.s7_listener.specs.SeatLaws.{seat_same, seat_both};

use crate::keeper::Keeper;
use s7_outer::Gate;
use s7_plant::{Ask, Reply};
use s7_session::{Doer, NotDone};
use s7_turn::{Full, Hall, Seat};
use std::alloc::Global;
use std::sync::Wait;

/// Carries out the requests of one link at a hall, as the caller of a seat. Each request passes the gate and waits for
/// its turn. It is answered by the state after all earlier entries, those of other links included, and is entered under
/// the caller's number. The entries that the doer represents are the caller's own calls in the history that the seat
/// has seen. The doer is full exactly if this history has reached its limit. It allocates nothing.
#[derive(Drop)]
pub struct HallDoer<'a, M: Keeper, R: Wait, G: Gate> {
    pub rt: &'a R,
    pub hall: &'a Hall<M>,
    pub seat: &'a mut Seat<M>,
    pub gate: &'a G,
    /// How many calls the caller has made, at most 2^64 - 1.
    pub ordinal: u64,
    pub ghost of: { IsOf hall.now seat.now },
    pub ghost named: { has (callers seat.now) (caller seat.now) ≡ true },
    pub ghost counted: { ordinal ≡ min (length (calls (caller seat.now) (seen seat.now))) (2 ^ 64 - 1) },
}

impl<M: Keeper, R: Wait, G: Gate> Doer for HallDoer<'_, M, R, G> {
    ghost stands = { λ d entries. entries ≡ own (M.opened (made d.hall.now)) (caller d.seat.now) (seen d.seat.now) };

    ghost is_full = { λ d _. length (seen d.seat.now) ≡ M.limit (made d.hall.now) };

    ghost may_lack = { λ d _. ⊥ };

    ghost keeps = { λ d e. (e.hall.now ≡ d.hall.now) × (e.seat.ghost_name ≡ d.seat.ghost_name)
        × SeatGoesOn (M.limit (made d.hall.now)) d.seat.now e.seat.now };

    ghost keeps_same = { λ d. (refl, refl, seat_same (M.limit (made d.hall.now)) d.seat.now) };

    ghost keeps_both = { λ a b c p q. (
      q.0 ∙ p.0,
      q.1 ∙ p.1,
      seat_both (M.limit (made a.hall.now)) a.seat.now b.seat.now c.seat.now p.2
          (subst (λ h. SeatGoesOn (M.limit (made h)) b.seat.now c.seat.now) p.0 q.2),
    ) };

    fn act(&mut self, _alloc: Global, ask: Ask, reply: &mut Reply) -> Result<u64, NotDone> {
        self.gate.pass(self.rt, self.seat.caller(), self.ordinal);
        match self.hall.act(self.rt, self.seat, ask, reply) {
            Ok(receipt) => {
                self.ordinal = self.ordinal.saturating_add(1);
                Ok(receipt.number)
            }
            Err(full) => {
                let Full { request, len: _ } = full;
                Err(NotDone::Full(request))
            }
        }
    }
}
