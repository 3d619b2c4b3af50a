//! A hall that serves links.
ghost use Rattle.s7_turn.specs.Seats.{IsOf, made};
ghost use Rattle.s7_session.specs.LinkState.{first_link};
ghost use Rattle.s7_session.specs.Books.{History};
ghost use Rattle.s7_listener.specs.HallTerms.{hall_terms};
ghost use Rattle.s7_listener.specs.SeatShown.{seat_told};

use crate::bench::Bench;
use crate::keeper::Keeper;
use crate::served::Served;
use crate::worker::serve_link;
use s7_area::Guard;
use s7_outer::{Clock, Gate, Link};
use s7_turn::{Hall, Seat};
use std::alloc::Global;
use std::sync::Wait;
use std::time;

/// A hall whose requests pass a gate, and the guard with which its links begin.
#[derive(Drop)]
pub struct HallBench<'a, M: Keeper, G: Gate> {
    pub hall: &'a Hall<M>,
    pub gate: &'a G,
    pub guard: Option<Guard>,
}

impl<M: Keeper, G: Gate> Bench for HallBench<'_, M, G> {
    type Seat = Seat<M>;

    ghost Seen = { History };

    ghost is_of = { λ b seat. IsOf b.hall.now seat };

    ghost told = { λ seat. seat_told seat };

    ghost terms = { λ b. hall_terms (M.opened (made b.hall.now)) (M.limit (made b.hall.now)) (first_link b.guard) };

    fn split(&self, seat: &mut Seat<M>) -> Seat<M> {
        self.hall.split(seat)
    }

    fn serve<R: Wait + time::Clock, L: Link + Clock>(
        &self,
        rt: &R,
        alloc: Global,
        seat: Seat<M>,
        line: L,
    ) -> (Seat<M>, Served<L>) {
        serve_link(rt, alloc, self.hall, seat, self.gate, self.guard, line)
    }

    #[tactic(auto, using(crate::proofs::OverLemmas::longer_fits))]
    fn meet(&self, one: Seat<M>, two: Seat<M>) -> Seat<M> {
        self.hall.meet(one, two)
    }
}
