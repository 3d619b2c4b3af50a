//! Banks, and a call at one of them.
ghost use Rattle.std.specs.Prelude.{◌≡◌, ◌≤◌, ◌<◌, length, MatchResult};
ghost use Rattle.s7_turn.specs.Seats.{made};
ghost use Rattle.s7_bank.specs.Seats.{HasEntered, HasMetFull, IsCall, IsSeatOf, ShowTheSame};

use crate::seat::BankSeat;
use s7_turn::{Full, Hall, Machine, Receipt};
use std::sync::Wait;

/// From 1 to 16 banks, each with a hall of its own.
#[derive(Drop)]
pub struct Banks<M: Machine> {
    pub(crate) halls: Vec<Hall<M>>,
    pub ghost some: { 1 ≤ length halls.items },
    pub ghost few: { length halls.items ≤ 16 },
}

impl<M: Machine> Banks<M> {
    /// Waits for a turn of the seat at one bank, and has the machine there carry out the request. Fails with `Full`
    /// exactly if the history that it finds there has its greatest length.
    pub fn act<R: Wait>(
        &self,
        rt: &R,
        seat: &mut BankSeat<M>,
        bank: u8,
        request: M::Request,
        reply: &mut M::Reply,
    ) -> Result<Receipt, Full<M::Request>>
        requires seat { IsSeatOf self.now.halls.items seat.old.seats.items }
        requires bank { bank < length self.now.halls.items }
        requires request { M.request_ready request }
        requires reply { M.reply_ready reply.old }
        ensures seat { IsSeatOf self.now.halls.items seat.new.seats.items }
        ensures same { ShowTheSame seat.old.seats.items seat.new.seats.items }
        ensures reply { M.reply_ready reply.new }
        ensures call { (call : IsCall self.now.halls.items seat.old.seats.items seat.new.seats.items bank)
            × MatchResult result (λ receipt. HasEntered call request reply.new receipt.number)
            (λ full. HasMetFull call × (full.request ≡ request) × (full.len ≡ M.limit (made call.hall))
            × (reply.new ≡ reply.old)) }
    {
        let place = usize::from(bank);
        let mut own = seat.take(place).unwrap();
        let done = self.halls[place].act(rt, &mut own, request, reply);
        seat.put(place, own);
        done
    }
}
