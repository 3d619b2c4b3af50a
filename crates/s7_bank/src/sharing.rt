//! How seats of banks are split and joined, and how banks are closed.
ghost use Rattle.std.specs.Prelude.{◌≡◌, ◌+◌, ◌<◌, ◌≤◌, ◌++◌, ◌∷◌, ℕ, List, [], Some, None, IsSome, length, slice_get};
ghost use Rattle.std.specs.Prelude.{slice_set, vec_capacity, vec_len};
ghost use Rattle.std.specs.Option.{option_or};
ghost use Rattle.s7_turn.specs.Seats.{next};
ghost use Rattle.s7_turn.specs.Turns.{most};
ghost use Rattle.s7_bank.specs.Seats.{AreSeated, IsSeatAt, IsSeatOf, caller_of, callers_of, next_of};
ghost use Rattle.s7_bank.specs.Sharing.{ClosedAt, MetAt, MetOf, SplitAt, SplitOff};

use crate::banks::Banks;
use crate::seat::BankSeat;
use s7_turn::{Machine, Seat};
use std::sync::Wait;

impl<M: Machine> Banks<M> {
    /// Splits a seat of a new caller off this one at each bank, in rising order, without waiting. The new caller has
    /// made no call, and its seats have seen as much of the histories as this one's. Its number is the same at each
    /// bank: the next one that this seat hands out. The number after it is then the next. Allocates nothing.
    pub fn split(&self, seat: &mut BankSeat<M>) -> BankSeat<M>
        requires seat { IsSeatOf self.now.halls.items seat.old.seats.items }
        requires number { (n : ℕ) × (next_of seat.old.seats.items ≡ Some n) × (n < most) }
        ensures banks { (bank : ℕ) → bank < length self.now.halls.items → SplitAt self.now.halls.items
            seat.old.seats.items seat.new.seats.items result.seats.items bank }
        ensures seat { IsSeatOf self.now.halls.items seat.new.seats.items }
        ensures new { IsSeatOf self.now.halls.items result.seats.items }
        ensures given { (next_of seat.old.seats.items ≡ Some (caller_of result.seats.items))
            × (callers_of result.seats.items ≡ caller_of result.seats.items ∷ [])
            × (next_of result.seats.items ≡ None) }
        ensures old { (caller_of seat.new.seats.items ≡ caller_of seat.old.seats.items)
            × (callers_of seat.new.seats.items ≡ callers_of seat.old.seats.items)
            × (next_of seat.new.seats.items ≡ Some (caller_of result.seats.items + 1)) }
    {
        let mut new = BankSeat::new();
        for bank in 0..self.halls.len() {
            let own = self.split_at(seat, bank);
            new.seats.push(Some(own));
        }
        new
    }

    /// Splits a seat of a new caller off this one at one bank.
    fn split_at(&self, seat: &mut BankSeat<M>, bank: usize) -> Seat<M>
        requires halls { AreSeated self.now.halls.items seat.old.seats.items }
        requires bank { bank < length self.now.halls.items }
        requires number { (own : _) → slice_get seat.old.seats.items bank ≡ Some (Some own)
            → (n : ℕ) × (next own ≡ Some n) × (n < most) }
        ensures halls { AreSeated self.now.halls.items seat.new.seats.items }
        ensures split { SplitOff self.now.halls.items seat.old.seats.items seat.new.seats.items bank result }
    {
        let mut own = seat.take(bank).unwrap();
        let new = self.halls[bank].split(&mut own);
        seat.put(bank, own);
        new
    }

    /// Joins two seats at each bank, in rising order, without waiting. The result calls as `one`'s caller, represents
    /// the callers of both, has seen the longer of their histories at each bank, and hands out new caller numbers if
    /// one of the two did.
    pub fn meet(&self, one: BankSeat<M>, two: BankSeat<M>) -> BankSeat<M>
        requires one { IsSeatOf self.now.halls.items one.seats.items }
        requires two { IsSeatOf self.now.halls.items two.seats.items }
        ensures banks { (bank : ℕ) → bank < length self.now.halls.items → MetAt self.now.halls.items
            one.seats.items two.seats.items result.seats.items bank }
        ensures seat { IsSeatOf self.now.halls.items result.seats.items }
        ensures callers { (caller_of result.seats.items ≡ caller_of one.seats.items)
            × (callers_of result.seats.items ≡ callers_of one.seats.items ++ callers_of two.seats.items) }
        ensures next { (next_of result.seats.items ≡ option_or (next_of one.seats.items) (next_of two.seats.items))
            × (IsSome (next_of one.seats.items) → next_of two.seats.items ≡ None) }
    {
        let mut first = one;
        let mut second = two;
        let mut new = BankSeat::new();
        for bank in 0..self.halls.len() {
            let met = self.meet_at(&mut first, &mut second, bank);
            new.seats.push(Some(met));
        }
        new
    }

    /// Joins two seats at one bank. Both are taken out of their lists.
    fn meet_at(&self, one: &mut BankSeat<M>, two: &mut BankSeat<M>, bank: usize) -> Seat<M>
        requires one { IsSeatAt self.now.halls.items one.old.seats.items bank }
        requires two { IsSeatAt self.now.halls.items two.old.seats.items bank }
        requires bank { bank < length self.now.halls.items }
        ensures left_one { one.new.seats.items ≡ slice_set one.old.seats.items bank None }
        ensures left_two { two.new.seats.items ≡ slice_set two.old.seats.items bank None }
        ensures met { MetOf self.now.halls.items one.old.seats.items two.old.seats.items bank result }
    {
        let first = one.take(bank).unwrap();
        let second = two.take(bank).unwrap();
        self.halls[bank].meet(first, second)
    }

    /// Closes the hall of each bank, in rising order, and appends their machines to `into`, which must have room for
    /// one for each bank. Closing a hall takes a turn like a call. A machine's history begins with all that the seat
    /// at its bank has seen. Allocates nothing.
    pub fn close<R: Wait>(self, rt: &R, seat: BankSeat<M>, into: &mut Vec<M>)
        requires seat { IsSeatOf self.halls.items seat.seats.items }
        requires room { vec_len into.old + length self.halls.items ≤ vec_capacity into.old }
        ensures closed { (machines : List M) × (into.new.items ≡ into.old.items ++ machines)
            × (length machines ≡ length self.halls.items)
            × ((bank : ℕ) → bank < length self.halls.items
            → ClosedAt self.halls.items seat.seats.items machines bank) }
    {
        let Banks { mut halls } = self;
        let mut seats = seat.seats;
        for bank in 0..halls.len() {
            let hall = halls.remove(0);
            let own = seats.remove(0).unwrap();
            into.push_reserved(hall.close(rt, own));
        }
        halls.destroy_empty();
    }
}
