//! The seats of a caller, one at each bank.
ghost use Rattle.std.specs.Prelude.{◌≡◌, ◌<◌, ℕ, Some, None, [], slice_get, slice_index, slice_set};
ghost use Rattle.arrayvec.specs.ArrayVec.{array_vec_len};
ghost use Rattle.s7_bank.specs.Seats.{caller_at};

use arrayvec::ArrayVec;
use s7_turn::{Machine, Seat};
use std::mem;

/// The greatest number of banks.
const MOST_BANKS: usize = 16;

/// The right to make calls in one caller's name at each bank. It allocates nothing.
#[derive(Drop)]
pub struct BankSeat<M: Machine> {
    /// One seat for each bank; a seat is taken out only while it makes a call.
    pub(crate) seats: ArrayVec<Option<Seat<M>>, 16>,
}

impl<M: Machine> BankSeat<M> {
    /// A seat at no bank.
    pub(crate) fn new() -> BankSeat<M>
        ensures { result.seats.items ≡ [] }
    {
        BankSeat {
            seats: ArrayVec::new(),
        }
    }

    /// The caller in whose name it makes calls at each bank; 0 for a bank that isn't there.
    pub fn callers(&self) -> [u32; 16]
        ensures { (bank : ℕ) → bank < 16 → slice_index result bank ≡ caller_at self.now.seats.items bank }
    {
        let mut callers = [0; MOST_BANKS];
        for bank in 0..MOST_BANKS {
            callers[bank] = self.caller_at(bank);
        }
        callers
    }

    /// The caller in whose name it makes calls at a bank; 0 for a bank that isn't there.
    fn caller_at(&self, bank: usize) -> u32
        ensures { result ≡ caller_at self.now.seats.items bank }
    {
        match self.seats.as_slice().get(bank) {
            Some(Some(seat)) => seat.caller(),
            Some(None) | None => 0,
        }
    }

    /// Takes out the seat at a bank.
    pub(crate) fn take(&mut self, bank: usize) -> Option<Seat<M>>
        requires { bank < array_vec_len self.old.seats }
        ensures out { slice_get self.old.seats.items bank ≡ Some result }
        ensures left { self.new.seats.items ≡ slice_set self.old.seats.items bank None }
    {
        mem::replace(&mut self.seats[bank], None)
    }

    /// Puts a seat at a bank.
    pub(crate) fn put(&mut self, bank: usize, seat: Seat<M>)
        requires { bank < array_vec_len self.old.seats }
        ensures { self.new.seats.items ≡ slice_set self.old.seats.items bank (Some seat) }
    {
        self.seats[bank] = Some(seat);
    }
}
