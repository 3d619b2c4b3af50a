//! A machine that adds, as an example of what a hall serves.
ghost use Rattle.std.specs.Prelude.{◌≡◌, ℕ, ◌+◌, ◌%◌, ◌^◌, ◌≤◌, [], IfOk, vec_capacity, vec_len};
ghost use Rattle.s7_turn.specs.Histories.{replay};

use crate::machine::Machine;
use crate::view::Entry;
use s7_outer::Memory;
use std::alloc::Global;

/// Adds up its requests modulo 2^64, and answers each with the sum before it.
#[derive(Drop)]
pub struct Adder {
    pub entries: Vec<Entry<u64>>,
    pub limit: usize,
    pub sum: u64,
    ghost room: { (vec_len entries ≤ limit) × (limit ≤ vec_capacity entries) },
    ghost summed: { sum ≡ replay (λ s e. (s + e.request) % 2 ^ 64) 0 entries.items },
}

impl Adder {
    /// A machine with sum 0 and an empty history of at most `limit` entries, whose memory is allocated here. Returns
    /// `Memory` if the allocation fails.
    pub fn new(alloc: Global, limit: usize) -> Result<Adder, Memory>
        ensures { IfOk result (λ a. (a.entries.items ≡ []) × (a.limit ≡ limit) × (a.sum ≡ 0)) }
    {
        Ok(Adder {
            entries: Vec::with_capacity(alloc, limit)?,
            limit,
            sum: 0,
        })
    }
}

impl Machine for Adder {
    type Request = u64;

    type Reply = u64;

    ghost State = { ℕ };

    ghost opening = { λ _. 0 };

    ghost history = { λ m. m.entries.items };

    ghost limit = { λ m. m.limit };

    ghost state = { λ m. m.sum };

    ghost after = { λ s e. (s + e.request) % 2 ^ 64 };

    ghost kept = { λ r. r };

    ghost request_ready = { λ _. Unit {0} };

    ghost reply_ready = { λ _. Unit {0} };

    ghost gives = { λ s _ _ reply. reply ≡ s };

    fn len(&self) -> u64 {
        self.entries.len() as u64
    }

    fn step(&mut self, caller: u32, request: u64, reply: &mut u64) -> Result<u64, u64> {
        let number = self.entries.len();
        if number == self.limit {
            return Err(request);
        }
        *reply = self.sum;
        self.entries.push_reserved(Entry { caller, request });
        self.sum = self.sum.wrapping_add(request);
        Ok(number as u64)
    }
}
