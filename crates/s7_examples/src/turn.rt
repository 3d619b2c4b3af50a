//! A machine of your own that two threads use in turns.
ghost use Rattle.std.specs.Prelude.{◌≡◌, ℕ, ◌≤◌, max, vec_capacity, vec_len};
ghost use Rattle.s7_turn.specs.Histories.{replay};
ghost use Rattle.s7_turn.specs.Seats.{IsOf};

use s7_turn::{Entry, Hall, Machine, Seat};
use std::sync::Wait;
use std::thread::join;

/// A machine that keeps the highest value requested. It answers a request with the highest value before it.
#[derive(Drop)]
struct Peak {
    entries: Vec<Entry<u64>>,
    limit: usize,
    highest: u64,
    ghost room: { (vec_len entries ≤ limit) × (limit ≤ vec_capacity entries) },
    ghost is_highest: { highest ≡ replay (λ s e. max s e.request) 0 entries.items },
}

impl Machine for Peak {
    type Request = u64;

    type Reply = u64;

    ghost State = { ℕ };

    ghost opening = { λ _. 0 };

    ghost history = { λ m. m.entries.items };

    ghost limit = { λ m. m.limit };

    ghost state = { λ m. m.highest };

    ghost after = { λ s e. max s e.request };

    ghost kept = { λ r. r };

    ghost request_ready = { λ _. Unit {0} };

    ghost reply_ready = { λ _. Unit {0} };

    ghost gives = { λ s _ _ reply. reply ≡ s };

    fn len(&self) -> u64 {
        self.entries.len() as u64
    }

    fn step(&mut self, caller: u32, request: u64, reply: &mut u64) -> Result<u64, u64> {
        let number = self.entries.len();
        if number == self.limit {
            return Err(request);
        }
        *reply = self.highest;
        self.entries.push_reserved(Entry { caller, request });
        self.highest = self.highest.max(request);
        Ok(number as u64)
    }
}

/// Calls the machine with each of these values, as one caller.
fn tell<R: Wait>(rt: &R, hall: &Hall<Peak>, mut seat: Seat<Peak>, values: &[u64]) -> Seat<Peak>
    requires { IsOf hall.now seat }
    ensures { IsOf hall.entry.now result }
{
    let mut before = 0;
    for value in values {
        // the value comes back if the machine is full
        drop(hall.act(rt, &mut seat, *value, &mut before));
    }
    seat
}

/// Two threads call with five values, and the machine has their highest and five entries.
#[test]
fn two_threads_find_one_peak(rt: HostRuntime) {
    let peak = Peak {
        entries: Vec::with_capacity(rt.alloc(), 9).expect(&rt, "there is memory"),
        limit: 9,
        highest: 0,
    };
    let (hall, mut one) = Hall::new(rt.alloc(), peak)
        .ok()
        .expect(&rt, "there is memory");
    let other = hall.split(&mut one);
    let (one, other) = join(
        &rt,
        || -> Seat<Peak>
            requires { IsOf hall one }
            ensures { IsOf hall result }
        { tell(&rt, &hall, one, &[21, 35, 28]) },
        || -> Seat<Peak>
            requires { IsOf hall other }
            ensures { IsOf hall result }
        { tell(&rt, &hall, other, &[19, 40]) },
    );
    let both = hall.meet(one, other);
    let peak = hall.close(&rt, both);
    assert!(rt; (peak.highest, peak.entries.len()) == (40, 5));
}
