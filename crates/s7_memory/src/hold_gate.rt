//! A gate that delays one link until another link has come.
ghost use Rattle.std.specs.Prelude.{◌≡◌};

use s7_outer::Gate;
use std::sync::Wait;
use std::sync::atomic::{AtomicBool, Ordering};
use std::thread;

/// Delays the first request of one link until the second request of another link comes, or until it has looked a
/// given number of times. Threads share it. That it delays and releases is tested and not proved, since no contract
/// states what an atomic holds.
#[derive(Drop)]
pub struct HoldGate {
    /// The link whose first request is delayed.
    held: u32,
    /// The link whose second request releases the delayed one.
    until: u32,
    /// The greatest number of looks.
    turns: u64,
    /// Whether the second request of `until` has come.
    came: AtomicBool,
    /// Whether the looks were used up without it.
    given_up: AtomicBool,
}

impl HoldGate {
    ghost use Rattle.s7_memory.specs.HoldGate.{held_of, until_of, turns_of};

    /// A gate that delays `pass(rt, held, 0)` until `pass(rt, until, 1)` was called or `turns` looks were made.
    pub fn new(held: u32, until: u32, turns: u64) -> HoldGate
        ensures held { held_of result ≡ held }
        ensures until { until_of result ≡ until }
        ensures turns { turns_of result ≡ turns }
    {
        HoldGate {
            held,
            until,
            turns,
            came: AtomicBool::new(false),
            given_up: AtomicBool::new(false),
        }
    }

    /// Whether the delayed request was released after the last look without the other link's request. This is
    /// tested, not proved.
    pub fn gave_up(&self) -> bool {
        self.given_up.load(Ordering::SeqCst)
    }

    /// Looks for the other link's request until it came or the looks are used up.
    fn hold(&self) {
        for _ in 0..self.turns {
            if self.came.load(Ordering::SeqCst) {
                return;
            }
            thread::yield_now();
        }
        self.given_up.store(true, Ordering::SeqCst);
    }
}

impl Gate for HoldGate {
    fn pass<R: Wait>(&self, rt: &R, link: u32, ordinal: u64) {
        if link == self.until && ordinal == 1 {
            self.came.store(true, Ordering::SeqCst);
        }
        if link == self.held && ordinal == 0 {
            self.hold();
        }
    }
}
