//! Numbers that are drawn from a seed, and the actors of turns.
#![tactic(auto)]

ghost use Rattle.std.specs.Prelude.{◌≡◌, ◌<◌, ◌%◌};
ghost use Rattle.s7_schedule.specs.Drawing.{actor_by, first_x, next_x, number_by};

use std::marker::Model;

/// Draws numbers by a linear congruential generator modulo 2^31. Contracts see its state x.
#[derive(Drop)]
pub struct Draw {
    x: u32,
}

impl Model for Draw {
    ghost use Rattle.std.specs.Prelude.{ℕ, ◌<◌};

    ghost Value = { ℕ };

    ghost view = { λ d. d.x };

    ghost invariant = { λ d. d.x < 2147483648 };
}

impl Draw {
    /// A generator with this seed, taken modulo 2^31.
    pub fn new(seed: u32) -> Draw
        ensures { result ≡ first_x seed }
    {
        Draw {
            x: seed % 2_147_483_648,
        }
    }

    /// Draws the next number below `count`, which is at least 1: the high part of the next x, modulo `count`. It is
    /// below 32,768.
    pub fn below(&mut self, count: u32) -> u32
        requires { 0 < count }
        ensures x { self.new ≡ next_x self.old }
        ensures number { result ≡ number_by (next_x self.old) % count }
        ensures below { result < count }
    {
        self.next() % count
    }

    /// Draws the next of `actors` actors, which are numbered from 0. There must be at least one.
    pub fn actor(&mut self, actors: usize) -> usize
        requires { 0 < actors }
        ensures x { self.new ≡ next_x self.old }
        ensures actor { result ≡ actor_by self.new actors }
        ensures below { result < actors }
    {
        self.next() as usize % actors
    }

    /// Advances x, and returns its high part.
    fn next(&mut self) -> u32
        ensures x { self.new ≡ next_x self.old }
        ensures number { result ≡ number_by self.new }
    {
        let x = (1_103_515_245 * u64::from(self.x) + 12_345) % 2_147_483_648;
        self.x = x as u32;
        self.x / 65_536
    }
}
