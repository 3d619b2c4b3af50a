//! The trait of what serves many links at once.
ghost use Rattle.std.specs.Prelude.{◌≡◌, ℕ, ◌<◌, Some};
ghost use Rattle.s7_listener.specs.Benches.{Terms, SeatTold, IsNew, IsSplit, IsMet, HasServed};
ghost use Rattle.s7_listener.specs.Served.{told_of};

use crate::served::Served;
use s7_outer::{Clock, Link};
use std::alloc::Global;
use std::sync::Wait;
use std::time;

/// Serves many links at once, each in the name of a seat. The loop over links is generic over this trait, so that no
/// thread's closure names the type that the hall holds.
pub trait Bench {
    /// The right to have one link served.
    type Seat;

    // What a seat sees of the history, or of the histories, in which calls are entered.
    ghost Seen: { Type 0 };

    ghost is_of: { Self → Self.Seat → Type 0 };

    ghost told: { Self.Seat → SeatTold Seen };

    // what it means that a link was served over what a seat sees, and that what is seen later begins with what was seen
    // before
    ghost terms: { Self → Terms Seen };

    /// Splits a new seat off this one. The new seat has the number that the old one hands out next.
    fn split(&self, seat: &mut Self::Seat) -> Self::Seat
        requires hall { is_of self.now seat.old }
        requires number { (n : ℕ) × ((told seat.old).next ≡ Some n) × (n < 1048576) }
        ensures old { is_of self.now seat.new }
        ensures own { is_of self.now result }
        ensures split { IsSplit (terms self.now) (told seat.old) (told seat.new) (told result) };

    /// Serves a link to its end in the name of a seat. The seat must represent its caller alone, which has made no
    /// call. The outcome says why the link ended.
    fn serve<R: Wait + time::Clock, L: Link + Clock>(
        &self,
        rt: &R,
        alloc: Global,
        seat: Self::Seat,
        line: L,
    ) -> (Self::Seat, Served<L>)
        requires hall { is_of self.now seat }
        requires new { IsNew (terms self.now) (told seat) }
        ensures hall { is_of self.now result.0 }
        ensures served { HasServed (terms self.now) (told seat) (told result.0)
            (L.shows line) (told_of L.shows result.1) };

    /// Joins two seats. The result represents the callers of both.
    fn meet(&self, one: Self::Seat, two: Self::Seat) -> Self::Seat
        requires one { is_of self.now one }
        requires two { is_of self.now two }
        ensures hall { is_of self.now result }
        ensures met { IsMet (terms self.now) (told one) (told two) (told result) };
}
