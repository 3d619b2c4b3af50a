//! The fragments of a message, as an iterator.

ghost use Rattle.std.specs.Prelude.{◌≡◌, ◌<◌};
ghost use Rattle.std.specs.Iterator.{YieldsFirst, item_count};
ghost use Rattle.s7_cotp.specs.Pairs.{pairs_from, fragments_of};

use std::marker::Model;

/// The fragments of a message, in order. Each item is the pair of the offset at which the fragment begins and the
/// offset at which it ends.
#[derive(Drop)]
pub struct Fragments {
    /// The number of fragments left.
    left: usize,
    /// The greatest number of octets of a fragment.
    room: usize,
    /// The offset of the next fragment.
    from: usize,
    /// The length of the message.
    to: usize,
}

impl Model for Fragments {
    ghost use Rattle.std.specs.Prelude.{List, ℕ, ◌≤◌};
    ghost use Rattle.s7_cotp.specs.Pairs.{pairs_from};

    ghost Value = { List (ℕ × ℕ) };

    ghost view = { λ f. pairs_from f.left f.room f.from f.to };

    ghost invariant = { λ f. f.from ≤ f.to };
}

impl Fragments {
    /// The fragments of a message of `len` octets, with `room` octets each; the last may have fewer.
    pub(crate) fn of(len: usize, room: usize) -> Fragments
        requires { 0 < room }
        ensures { result ≡ pairs_from (fragments_of len room) room 0 len }
    {
        Fragments {
            left: (len.max(1) - 1) / room + 1,
            room,
            from: 0,
            to: len,
        }
    }
}

impl Iterator for Fragments {
    type Item = (usize, usize);

    ghost next_gives = { YieldsFirst (λ rest. rest) };

    ghost remaining = { item_count (λ rest. rest) };

    fn next(&mut self) -> Option<(usize, usize)> {
        if self.left == 0 {
            return None;
        }
        let from = self.from;
        let end = from + self.room.min(self.to - from);
        self.left -= 1;
        self.from = end;
        Some((from, end))
    }
}
