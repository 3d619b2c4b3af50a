//! Joining fragments to messages.

ghost use Rattle.std.specs.Prelude.{◌≤◌, ◌≡◌, ◌<◌, ◌++◌, ◌∷◌, [], ℕ, List, length, true, IfOk, if◌then◌else◌, nat_lt};
ghost use Rattle.s7_cotp.specs.Gathered.{empty, is_fault, is_whole};
ghost use Rattle.s7_cotp.specs.Messages.{Fragment, joined_with, answer_of, with_fragment, HoldsRest, GoesOn};
ghost use Rattle.s7_cotp.specs.Messages.{EndsMessage};

use s7_outer::{Buffer, Memory};
use std::alloc::Global;
use std::marker::Model;

/// The greatest number of fragments of a message.
const MOST_FRAGMENTS: usize = 64;

/// What a joiner reports of its message.
#[derive(Clone, Copy, Debug, PartialEq, Eq)]
pub enum Joined {
    /// A message is whole.
    Whole,
    /// The message isn't whole: its last fragment hasn't come yet.
    More,
    /// The message has more than 64 fragments.
    TooManyFragments,
    /// The message has more octets than the limit.
    TooLong,
}

/// Joins fragments to messages (ISO 8073, 13.7): the user data up to a DT with the end bit is one message, a TSDU.
/// Its buffer is allocated when it is made, and never grows.
#[derive(Drop)]
pub struct Joiner {
    /// The octets of the message.
    buffer: Buffer,
    /// The number of fragments of the open message.
    count: usize,
    /// The last answer.
    state: Joined,
}

impl Model for Joiner {
    ghost use Rattle.std.specs.Prelude.{◌≡◌, ◌≤◌, ℕ};
    ghost use Rattle.s7_cotp.specs.Gathered.{Gathered};

    ghost Value = { Gathered };

    ghost use Rattle.s7_cotp.specs.declared.joining.Joined.TheVariants.{Whole};

    ghost view = { λ j. record { octets = j.buffer.octets; count = j.count; state = j.state; limit = j.buffer.room } };

    ghost invariant = { λ j. (j.count ≤ 64) × (j.state ≡ Whole → j.count ≡ 0) };
}

impl Joiner {
    /// A joiner without fragments, for messages of at most `limit` octets. Returns `Memory` if the allocation of
    /// its buffer fails.
    pub fn new(alloc: Global, limit: usize) -> Result<Joiner, Memory>
        ensures empty { IfOk result (λ j. j ≡ empty limit) }
        ensures holds { IfOk result (λ j. HoldsRest [] j) }
    {
        Ok(Joiner {
            buffer: Buffer::new(alloc, limit)?,
            count: 0,
            state: Joined::More,
        })
    }

    /// Drops all fragments, and a fault. The buffer stays, and nothing is allocated.
    pub fn restart(&mut self)
        ensures empty { self.new ≡ empty self.old.limit }
        ensures holds { HoldsRest [] self.new }
    {
        self.buffer.clear();
        self.count = 0;
        self.state = Joined::More;
    }

    /// Adds a fragment to the message, or begins the next message if the last one is whole.
    ///
    /// Returns `TooManyFragments` at the 65th fragment of a message, else `TooLong` if the message exceeds the
    /// limit. Such a fragment isn't added. The fault stays: each later call returns it again and changes nothing.
    pub fn add(&mut self, user: &[u8], last: bool) -> Joined
        ensures answer { result ≡ self.new.state }
        ensures value { self.new ≡ with_fragment self.old (record { last = last; user = user.now }) }

        // whatever fragments came before
        ensures holds { (fs : List Fragment) → HoldsRest fs self.old
            → HoldsRest (fs ++ record { last = last; user = user.now } ∷ []) self.new }
        ensures goes_on { (fs : List Fragment) → HoldsRest fs self.old → result ≡ Joined.More
            → GoesOn self.old.limit fs (record { last = last; user = user.now } ∷ []) }
        ensures ends_message { (fs : List Fragment) → HoldsRest fs self.old → result ≡ Joined.Whole
            → EndsMessage self.old.limit fs (record { last = last; user = user.now }) self.new.octets }

        // After a fault no message ends, whatever fragments come.
        ensures fault { (fs more : List Fragment) → HoldsRest fs self.old → is_fault result ≡ true
            → GoesOn self.old.limit fs (record { last = last; user = user.now } ∷ more) }
        ensures stays { is_fault self.old.state ≡ true → (result ≡ self.old.state) × (self.new ≡ self.old) }
    {
        self.take(user, last)
    }

    /// The message that is whole.
    pub fn message(&self) -> &[u8]
        requires { self.now.state ≡ Joined.Whole }
        ensures { result.now ≡ self.now.octets }
    {
        self.buffer.as_slice()
    }

    /// The number of octets held of a message that isn't whole; 0 if it is whole. After a fault these are the
    /// octets from before it.
    pub fn held(&self) -> usize
        ensures held { result ≡ (if is_whole self.now.state then 0 else length self.now.octets) }
        ensures most { result ≤ self.now.limit }
    {
        match self.state {
            Joined::Whole => 0,
            _ => self.buffer.as_slice().len(),
        }
    }

    /// Whether fragments are held of a message that isn't whole, even if they have no octets. After a fault these
    /// are the fragments from before it.
    pub fn is_open(&self) -> bool
        ensures { result ≡ nat_lt 0 self.now.count }
    {
        self.count > 0
    }

    /// Takes the fragment, or moves to the state of the fault that it shows.
    fn take(&mut self, user: &[u8], last: bool) -> Joined
        ensures answer { result ≡ self.new.state }
        ensures value { self.new ≡ with_fragment self.old (record { last = last; user = user.now }) }
    {
        if self.state == Joined::TooManyFragments || self.state == Joined::TooLong {
            return self.state;
        }
        if self.state == Joined::Whole {
            self.buffer.clear();
        }
        self.state = self.judge(user, last);
        match self.state {
            Joined::Whole => {
                self.buffer.add(user);
                self.count = 0;
            }
            Joined::More => {
                self.buffer.add(user);
                self.count += 1;
            }
            Joined::TooManyFragments | Joined::TooLong => {}
        }
        self.state
    }

    /// What a joiner without a fault answers to this fragment.
    fn judge(&self, user: &[u8], last: bool) -> Joined
        ensures { result ≡ answer_of
            (joined_with self.now.limit self.now.octets self.now.count (record { last = last; user = user.now })) }
    {
        let held = self.buffer.as_slice().len();
        if self.count >= MOST_FRAGMENTS {
            Joined::TooManyFragments
        } else if user.len() > self.buffer.room() - held {
            Joined::TooLong
        } else if last {
            Joined::Whole
        } else {
            Joined::More
        }
    }
}
