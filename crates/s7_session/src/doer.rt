//! Who carries out what a link's telegrams ask.
ghost use Rattle.std.specs.Prelude.{◌≡◌, ℕ, List, [], ◌∷◌, ◌++◌, Option, None, Some, Err, IfOk, OnOk, OnErr, IsErr};
ghost use Rattle.s7_plant.specs.declared.request.Ask.{Ask};
ghost use Rattle.s7_plant.specs.Requests.{CanBeDone, Fits, kept};
ghost use Rattle.s7_plant.specs.Replies.{Said, IsReadyReply, said_of};
ghost use Rattle.s7_session.specs.Doers.{StaysFull};
ghost use Rattle.s7_session.specs.Entry.{Entry};

use s7_plant::{Ask, Reply};
use std::alloc::Global;

/// Why a request wasn't carried out. It is handed back.
#[derive(Drop)]
pub enum NotDone {
    /// The history has no room for one more entry.
    Full(Ask),
    /// An allocation failed.
    Memory(Ask),
}

/// Carries out what links ask, and enters each request in a history.
pub trait Doer {
    /// The lists of its own entries, in order, that the doer represents.
    ghost stands: { Self → List Entry → Type 0 };

    /// The requests for which it is full.
    ghost is_full: { Self → Ask → Type 0 };

    /// The requests for which an allocation may fail.
    ghost may_lack: { Self → Ask → Type 0 };

    /// What no call changes, for instance a limit or an opening state.
    ghost keeps: { Self → Self → Type 0 };

    /// What the doer does with a request, as a history keeps it: it enters the request under a number with a reply, or
    /// doesn't enter it (`None`). A doer of more than one history says here what each of them gained.
    ghost did: { Self → Ask → Option (ℕ × Said) → Self → Type 0 } = { λ _ _ _ _. Unit {0} };

    /// Carries out `ask`, appends it to the history and returns the number of its entry; `reply` then holds the answer.
    /// On failure the doer's entries and `reply` are unchanged and `ask` is handed back: in `Full` if there is no room
    /// for it, in `Memory` if an allocation failed. A doer that was full for `ask` before the call always fails.
    fn act(&mut self, alloc: Global, ask: Ask, reply: &mut Reply) -> Result<u64, NotDone>
        requires request { CanBeDone ask.request }
        requires reply { IsReadyReply reply.old }

        // Whatever list the doer represented, it now represents that list with one more entry.
        ensures ok { IfOk result (λ number. (entries : List Entry) → stands self.old entries
            → stands self.new
            (entries ++ record { number = number; ask = kept ask; reply = said_of reply.new } ∷ [])) }
        ensures err { OnErr result ((entries : List Entry) → stands self.old entries → stands self.new entries) }

        ensures ready { IsReadyReply reply.new }
        // If the reply has no error, its answer has at most its full size.
        ensures fits { OnOk result (Fits ask.request (said_of reply.new)) }
        ensures err_reply { OnErr result (reply.new ≡ reply.old) }

        // It fails only if it is full for the request as a history keeps it, or if an allocation for it may fail. It
        // always fails if it was full for it before.
        ensures full { (back : Ask) → result ≡ Err (NotDone.Full back)
            → (back ≡ ask) × is_full self.new (kept ask) }
        ensures lacked { (back : Ask) → result ≡ Err (NotDone.Memory back)
            → (back ≡ ask) × may_lack self.old (kept ask) }
        ensures was_full { is_full self.old (kept ask) → IsErr result }
        ensures stays_full { StaysFull is_full self.old self.new }
        ensures kept { keeps self.old self.new }

        // What it did with a request that it entered, and with one that it didn't enter.
        ensures entered { IfOk result (λ number.
            did self.old (kept ask) (Some (number, said_of reply.new)) self.new) }
        ensures refused { OnErr result (did self.old (kept ask) None self.new) };

    ghost keeps_same: { (d : Self) → keeps d d };

    ghost keeps_both: { (a b c : Self) → keeps a b → keeps b c → keeps a c };
}
