//! What a hall keeps for its links.
ghost use Rattle.std.specs.Prelude.{◌≡◌, ℕ, List, length};
ghost use Rattle.std.proofs.Common.{map, refl, ap, subst};
ghost use Rattle.s7_turn.specs.Histories.{replay};
ghost use Rattle.s7_plant.specs.declared.reply.Reply.{Reply};
ghost use Rattle.s7_plant.specs.declared.request.Ask.{Ask};
ghost use Rattle.s7_plant.specs.Answers.{IsReplyOf};
ghost use Rattle.s7_plant.specs.BookLaws.{plant_of_replay};
ghost use Rattle.s7_plant.specs.Books.{BookState, book_state, seen_of};
ghost use Rattle.s7_plant.specs.Journals.{after_call};
ghost use Rattle.s7_plant.specs.Observers.{fresh};
ghost use Rattle.s7_plant.specs.Replies.{IsReadyReply};
ghost use Rattle.s7_plant.specs.Requests.{CanBeDone, kept};
ghost use Rattle.s7_plant.specs.State.{State, state_of};
ghost use Rattle.s7_session.specs.Books.{History};

use s7_plant::{Ask, Book, Observer, Reply};
use s7_turn::Machine;

/// A machine that carries out what links ask of a plant. Its answers and its changes depend on the plant's states
/// alone, whatever else it keeps.
pub trait Keeper: Machine<Request = Ask, Reply = Reply> {
    /// The plant's state before the first entry.
    ghost opened: { Self → State };

    /// The number of entries in its history.
    fn entries(&self) -> u64
        ensures { result ≡ length (Self.history self.now) };

    // machines with the same opening have the same state of the plant at the opening
    ghost opens: { (a b : Self) → Self.opening a ≡ Self.opening b → opened a ≡ opened b };

    // its history keeps the same of a request as a plant's history
    ghost keeps_asks: { (ask : Ask) → Self.kept ask ≡ kept ask };

    // it accepts every request that a plant accepts
    ghost takes: { (ask : Ask) → CanBeDone ask.request → Self.request_ready ask };

    ghost takes_replies: { (reply : Reply) → IsReadyReply reply → Self.reply_ready reply };

    ghost leaves_replies: { (reply : Reply) → Self.reply_ready reply → IsReadyReply reply };

    // after a history it answers as a plant answers that began at this state
    ghost answers: { (k : Self) (history : History) (caller : ℕ) (ask : Ask) (reply : Reply)
        → Self.gives (replay Self.after (Self.opening k) history) caller ask reply
        → IsReplyOf (replay after_call (opened k) history) ask reply };
}

impl<O: Observer> Keeper for Book<O> {
    ghost opened = { λ book. state_of book.opening };

    fn entries(&self) -> u64 {
        Machine::len(self)
    }

    ghost opens = { λ a b same. ap (λ (s : BookState). s.plant) same };

    ghost keeps_asks = { λ ask. refl };

    ghost takes = { λ ask can. can };

    ghost takes_replies = { λ reply is. is };

    ghost leaves_replies = { λ reply is. is };

    ghost answers = { λ k history caller ask reply given.
        subst (λ s. IsReplyOf s ask reply) (plant_of_replay
        (book_state (state_of k.opening) 0 (map fresh (seen_of O.seen k))) history) given };
}
