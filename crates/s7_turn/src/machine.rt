//! The trait of the machines that a hall serves.
ghost use Rattle.std.specs.Prelude.{◌≡◌, ◌<◌, ℕ, List, [], ◌∷◌, ◌++◌, length, MatchResult};
ghost use Rattle.s7_turn.specs.declared.view.Entry.{Entry};
ghost use Rattle.s7_turn.specs.Histories.{entry, replay};

/// A state that requests change one by one, with the history of the requests that it carried out.
///
/// A hall returns a machine whose state is the replay of its history. So an impl puts into `State` all that is to be
/// known of the machine that is returned.
pub trait Machine {
    /// What callers ask.
    type Request;

    /// What they are answered.
    type Reply;
    // The state to which a history leads.
    ghost State: { Type 0 };

    // The state before the first entry.
    ghost opening: { Self → State };

    ghost history: { Self → List (Entry Self.Request) };

    // The history's greatest length.
    ghost limit: { Self → ℕ };

    ghost state: { Self → State };

    // The state after one more entry.
    ghost after: { State → Entry Self.Request → State };

    // What the history keeps of a request.
    ghost kept: { Self.Request → Self.Request };

    ghost request_ready: { Self.Request → Type 0 };

    ghost reply_ready: { Self.Reply → Type 0 };

    // The reply that a state may give to a caller's request, as the history keeps it.
    ghost gives: { State → ℕ → Self.Request → Self.Reply → Type 0 };

    // What else each step preserves, of a machine whose type doesn't say it.
    ghost holds: { Self → Type 0 } = { λ _. Unit {0} };

    /// The number of entries in the history.
    fn len(&self) -> u64
        ensures { result ≡ length (history self.now) };

    /// Carries out the request and returns its number in the history, counted from 0. Hands the request back if the
    /// history has its greatest length; then nothing changes.
    fn step(
        &mut self,
        caller: u32,
        request: Self::Request,
        reply: &mut Self::Reply,
    ) -> Result<u64, Self::Request>
        requires request { request_ready request }
        requires reply { reply_ready reply.old }
        ensures fixed { (opening self.new ≡ opening self.old) × (limit self.new ≡ limit self.old) }
        ensures reply { reply_ready reply.new }
        ensures replayed { state self.old ≡ replay after (opening self.old) (history self.old)
            → state self.new ≡ replay after (opening self.new) (history self.new) }
        ensures holds { holds self.old → holds self.new }
        ensures step { MatchResult result
            (λ n. (n ≡ length (history self.old)) × (n < limit self.old)
            × (history self.new ≡ history self.old ++ entry caller (kept request) ∷ [])
            × gives (state self.old) caller (kept request) reply.new)
            (λ r. (r ≡ request) × (length (history self.old) ≡ limit self.old)
            × (self.new ≡ self.old) × (reply.new ≡ reply.old)) };
}
