//! A link: a stream of octets in each direction, in pieces of any size, and its clock, which gives the time of day.
ghost use Rattle.std.specs.Prelude.{◌≡◌, ◌≢◌, ◌+◌, ◌-◌, ◌<◌, ◌≤◌, ◌↔◌, [], length, IsTrue, IsSome, IfSome, Some};
ghost use Rattle.std.specs.Prelude.{option_map};
ghost use Rattle.std.specs.Io.KnownBytes.{prepend_known, append_known, IsAtEnd};
ghost use Rattle.s7_outer.specs.Shown.{Shown};
ghost use Rattle.s7_outer.specs.Count.{Rose, RoseExactly};
ghost use Rattle.s7_outer.specs.Calls.{shut_down};
ghost use Rattle.s7_outer.specs.Link.{octets_got, octets_sent, GotWithin, SentWithin, TellsMoment};

/// The outcome of a receive.
#[derive(Clone, Copy, Debug, PartialEq, Eq)]
pub enum Got {
    /// This number of octets was received.
    Bytes(usize),
    /// The stream has ended: no octet is left, and none will come.
    End,
    /// No octet has arrived yet.
    NotYet,
    /// The link failed.
    Failed,
}

/// The outcome of a transmit.
#[derive(Clone, Copy, Debug, PartialEq, Eq)]
pub enum Sent {
    /// This number of octets was transmitted.
    Bytes(usize),
    /// The link has no room yet.
    NotYet,
    /// The link failed, or will never have room again.
    Failed,
}

/// The outcome of a look at a clock.
#[derive(Clone, Copy, Debug, PartialEq, Eq)]
pub enum Tick {
    /// The time in milliseconds since 1970.
    At(u64),
    /// The clock failed.
    Failed,
}

/// A stream of octets in each direction. `shows` has its counts, and its octets if the link makes them visible. A
/// link that works on something lent to it, as an end of two pipes does, shows which loan that is. No call changes
/// this, so the lender knows afterwards what became of the loan.
pub trait Link {
    /// What the link makes visible to contracts. No count in it ever falls.
    ghost shows: { Self → Shown };

    /// Receives the next octets into `into`: at least one, and at most its length.
    ///
    /// `End` is returned only if no octet is left, and no octet comes after it. `NotYet` raises `waits`, and
    /// `Failed` raises `faults`. None of the three moves an octet, and only `End` ends the stream. A link that
    /// shows its space returns `NotYet` exactly if no octet is left. What `into` holds after the received octets is
    /// undefined.
    fn receive(&mut self, into: &mut [u8]) -> Got
        requires { 0 < length into.old }

        ensures within { GotWithin result (length into.old) }
        ensures took { (shows self.old).left ≡ prepend_known (octets_got result into.new) (shows self.new).left }
        ensures wrote { (shows self.new).written ≡ (shows self.old).written }

        ensures end { result ≡ Got.End → IsAtEnd (shows self.old).left × IsTrue (shows self.new).has_ended }
        ensures ended { IsTrue (shows self.old).has_ended
            → IsTrue (shows self.new).has_ended × (octets_got result into.new ≡ []) }
        ensures stays_open { result ≢ Got.End → (shows self.new).has_ended ≡ (shows self.old).has_ended }

        ensures failed { result ≡ Got.Failed → Rose (shows self.old).faults (shows self.new).faults }
        ensures not_yet { result ≡ Got.NotYet → Rose (shows self.old).waits (shows self.new).waits }
        ensures nothing_left { IsSome (shows self.old).space
            → (result ≡ Got.NotYet) ↔ ((shows self.old).left ≡ Some []) }
        ensures faults { (shows self.old).faults ≤ (shows self.new).faults }
        ensures waits { (shows self.old).waits ≤ (shows self.new).waits }

        // A count rises by at most one, and only if the answer is the one that it counts.
        ensures faults_once { (shows self.new).faults ≤ (shows self.old).faults + 1 }
        ensures waits_once { (shows self.new).waits ≤ (shows self.old).waits + 1 }
        ensures failed_no_other { result ≢ Got.Failed → (shows self.new).faults ≡ (shows self.old).faults }
        ensures waited_no_other { result ≢ Got.NotYet → (shows self.new).waits ≡ (shows self.old).waits }

        ensures moment { (shows self.new).moment ≡ (shows self.old).moment }
        ensures clock_faults { (shows self.new).clock_faults ≡ (shows self.old).clock_faults }
        ensures looks { (shows self.new).looks ≡ (shows self.old).looks }
        ensures space { (shows self.new).space ≡ (shows self.old).space }
        ensures shut { (shows self.new).shut ≡ (shows self.old).shut }
        ensures lent { (shows self.new).lent ≡ (shows self.old).lent };

    /// Transmits the first octets of the piece, at least one.
    ///
    /// `NotYet` raises `waits`, and `Failed` raises `faults`; neither moves an octet. A link that shows its space
    /// returns `NotYet` exactly if its space is 0.
    fn transmit(&mut self, piece: &[u8]) -> Sent
        requires { 0 < length piece.now }

        ensures within { SentWithin result (length piece.now) }
        ensures took { (shows self.new).left ≡ (shows self.old).left }
        ensures wrote { (shows self.new).written
            ≡ append_known (shows self.old).written (octets_sent result piece.now) }
        ensures ended { (shows self.new).has_ended ≡ (shows self.old).has_ended }

        ensures failed { result ≡ Sent.Failed → Rose (shows self.old).faults (shows self.new).faults }
        ensures not_yet { result ≡ Sent.NotYet → Rose (shows self.old).waits (shows self.new).waits }
        ensures no_space { IfSome (shows self.old).space (λ space. (result ≡ Sent.NotYet) ↔ (space ≡ 0)) }
        ensures faults { (shows self.old).faults ≤ (shows self.new).faults }
        ensures waits { (shows self.old).waits ≤ (shows self.new).waits }

        // A count rises by at most one, and only if the answer is the one that it counts.
        ensures faults_once { (shows self.new).faults ≤ (shows self.old).faults + 1 }
        ensures waits_once { (shows self.new).waits ≤ (shows self.old).waits + 1 }
        ensures failed_no_other { result ≢ Sent.Failed → (shows self.new).faults ≡ (shows self.old).faults }
        ensures waited_no_other { result ≢ Sent.NotYet → (shows self.new).waits ≡ (shows self.old).waits }

        ensures moment { (shows self.new).moment ≡ (shows self.old).moment }
        ensures clock_faults { (shows self.new).clock_faults ≡ (shows self.old).clock_faults }
        ensures looks { (shows self.new).looks ≡ (shows self.old).looks }
        ensures fits { IfSome (shows self.old).space (λ space. length (octets_sent result piece.now) ≤ space) }
        ensures space { (shows self.new).space
            ≡ option_map (λ space. space - length (octets_sent result piece.now)) (shows self.old).space }
        ensures shut { (shows self.new).shut ≡ (shows self.old).shut }
        ensures lent { (shows self.new).lent ≡ (shows self.old).lent };

    /// Shuts the stream, once nothing more is to be sent. The peer gets what was transmitted and then the end, even
    /// if it goes on sending; if the peer is gone already, the call has no effect on it. No octet moves. `shows`
    /// keeps how far the link had come when the stream was shut for the first time, and nothing else of the link
    /// changes.
    fn shutdown(&mut self)
        ensures shut { shows self.new ≡ shut_down (shows self.old) };
}

/// A link that has a clock.
pub trait Clock: Link {
    /// The time in milliseconds since 1970. Each call raises `looks` by one. `Failed` raises `clock_faults`.
    /// Nothing else of the link changes.
    fn now(&mut self) -> Tick
        ensures at { TellsMoment (Self.shows self.old).moment result }
        ensures failed { result ≡ Tick.Failed
            → Rose (Self.shows self.old).clock_faults (Self.shows self.new).clock_faults }
        ensures clock_faults { (Self.shows self.old).clock_faults ≤ (Self.shows self.new).clock_faults }
        ensures faults_once { (Self.shows self.new).clock_faults ≤ (Self.shows self.old).clock_faults + 1 }
        ensures failed_no_other { result ≢ Tick.Failed
            → (Self.shows self.new).clock_faults ≡ (Self.shows self.old).clock_faults }
        ensures looked { RoseExactly 1 (Self.shows self.old).looks (Self.shows self.new).looks }
        ensures same { Self.shows self.new
            ≡ record (Self.shows self.old) {
              clock_faults = (Self.shows self.new).clock_faults;
              looks = (Self.shows self.new).looks;
            } };
}
