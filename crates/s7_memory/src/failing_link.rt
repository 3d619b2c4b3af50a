//! A link whose calls fail or wait by a list of fates.
ghost use Rattle.std.specs.Prelude.{◌≡◌, ◌≢◌, ◌<◌, length, drop};
ghost use Rattle.s7_outer.specs.Calls.{IsReceive, IsTransmit, IsLook, shut_down};
ghost use Rattle.s7_outer.specs.Count.{raised};

use s7_outer::{Clock, Got, Link, Sent, Tick, raise};

/// What is to happen to one call.
#[derive(Clone, Copy, Debug, PartialEq, Eq)]
pub enum Fate {
    /// The call goes through to the link inside.
    Pass,
    /// The call returns `NotYet`. A look at the clock goes through.
    NotYet,
    /// The call returns `Failed`.
    Fail,
}

/// A link whose k-th call takes the k-th fate; calls of all kinds are counted together. Calls after the last fate
/// go through.
#[derive(Drop)]
pub struct FailingLink<L: Link> {
    /// The link inside.
    inner: L,
    /// The fates of all calls, those that are used included.
    fates: Vec<Fate>,
    /// The number of fates that are used.
    at: usize,
    /// How many calls failed by their fate.
    failed: u64,
    /// How many calls waited by their fate.
    waited: u64,
    /// How many looks at the clock failed by their fate.
    clock_failed: u64,
}

impl<L: Link> FailingLink<L> {
    ghost use Rattle.s7_memory.specs.FailingLink.{inner_of, fates_left, next_fate, counted_of, none_counted};

    /// Wraps the link, with these fates for its calls. Its counts begin at those of the link inside.
    pub fn new(inner: L, fates: Vec<Fate>) -> FailingLink<L>
        ensures inner { inner_of result ≡ inner }
        ensures fates { fates_left result ≡ fates.items }
        ensures counted { counted_of result ≡ none_counted }
    {
        FailingLink {
            inner,
            fates,
            at: 0,
            failed: 0,
            waited: 0,
            clock_failed: 0,
        }
    }

    /// The link inside.
    pub fn inner(&self) -> &L
        ensures { result.now ≡ inner_of self.now }
    {
        &self.inner
    }

    /// Takes the next fate out of the list; `Pass` if none is left.
    fn fate(&mut self) -> Fate
        ensures fate { result ≡ next_fate (fates_left self.old) }
        ensures fates { fates_left self.new ≡ drop 1 (fates_left self.old) }
        ensures inner { self.new.inner ≡ self.old.inner }
        ensures failed { self.new.failed ≡ self.old.failed }
        ensures waited { self.new.waited ≡ self.old.waited }
        ensures clock_failed { self.new.clock_failed ≡ self.old.clock_failed }
    {
        if self.at < self.fates.len() {
            let fate = self.fates[self.at];
            self.at += 1;
            fate
        } else {
            Fate::Pass
        }
    }
}

impl<L: Link> Link for FailingLink<L> {
    ghost use Rattle.s7_memory.specs.FailingLink.{inner_of, fates_left, next_fate, counted_of, with_counted};

    ghost shows = { λ f. with_counted (counted_of f) (L.shows (inner_of f)) };

    /// Takes the next fate. If it is `Pass`, this is the receive of the link inside; else that link isn't called.
    fn receive(&mut self, into: &mut [u8]) -> Got
        requires { 0 < length into.old }

        ensures call { IsReceive (with_counted (counted_of self.old) (L.shows (inner_of self.old)))
            (with_counted (counted_of self.new) (L.shows (inner_of self.new))) into.old into.new result }
        ensures fates { fates_left self.new ≡ drop 1 (fates_left self.old) }
        ensures passes { next_fate (fates_left self.old) ≡ Fate.Pass
            → (counted_of self.new ≡ counted_of self.old)
            × IsReceive (L.shows (inner_of self.old)) (L.shows (inner_of self.new)) into.old into.new result }
        ensures not_yet { next_fate (fates_left self.old) ≡ Fate.NotYet
            → (result ≡ Got.NotYet) × (inner_of self.new ≡ inner_of self.old) × (into.new ≡ into.old)
            × (counted_of self.new ≡ record (counted_of self.old) { waits = raised (counted_of self.old).waits }) }
        ensures fails { next_fate (fates_left self.old) ≡ Fate.Fail
            → (result ≡ Got.Failed) × (inner_of self.new ≡ inner_of self.old) × (into.new ≡ into.old)
            × (counted_of self.new ≡ record (counted_of self.old) { faults = raised (counted_of self.old).faults }) }
    {
        match self.fate() {
            Fate::Pass => self.inner.receive(into),
            Fate::NotYet => {
                raise(&mut self.waited);
                Got::NotYet
            }
            Fate::Fail => {
                raise(&mut self.failed);
                Got::Failed
            }
        }
    }

    /// Takes the next fate. If it is `Pass`, this is the transmit of the link inside; else that link isn't called.
    fn transmit(&mut self, piece: &[u8]) -> Sent
        requires { 0 < length piece.now }

        ensures call { IsTransmit (with_counted (counted_of self.old) (L.shows (inner_of self.old)))
            (with_counted (counted_of self.new) (L.shows (inner_of self.new))) piece.now result }
        ensures fates { fates_left self.new ≡ drop 1 (fates_left self.old) }
        ensures passes { next_fate (fates_left self.old) ≡ Fate.Pass
            → (counted_of self.new ≡ counted_of self.old)
            × IsTransmit (L.shows (inner_of self.old)) (L.shows (inner_of self.new)) piece.now result }
        ensures not_yet { next_fate (fates_left self.old) ≡ Fate.NotYet
            → (result ≡ Sent.NotYet) × (inner_of self.new ≡ inner_of self.old)
            × (counted_of self.new ≡ record (counted_of self.old) { waits = raised (counted_of self.old).waits }) }
        ensures fails { next_fate (fates_left self.old) ≡ Fate.Fail
            → (result ≡ Sent.Failed) × (inner_of self.new ≡ inner_of self.old)
            × (counted_of self.new ≡ record (counted_of self.old) { faults = raised (counted_of self.old).faults }) }
    {
        match self.fate() {
            Fate::Pass => self.inner.transmit(piece),
            Fate::NotYet => {
                raise(&mut self.waited);
                Sent::NotYet
            }
            Fate::Fail => {
                raise(&mut self.failed);
                Sent::Failed
            }
        }
    }

    /// Shuts the link inside. Takes no fate.
    fn shutdown(&mut self)
        ensures shut { with_counted (counted_of self.new) (L.shows (inner_of self.new))
            ≡ shut_down (with_counted (counted_of self.old) (L.shows (inner_of self.old))) }
        ensures fates { fates_left self.new ≡ fates_left self.old }
        ensures counted { counted_of self.new ≡ counted_of self.old }
        ensures inner { L.shows (inner_of self.new) ≡ shut_down (L.shows (inner_of self.old)) }
    {
        self.inner.shutdown();
    }
}

impl<L: Link + Clock> Clock for FailingLink<L> {
    ghost use Rattle.s7_memory.specs.FailingLink.{inner_of, fates_left, next_fate, counted_of, with_counted};

    /// Takes the next fate. If it is `Fail`, the link inside isn't called; else this is the look at its clock.
    fn now(&mut self) -> Tick
        ensures call { IsLook (with_counted (counted_of self.old) (L.shows (inner_of self.old)))
            (with_counted (counted_of self.new) (L.shows (inner_of self.new))) result }
        ensures fates { fates_left self.new ≡ drop 1 (fates_left self.old) }
        ensures passes { next_fate (fates_left self.old) ≢ Fate.Fail
            → (counted_of self.new ≡ counted_of self.old)
            × IsLook (L.shows (inner_of self.old)) (L.shows (inner_of self.new)) result }
        ensures fails { next_fate (fates_left self.old) ≡ Fate.Fail
            → (result ≡ Tick.Failed) × (inner_of self.new ≡ inner_of self.old)
            × (counted_of self.new
            ≡ record (counted_of self.old) { clock_faults = raised (counted_of self.old).clock_faults }) }
    {
        match self.fate() {
            Fate::Pass | Fate::NotYet => self.inner.now(),
            Fate::Fail => {
                raise(&mut self.clock_failed);
                Tick::Failed
            }
        }
    }
}
