//! A link over octets in memory.
ghost use Rattle.std.specs.Prelude.{◌≡◌, ◌≢◌, ◌+◌, ◌<◌, ◌≤◌, [], IsTrue, Some, drop, length, IfOk};
ghost use Rattle.std.specs.Prelude.{is_some, option_map};
ghost use Rattle.std.specs.Option.{ForSome};
ghost use Rattle.std.specs.Io.KnownBytes.{prepend_known, append_known, IsAtEnd};
ghost use Rattle.s7_outer.specs.Calls.{shut_down};
ghost use Rattle.s7_outer.specs.Count.{RoseExactly, raised};
ghost use Rattle.s7_outer.specs.Link.{octets_got, octets_sent, GotWithin, SentWithin, GotCount, SentCount};

use s7_outer::{Buffer, Clock, Got, Link, Memory, Octets, Sent, Tick, raise};
use std::alloc::Global;

/// Gives its input and keeps what is transmitted. A call moves at most a given number of octets. Its clock always
/// gives the same time.
#[derive(Drop)]
pub struct MemoryLink {
    /// The octets to receive, the received ones included.
    input: Octets,
    /// How many octets of the input were received.
    at: usize,
    /// The greatest number of octets that a call moves.
    most: usize,
    /// The octets transmitted so far.
    output: Buffer,
    /// The time that the clock always gives.
    moment: u64,
    faults: u64,
    looks: u64,
    /// How far the link had come when it was shut first, if it was.
    shut: Option<Mark>,
    /// Whether `End` was returned.
    ended: bool,
    ghost in_range: { at ≤ length input },
    ghost some: { 0 < most },
    ghost fits: { length output.octets ≤ output.room },
    ghost ends: { IsTrue ended → drop at input ≡ [] },
    ghost marked: { ForSome shut (λ mark. mark.written ≤ length output.octets) },
}

/// How many octets had been received and transmitted at some time.
#[derive(Clone, Copy)]
struct Mark {
    /// The number of octets received.
    at: usize,
    /// The number of octets transmitted.
    written: usize,
}

impl MemoryLink {
    ghost use Rattle.s7_memory.specs.MemoryLink.{shown_of, unused, most_of, room_of};

    /// A link that gives `input`, moves at most `most` octets a call, has room for `room` octets of output, which
    /// is allocated here, and a clock that always gives `moment`, in milliseconds since 1970. A transmit without
    /// room left is `Failed`. Returns `Memory` if the allocation for the output fails.
    pub fn new(
        alloc: Global,
        input: Octets,
        most: usize,
        room: usize,
        moment: u64,
    ) -> Result<MemoryLink, Memory>
        requires { 0 < most }
        ensures shown { IfOk result (λ link. shown_of link ≡ unused input moment) }
        ensures most { IfOk result (λ link. most_of link ≡ most) }
        ensures room { IfOk result (λ link. room_of link ≡ room) }
    {
        Ok(MemoryLink {
            input,
            at: 0,
            most,
            output: Buffer::new(alloc, room)?,
            moment,
            faults: 0,
            looks: 0,
            shut: None,
            ended: false,
        })
    }

    /// The octets transmitted so far.
    pub fn written(&self) -> &[u8]
        ensures { (shown_of self.now).written ≡ Some result.now }
    {
        self.output.as_slice()
    }

    /// Whether the stream was shut.
    pub fn is_shut(&self) -> bool
        ensures { option_map is_some (shown_of self.now).shut ≡ Some result }
    {
        self.shut.is_some()
    }
}

impl Link for MemoryLink {
    ghost use Rattle.s7_memory.specs.MemoryLink.{shown_of, most_of, room_of, receives, transmits};

    ghost shows = { shown_of };

    /// Receives the next octets: as many as `into` has room for, as one call may move, and as are left. `End` is
    /// returned exactly if none is left. No count changes.
    fn receive(&mut self, into: &mut [u8]) -> Got
        requires { 0 < length into.old }

        ensures count { GotCount Got.End (receives self.old (length into.old)) result }
        ensures within { GotWithin result (length into.old) }
        ensures took { (shown_of self.old).left ≡ prepend_known (octets_got result into.new) (shown_of self.new).left }
        ensures end { result ≡ Got.End → IsAtEnd (shown_of self.old).left × IsTrue (shown_of self.new).has_ended }
        ensures ended { IsTrue (shown_of self.old).has_ended
            → IsTrue (shown_of self.new).has_ended × (octets_got result into.new ≡ []) }
        ensures stays_open { result ≢ Got.End → (shown_of self.new).has_ended ≡ (shown_of self.old).has_ended }
        ensures same { shown_of self.new
            ≡ record (shown_of self.old) {
              left = (shown_of self.new).left;
              has_ended = (shown_of self.new).has_ended;
            } }
        ensures most { most_of self.new ≡ most_of self.old }
        ensures room { room_of self.new ≡ room_of self.old }
    {
        let rest = &self.input.as_slice()[self.at..];
        let count = rest.len().min(self.most).min(into.len());
        if count == 0 {
            self.ended = true;
            return Got::End;
        }
        into[..count].copy_from_slice(&rest[..count]);
        self.at += count;
        Got::Bytes(count)
    }

    /// Keeps the first octets of the piece: as many as it has, as one call may move, and as there is room for.
    /// `Failed` is returned exactly if no room is left, and is counted once.
    fn transmit(&mut self, piece: &[u8]) -> Sent
        requires { 0 < length piece.now }

        ensures count { SentCount Sent.Failed (transmits self.old (length piece.now)) result }
        ensures within { SentWithin result (length piece.now) }
        ensures wrote { (shown_of self.new).written
            ≡ append_known (shown_of self.old).written (octets_sent result piece.now) }
        ensures counted { result ≡ Sent.Failed → (shown_of self.new).faults ≡ raised (shown_of self.old).faults }
        ensures counted_no_other { result ≢ Sent.Failed → (shown_of self.new).faults ≡ (shown_of self.old).faults }
        ensures faults { (shown_of self.old).faults ≤ (shown_of self.new).faults }
        ensures faults_once { (shown_of self.new).faults ≤ (shown_of self.old).faults + 1 }
        ensures same { shown_of self.new
            ≡ record (shown_of self.old) {
              written = (shown_of self.new).written;
              faults = (shown_of self.new).faults;
            } }
        ensures most { most_of self.new ≡ most_of self.old }
        ensures room { room_of self.new ≡ room_of self.old }
    {
        let free = self.output.room() - self.output.as_slice().len();
        let count = piece.len().min(self.most).min(free);
        if count == 0 {
            raise(&mut self.faults);
            return Sent::Failed;
        }
        self.output.add(&piece[..count]);
        Sent::Bytes(count)
    }

    /// Notes that the stream is shut. Octets can still be received, and transmitted while there is room.
    fn shutdown(&mut self)
        ensures shut { shown_of self.new ≡ shut_down (shown_of self.old) }
        ensures most { most_of self.new ≡ most_of self.old }
        ensures room { room_of self.new ≡ room_of self.old }
    {
        if self.shut.is_none() {
            self.shut = Some(Mark {
                at: self.at,
                written: self.output.as_slice().len(),
            });
        }
    }
}

impl Clock for MemoryLink {
    ghost use Rattle.s7_memory.specs.MemoryLink.{shown_of, most_of, room_of};

    /// The time that the clock always gives. The look is counted.
    fn now(&mut self) -> Tick
        ensures at { option_map Tick.At (shown_of self.old).moment ≡ Some result }
        ensures looked { RoseExactly 1 (shown_of self.old).looks (shown_of self.new).looks }
        ensures same { shown_of self.new ≡ record (shown_of self.old) { looks = (shown_of self.new).looks } }
        ensures most { most_of self.new ≡ most_of self.old }
        ensures room { room_of self.new ≡ room_of self.old }
    {
        raise(&mut self.looks);
        Tick::At(self.moment)
    }
}
