//! Tests of the objects of the machine over an output and a clock that fail.
use crate::files::{has_text, is_removed};
use crate::rows::all_hold;
use s7_os::{RealLink, StdOut};
use s7_outer::{Clock as LinkClock, Link, Out, Sent, Tick};
use std::alloc::Allocator;
use std::fmt::Display;
use std::io::{ErrorKind, Input, Lines};
use std::rt::Clock;
use std::time::Duration;
use std::{fs, io};

/// A runtime whose clock shows a moment, or fails without one, and whose standard output is a file.
#[derive(Drop)]
struct Feigned {
    rt: HostRuntime,
    moment: Option<Duration>,
    output: &'static str,
}

impl Print for Feigned {
    fn print<D: Display + Drop>(&self, _value: D) -> io::Result<()> {
        Err(io::Error::from(ErrorKind::Unsupported))
    }

    fn println<D: Display + Drop>(&self, _value: D) -> io::Result<()> {
        Err(io::Error::from(ErrorKind::Unsupported))
    }

    fn write_all(&self, bytes: &[u8]) -> io::Result<()> {
        fs::write(&self.rt, self.output, bytes)
    }
}

impl Input for Feigned {
    type Reader = <HostRuntime as Input>::Reader;

    fn read_line<A: Allocator + Clone>(&self, buf: &mut String<A>) -> io::Result<usize> {
        self.rt.read_line(buf)
    }

    fn lines<A: Allocator>(&self, alloc: A) -> Lines<<HostRuntime as Input>::Reader, A> {
        self.rt.lines(alloc)
    }

    fn reader(&self) -> <HostRuntime as Input>::Reader {
        self.rt.reader()
    }
}

impl Clock for Feigned {
    fn monotonic(&self) -> io::Result<Duration> {
        self.rt.monotonic()
    }

    fn since_1970(&self) -> io::Result<Duration> {
        self.moment.ok_or(io::Error::from(ErrorKind::InvalidData))
    }
}

/// The device that refuses every octet that is written to it.
const FULL: &str = "/dev/full";

/// A file that takes octets.
const SCRATCH: &str = "s7_machine_output";

/// Reports whether a put to an output succeeds.
fn is_put(out: &mut StdOut<Feigned>) -> bool {
    out.put(b"abc").is_ok()
}

/// Reports whether puts to an output, which is this file, succeed as the answers say, one after another.
fn puts(rt: &HostRuntime, output: &'static str, answers: &[bool]) -> bool {
    let mut out = StdOut::new(Feigned {
        rt: *rt,
        moment: None,
        output,
    });
    for answer in answers {
        if is_put(&mut out) != *answer {
            return false;
        }
    }
    true
}

/// A link over the standard streams of a runtime with this moment, whose output is a full device.
fn a_link(rt: &HostRuntime, moment: Option<Duration>) -> Option<RealLink<Feigned>> {
    let feigned = Feigned {
        rt: *rt,
        moment,
        output: FULL,
    };
    RealLink::standard(rt.alloc(), feigned).ok()
}

/// The answer of a link to a transmit.
fn transmit(link: &mut RealLink<Feigned>) -> Sent {
    link.transmit(b"abc")
}

/// The answer of a link over a full device to a transmit.
fn transmitted(rt: &HostRuntime) -> Option<Sent> {
    Some(transmit(&mut a_link(rt, None)?))
}

/// What an object of the machine does.
enum Act {
    /// Puts to an output, which is this file, succeed as the answers say, one after another.
    Puts(&'static str, &'static [bool]),
    /// A file has this text, and is removed.
    IsTaken(&'static str, &'static [u8]),
    /// A transmit of a link over a full device has this answer.
    Transmits(Sent),
    /// The clock of a link shows these seconds and nanoseconds since 1970, or none before 1970, and the moment of the
    /// link in milliseconds is this one, or there is none and its clock fails.
    Shows(Option<(u64, u32)>, Option<u64>),
}

/// The acts, one after another.
const ACTS: &[Act] = &[
    Act::Puts(FULL, &[false, false]),
    Act::Puts(SCRATCH, &[true]),
    Act::IsTaken(SCRATCH, b"abc"),
    Act::Transmits(Sent::Failed),
    Act::Shows(Some((0, 0)), Some(0)),
    Act::Shows(Some((0, 1_999_999)), Some(1)),
    Act::Shows(Some((1_709_214_330, 123_999_999)), Some(1_709_214_330_123)),
    Act::Shows(Some((9_223_372_036_854_775_807, 0)), None),
    Act::Shows(None, None),
];

/// A duration.
fn time_of(seconds: u64, nanos: u32) -> Duration {
    Duration::from_secs(seconds).saturating_add(Duration::from_nanos(u64::from(nanos)))
}

/// The time since 1970 of these seconds and nanoseconds, if there are any.
fn since_1970(since: &Option<(u64, u32)>) -> Option<Duration> {
    match since {
        Some((seconds, nanos)) => Some(time_of(*seconds, *nanos)),
        None => None,
    }
}

/// The moment of a link.
fn now(link: &mut RealLink<Feigned>) -> Tick {
    link.now()
}

/// The moment of a link whose clock shows these seconds and nanoseconds, or a moment before 1970.
fn moment_of(rt: &HostRuntime, since: &Option<(u64, u32)>) -> Option<Tick> {
    Some(now(&mut a_link(rt, since_1970(since))?))
}

/// Reports whether a link's clock shows this moment, or fails if there is none.
fn has_moment(rt: &HostRuntime, since: &Option<(u64, u32)>, wanted: &Option<u64>) -> bool {
    match (moment_of(rt, since), wanted) {
        (Some(Tick::At(moment)), Some(wanted)) => moment == *wanted,
        (Some(Tick::Failed), None) => true,
        _ => false,
    }
}

/// Reports whether an act goes so.
fn goes(rt: &HostRuntime, act: &Act) -> bool {
    match act {
        Act::Puts(path, answers) => puts(rt, path, answers),
        Act::IsTaken(path, text) => has_text(rt, path, text) && is_removed(rt, path),
        Act::Transmits(sent) => transmitted(rt) == Some(*sent),
        Act::Shows(since, moment) => has_moment(rt, since, moment),
    }
}

/// The number of the first act that doesn't go so.
fn unmet(rt: &HostRuntime, acts: &[Act]) -> Option<usize> {
    for (number, act) in acts.iter().enumerate() {
        if !goes(rt, act) {
            return Some(number);
        }
    }
    None
}

/// Outputs and links over a full device fail, and so do clocks before 1970.
///
/// A test can't make the standard output of its process fail. `tools/full-output` runs the programs over a full device.
/// Nor can a test set the clock of the machine. The clock of a runtime fails before 1970.
#[test]
fn outputs_and_links_to_a_full_device_and_clocks_before_1970_fail(rt: HostRuntime) {
    all_hold(&rt, unmet(&rt, ACTS));
}
