//! A link over the machine: its standard streams, or one TCP stream.
ghost use Rattle.std.specs.Prelude.{◌≡◌, IfOk};

use s7_outer::{Clock, Got, Link, Memory, Sent, Tick, raise};
use std::alloc::Global;
use std::io;
use std::io::{ErrorKind, Input, Read, Write};
use std::net::{Shutdown, TcpStream};
use std::rt::Clock as SystemClock;
use std::time::SystemTime;

/// The standard input and output, or one TCP stream, with the machine's clock. Contracts see neither its octets nor
/// its time, only its counts.
#[derive(Drop)]
pub struct RealLink<R: Input> {
    rt: R,
    /// The streams of the link.
    ends: Ends<R>,
    /// Whether the stream has ended.
    ended: bool,
    /// Whether this side shut the stream.
    shut: bool,
    faults: u64,
    waits: u64,
    clock_faults: u64,
    looks: u64,
}

/// The streams of a link. The reader is boxed because it has a buffer of 8 KiB, which a TCP stream doesn't need.
#[derive(Drop)]
enum Ends<R: Input> {
    /// The standard input, through its reader, and the standard output.
    Standard(Box<R::Reader>),
    /// One TCP stream.
    Stream(TcpStream),
}

impl<R: Input + Print + SystemClock + Drop> RealLink<R> {
    ghost use Rattle.s7_os.specs.RealLink.{real_of, unused_real};

    /// A link over the standard input and output. Returns `Memory` if the allocation of the reader fails.
    pub fn standard(alloc: Global, rt: R) -> Result<RealLink<R>, Memory>
        ensures { IfOk result (λ link. real_of link ≡ unused_real) }
    {
        match Box::new(alloc, rt.reader()) {
            Ok(reader) => Ok(RealLink::over(rt, Ends::Standard(reader))),
            Err(_) => Err(Memory),
        }
    }

    /// A link over one TCP stream, set to send small packets at once. Returns the stream's error if it refuses this
    /// setting.
    pub fn stream(rt: R, stream: TcpStream) -> io::Result<RealLink<R>>
        ensures { IfOk result (λ link. real_of link ≡ unused_real) }
    {
        stream.set_nodelay(true)?;
        Ok(RealLink::of_stream(rt, stream))
    }

    /// A link over a TCP stream that sends small packets at once already.
    pub(crate) fn of_stream(rt: R, stream: TcpStream) -> RealLink<R>
        ensures { real_of result ≡ unused_real }
    {
        RealLink::over(rt, Ends::Stream(stream))
    }

    /// A link over these streams, with all counts 0.
    fn over(rt: R, ends: Ends<R>) -> RealLink<R>
        ensures { real_of result ≡ unused_real }
    {
        RealLink {
            rt,
            ends,
            ended: false,
            shut: false,
            faults: 0,
            waits: 0,
            clock_faults: 0,
            looks: 0,
        }
    }
}

/// Whether the call may be tried again. On Linux a read whose timeout expired gives `WouldBlock`; `TimedOut` is the
/// end of a connection whose peer no longer answers.
fn is_wait(error: &io::Error) -> bool {
    matches!(error.kind(), ErrorKind::WouldBlock | ErrorKind::Interrupted)
}

impl<R: Input + Print + SystemClock + Drop> Link for RealLink<R> {
    ghost use Rattle.s7_os.specs.RealLink.{real_of};

    ghost shows = { real_of };

    fn receive(&mut self, into: &mut [u8]) -> Got {
        if self.ended {
            return Got::End;
        }
        let read = match &mut self.ends {
            Ends::Standard(reader) => reader.read(into),
            Ends::Stream(stream) => stream.read(into),
        };
        match read {
            Ok(0) => {
                self.ended = true;
                Got::End
            }
            Ok(count) => Got::Bytes(count),
            Err(error) => {
                if is_wait(&error) {
                    raise(&mut self.waits);
                    Got::NotYet
                } else {
                    raise(&mut self.faults);
                    Got::Failed
                }
            }
        }
    }

    fn transmit(&mut self, piece: &[u8]) -> Sent {
        let written = match &mut self.ends {
            Ends::Standard(_) => io::writer(&self.rt).write(piece),
            Ends::Stream(stream) => stream.write(piece),
        };
        match written {
            Ok(0) => {
                raise(&mut self.faults);
                Sent::Failed
            }
            Ok(count) => Sent::Bytes(count),
            Err(error) => {
                if is_wait(&error) {
                    raise(&mut self.waits);
                    Sent::NotYet
                } else {
                    raise(&mut self.faults);
                    Sent::Failed
                }
            }
        }
    }

    /// Shuts the TCP stream for sending. Standard streams end with the program. An error is ignored, since it means
    /// that the connection is gone.
    fn shutdown(&mut self) {
        if let Ends::Stream(stream) = &self.ends {
            let _ = stream.shutdown(Shutdown::Write);
        }
        if !self.shut {
            self.shut = true;
        }
    }
}

impl<R: Input + Print + SystemClock + Drop> Clock for RealLink<R> {
    fn now(&mut self) -> Tick {
        raise(&mut self.looks);
        match milliseconds(&self.rt) {
            Some(moment) => Tick::At(moment),
            None => {
                raise(&mut self.clock_faults);
                Tick::Failed
            }
        }
    }
}

/// The time of day in milliseconds since 1970; `None` if the clock is before 1970.
fn milliseconds(clock: &impl SystemClock) -> Option<u64> {
    let now = SystemTime::now(clock).ok()?;
    let since = now.duration_since(SystemTime::UNIX_EPOCH).ok()?;
    u64::try_from(since.as_millis()).ok()
}
