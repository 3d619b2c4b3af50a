//! A dial over TCP.
ghost use Rattle.std.specs.Prelude.{◌≡◌};

use crate::RealLink;
use s7_outer::{Dial, Dialled, raise};
use std::io;
use std::io::Input;
use std::net::{Net, TcpStream};
use std::rt::Clock as SystemClock;
use std::time::Duration;

/// The longest wait of a call on a dialled stream, in milliseconds.
const WAIT_MILLISECONDS: u64 = 100;

/// Connects to any host over TCP. Contracts don't see its links in advance. On a link that it gives a receive
/// returns `NotYet` after 100 milliseconds without an octet, and a transmit after 100 milliseconds without room for
/// one.
#[derive(Drop)]
pub struct TcpDial<R> {
    rt: R,
    faults: u64,
    calls: u64,
}

impl<R: Net<Stream = TcpStream> + Drop> TcpDial<R> {
    ghost use Rattle.s7_os.specs.TcpDial.{call_count, fault_count};

    /// A dial over this runtime.
    pub fn new(rt: R) -> TcpDial<R>
        ensures faultless { fault_count result ≡ 0 }
        ensures uncalled { call_count result ≡ 0 }
    {
        TcpDial {
            rt,
            faults: 0,
            calls: 0,
        }
    }
}

impl<R> Dial<RealLink<R>> for TcpDial<R>
where
    R: Net<Stream = TcpStream> + Input + Print + SystemClock + Clone + Drop,
{
    ghost use Rattle.s7_os.specs.TcpDial.{tcp_dial_of};

    ghost shows = { tcp_dial_of };

    fn call(&mut self, host: &str, port: u16) -> Dialled<RealLink<R>> {
        raise(&mut self.calls);
        match connect(&self.rt, host, port) {
            Ok(link) => Dialled::Link(link),
            Err(_) => {
                raise(&mut self.faults);
                Dialled::Failed
            }
        }
    }
}

/// Connects to the port and sets both timeouts of the stream.
fn connect<R>(rt: &R, host: &str, port: u16) -> io::Result<RealLink<R>>
where
    R: Net<Stream = TcpStream> + Input + Print + SystemClock + Clone + Drop,
{
    let stream = TcpStream::connect(rt, (host, port))?;
    let wait = Some(Duration::from_millis(WAIT_MILLISECONDS));
    stream.set_read_timeout(wait)?;
    stream.set_write_timeout(wait)?;
    RealLink::stream(rt.clone()?, stream)
}
