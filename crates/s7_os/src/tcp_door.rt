//! A door over TCP.
ghost use Rattle.std.specs.Prelude.{◌≡◌, ◌≢◌, ◌≤◌};
ghost use Rattle.s7_outer.specs.Count.{raised};

use crate::RealLink;
use s7_outer::{Arrival, Door, DoorFailed, raise};
use std::io;
use std::io::{ErrorKind, Input};
use std::net::{Ipv4Addr, Net, TcpListener, TcpStream};
use std::rt::Clock as SystemClock;

/// Errors of `accept(2)` on Linux that belong to the new connection alone: its peer gave it up, or the network lost
/// it, before it was accepted. They are ENONET, EPROTO, ENOPROTOOPT, EOPNOTSUPP, ENETDOWN, ENETUNREACH,
/// ECONNABORTED, ECONNRESET, EHOSTDOWN and EHOSTUNREACH.
const ERRORS_OF_ONE: [i32; 10] = [64, 71, 92, 95, 100, 101, 103, 104, 112, 113];

/// Listens on a port of 127.0.0.1 over TCP. Contracts don't see its links in advance, and it never ends. A connection
/// is ignored if it fails before it is accepted, or if its stream can't be set to send small packets at once. The
/// door fails if it is out of descriptors or memory.
#[derive(Drop)]
pub struct TcpDoor<R> {
    rt: R,
    /// The listener of the port, if the door listens on one.
    listener: Option<TcpListener>,
    /// The port of the last `listen`; 0 before the first.
    port: u16,
    listens: u64,
    faults: u64,
}

impl<R: Net<Listener = TcpListener, Stream = TcpStream> + Drop> TcpDoor<R> {
    ghost use Rattle.s7_os.specs.TcpDoor.{port_of, listen_count, fault_count};

    /// A door over this runtime, which listens on no port yet.
    pub fn new(rt: R) -> TcpDoor<R>
        ensures port { port_of result ≡ 0 }
        ensures listens { listen_count result ≡ 0 }
        ensures faults { fault_count result ≡ 0 }
    {
        TcpDoor {
            rt,
            listener: None,
            port: 0,
            listens: 0,
            faults: 0,
        }
    }
}

impl<R> Door<RealLink<R>> for TcpDoor<R>
where
    R: Net<Listener = TcpListener, Stream = TcpStream> + Input + Print + SystemClock + Clone + Drop,
{
    ghost use Rattle.s7_os.specs.TcpDoor.{tcp_door_of, port_of, listen_count, fault_count};

    ghost shows = { tcp_door_of };

    fn listen(&mut self, port: u16) -> Result<(), DoorFailed> {
        self.port = port;
        self.listener = None;
        raise(&mut self.listens);
        match TcpListener::bind(&self.rt, (Ipv4Addr::LOCALHOST, port)) {
            Ok(listener) => {
                self.listener = Some(listener);
                Ok(())
            }
            Err(_) => {
                raise(&mut self.faults);
                Err(DoorFailed)
            }
        }
    }

    /// Waits for the next connection. Never returns `End`.
    fn next(&mut self) -> Arrival<RealLink<R>>
        ensures never_ends { result ≢ Arrival.End }
        ensures heard { port_of self.new ≡ port_of self.old }
        ensures listened { listen_count self.new ≡ listen_count self.old }
        ensures counted { result ≡ Arrival.Failed → fault_count self.new ≡ raised (fault_count self.old) }
        ensures counted_no_other { result ≢ Arrival.Failed → fault_count self.new ≡ fault_count self.old }
        ensures faults { fault_count self.old ≤ fault_count self.new }
    {
        match accept(&self.listener, &self.rt) {
            Some(link) => Arrival::Link(link),
            None => {
                raise(&mut self.faults);
                Arrival::Failed
            }
        }
    }
}

/// Accepts the next stream, as a link; `None` if that fails.
fn accept<R>(listener: &Option<TcpListener>, rt: &R) -> Option<RealLink<R>>
where
    R: Input + Print + SystemClock + Clone + Drop,
{
    let rt = rt.clone().ok()?;
    let stream = accepted(listener.as_ref()?).ok()?;
    Some(RealLink::of_stream(rt, stream))
}

/// Accepts the next stream that can be set to send small packets at once.
fn accepted(listener: &TcpListener) -> io::Result<TcpStream> {
    for _ in 0..u64::MAX {
        match listener.accept() {
            Ok((stream, _)) => {
                if stream.set_nodelay(true).is_ok() {
                    return Ok(stream);
                }
            }
            Err(error) if is_of_one(&error) => {}
            Err(error) => return Err(error),
        }
    }
    Err(io::Error::from(ErrorKind::ConnectionAborted))
}

/// Whether the error belongs to one connection, and not to the door.
fn is_of_one(error: &io::Error) -> bool {
    match error.raw_os_error() {
        Some(code) => ERRORS_OF_ONE.contains(&code),
        None => false,
    }
}
