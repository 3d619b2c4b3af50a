//! Serves windows on the areas of another server, on standard input and output.
#![tactic(auto)]

use s7_os::{RealLink, StdFiles, StdOut, TcpDial};
use s7_outer::{Memory, Out};
use s7_program::{exit_code, lent_words, own_words};
use s7_relay_main::relay_main;
use std::net::{Net, TcpStream};
use std::process::ExitCode;
use std::rt::Runtime;
use std::sync::Wait;

/// Prints to standard error, since the link uses standard output, and exits with the status.
fn main(rt: HostRuntime) -> ExitCode {
    let mut out = StdOut::new(rt.stderr());
    exit_code(run(&rt, &mut out), &mut out)
}

/// Relays as the words say, and returns the status.
fn run<R, O>(rt: &R, out: &mut O) -> Result<u8, Memory>
where
    R: Runtime + AllocGlobal + Net<Stream = TcpStream> + Wait,
    O: Out,
{
    let alloc = rt.alloc();
    let owned = own_words(rt)?;
    let words = lent_words(alloc, owned.as_slice())?;
    let mut files = StdFiles::new(rt.clone()?);
    let pipe = RealLink::standard(alloc, rt.clone()?)?;
    let dial = TcpDial::new(rt.clone()?);
    let end = relay_main(rt, alloc, words.as_slice(), &mut files, pipe, dial, out);
    Ok(end.status)
}
