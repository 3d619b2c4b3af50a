//! Serves areas as a controller would, on standard input and output or over TCP.
#![tactic(auto)]

use s7_os::{RealLink, StdFiles, StdOut, TcpDoor};
use s7_outer::{Memory, OpenGate, Out};
use s7_plant::Tail;
use s7_program::{exit_code, lent_words, own_words};
use s7_server_main::server_main;
use std::net::{Net, TcpListener, TcpStream};
use std::process::ExitCode;
use std::rt::{Env, Runtime};
use std::sync::Wait;
use std::thread::Threads;

/// Prints to standard error for `pipe`, whose link uses standard output, and to standard output otherwise.
fn main(rt: HostRuntime) -> ExitCode {
    if is_pipe(&rt) {
        let mut out = StdOut::new(rt.stderr());
        exit_code(run(&rt, &mut out), &mut out)
    } else {
        let mut out = StdOut::new(rt.stdout());
        exit_code(run(&rt, &mut out), &mut out)
    }
}

/// Whether the first word is `pipe`, whose link uses standard output. Allocates nothing, so that a failed allocation is
/// reported on the right stream, too.
fn is_pipe<E: Env>(rt: &E) -> bool {
    let mut word = [0u8; 4];
    rt.arg(1, &mut word).is_ok() && word == *b"pipe"
}

/// Runs the command that the words name, and returns its status.
fn run<R, O>(rt: &R, out: &mut O) -> Result<u8, Memory>
where
    R: Runtime + AllocGlobal + Net<Listener = TcpListener, Stream = TcpStream>,
    R: Threads + Wait + Send + Sync,
    R::Reader: Send,
    O: Out,
{
    let alloc = rt.alloc();
    let owned = own_words(rt)?;
    let words = lent_words(alloc, owned.as_slice())?;
    let mut files = StdFiles::new(rt.clone()?);
    let pipe = RealLink::standard(alloc, rt.clone()?)?;
    let mut door = TcpDoor::new(rt.clone()?);
    let observers: Vec<Tail> = Vec::new(alloc);
    let end = server_main(
        rt,
        alloc,
        words.as_slice(),
        &mut files,
        pipe,
        &mut door,
        &OpenGate,
        out,
        observers,
    );
    Ok(end.status)
}
