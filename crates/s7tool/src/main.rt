//! Runs scripts against controllers and in rigs, and runs partners.
#![tactic(auto)]

use s7_client::Counter;
use s7_os::{StdFiles, StdOut, TcpDial};
use s7_outer::{Memory, Out};
use s7_program::{exit_code, lent_words, own_words};
use s7_tool_main::tool_main;
use std::net::{Net, TcpStream};
use std::process::ExitCode;
use std::rt::Runtime;

/// Runs the program, and exits with its status.
fn main(rt: HostRuntime) -> ExitCode {
    let mut out = StdOut::new(rt.stdout());
    exit_code(run(&rt, &mut out), &mut out)
}

/// Runs the command that the words name, and returns its status.
fn run<R, O>(rt: &R, out: &mut O) -> Result<u8, Memory>
where
    R: Runtime + AllocGlobal + Net<Stream = TcpStream>,
    O: Out,
{
    let alloc = rt.alloc();
    let owned = own_words(rt)?;
    let words = lent_words(alloc, owned.as_slice())?;
    let mut files = StdFiles::new(rt.clone()?);
    let mut dial = TcpDial::new(rt.clone()?);
    // no completion: the results are only printed
    let done: Option<Counter> = None;
    let end = tool_main(alloc, words.as_slice(), &mut files, &mut dial, out, done);
    Ok(end.status)
}
