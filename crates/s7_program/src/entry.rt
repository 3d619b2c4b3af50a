//! What the `main` functions of the programs share: the words of the command line, and the exit code.
ghost use Rattle.std.specs.Prelude.{◌≡◌, IfOk, OnErr, OnOk};
ghost use Rattle.std.specs.Process.{exit_status};
ghost use Rattle.s7_program.specs.Lines.{memory_line};
ghost use Rattle.s7_program.specs.Output.{Printed};
ghost use Rattle.s7_program.specs.Statuses as statuses;

use crate::output::print_line;
use crate::statuses::MEMORY;
use s7_outer::{Memory, Out};
use std::alloc::{AllocError, Global};
use std::env;
use std::io::ErrorKind;
use std::process::ExitCode;
use std::rt::Env;

/// The words of the command line behind the program's name. If one of them isn't UTF-8 there are none, and no words are
/// no command line of a program. Returns `AllocError` if an allocation fails.
pub fn own_words<R: Env + AllocGlobal>(rt: &R) -> Result<Vec<String>, AllocError> {
    match env::args(rt) {
        Ok(words) => words.skip(1).collect(rt.alloc()),
        Err(error) if error.kind() == ErrorKind::OutOfMemory => Err(AllocError),
        Err(_) => Ok(Vec::new(rt.alloc())),
    }
}

/// The words, borrowed. Returns `AllocError` if an allocation fails.
pub fn lent_words(alloc: Global, owned: &[String]) -> Result<Vec<&str>, AllocError> {
    owned.iter().map(|word| word.as_str()).collect(alloc)
}

/// The exit code of this status. Without a status memory ran out: prints a line that says so, and ignores a failure of
/// the output.
pub fn exit_code<O: Out>(status: Result<u8, Memory>, out: &mut O) -> ExitCode
    ensures code { IfOk status (λ code. exit_status result ≡ code) }
    ensures silent { OnOk status (O.shows out.new ≡ O.shows out.old) }
    ensures lacks_memory { OnErr status (exit_status result ≡ statuses.memory) }
    ensures line { OnErr status (Printed (O.shows out.old) (O.shows out.new) memory_line) }
{
    match status {
        Ok(status) => ExitCode::from(status),
        Err(_) => {
            print_line(b"memory\n", out);
            ExitCode::from(MEMORY)
        }
    }
}
