//! Printing lines.
ghost use Rattle.std.specs.Prelude.{◌≡◌};
ghost use Rattle.s7_program.specs.Output.{Printed};

use s7_outer::Out;

/// Prints a line. A failure of the output is ignored.
pub fn print_line<O: Out>(line: &[u8], out: &mut O)
    ensures { Printed (O.shows out.old) (O.shows out.new) line.now }
{
    match out.put(line) {
        Ok(()) => {}
        Err(_) => {}
    }
}

/// Prints this line, and returns `ended`. A failure of the output is ignored.
pub fn print_as<E, O: Out>(ended: E, line: &[u8], out: &mut O) -> E
    ensures ended { result ≡ ended }
    ensures line { Printed (O.shows out.old) (O.shows out.new) line.now }
{
    print_line(line, out);
    ended
}
