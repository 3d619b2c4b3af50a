//! The standard output and the standard error.
ghost use Rattle.std.specs.Prelude.{◌≡◌};

use s7_outer::{Out, OutFailed, raise};

/// The standard output or the standard error: what the runtime's `stdout` or `stderr` gives. Contracts see its
/// fault count, but not its text.
#[derive(Drop)]
pub struct StdOut<P> {
    to: P,
    faults: u64,
}

impl<P: Print + Drop> StdOut<P> {
    ghost use Rattle.s7_os.specs.StdOut.{stream_of, unused_stream};

    /// An output over this stream.
    pub fn new(to: P) -> StdOut<P>
        ensures { stream_of result ≡ unused_stream }
    {
        StdOut { to, faults: 0 }
    }
}

impl<P: Print + Drop> Out for StdOut<P> {
    ghost use Rattle.s7_os.specs.StdOut.{stream_of};

    ghost shows = { stream_of };

    fn put(&mut self, piece: &[u8]) -> Result<(), OutFailed> {
        if self.to.write_all(piece).is_err() {
            raise(&mut self.faults);
            return Err(OutFailed);
        }
        Ok(())
    }
}
