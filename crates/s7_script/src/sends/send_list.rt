//! Sends files as lists of blocks.
ghost use Rattle.std.specs.Prelude.{◌≡◌};

use s7_outer::Octets;
use std::marker::Model;

/// A block to send, and the line that names it.
#[derive(Debug, Drop)]
pub struct SendLine {
    /// The number of the line, from 1; all lines after line 4,294,967,295 have that number.
    pub line: u32,
    /// The number that identifies the block for the two partners (R_ID).
    pub rid: u32,
    /// Its octets, from 1 to 65,535.
    pub body: Octets,
}

/// The blocks of a sends file in order. Contracts see them as a list.
#[derive(Debug, Drop)]
pub struct Sends {
    lines: Vec<SendLine>,
}

impl Model for Sends {
    ghost use Rattle.std.specs.Prelude.{List};
    ghost use Rattle.s7_script.specs.declared.sends.send_list.SendLine.{SendLine};

    ghost Value = { List SendLine };

    ghost view = { λ s. s.lines.items };
}

impl Sends {
    /// A list with the blocks of a vector, which isn't copied.
    pub fn of_vec(lines: Vec<SendLine>) -> Sends
        ensures { result ≡ lines.items }
    {
        Sends { lines }
    }

    /// The blocks, borrowed.
    pub fn as_slice(&self) -> &[SendLine]
        ensures { result.now ≡ self.now }
    {
        self.lines.as_slice()
    }

    /// The blocks as a vector, which isn't copied.
    pub fn into_vec(self) -> Vec<SendLine>
        ensures { result.items ≡ self }
    {
        self.lines
    }
}
