//! Why rows can't be run.
use s7_outer::Memory;
use std::alloc::{AllocError, AllocFailed};

/// What can't be read, or that memory ran out.
#[derive(Clone, Copy)]
pub enum Wrong {
    /// Memory ran out.
    Memory,
    File,
    Octets,
    Number,
    Range,
    Text,
    Block,
    Hold,
}

impl Wrong {
    /// The text of the reason.
    pub fn text(self) -> &'static str {
        match self {
            Wrong::Memory => "no memory",
            Wrong::File => "the file can't be read",
            Wrong::Octets => "neither a name nor hexadecimal digits",
            Wrong::Number => "no number",
            Wrong::Range => "no range",
            Wrong::Text => "no text between two ~",
            Wrong::Block => "no data block",
            Wrong::Hold => "no link to hold until another one",
        }
    }
}

impl From<AllocError> for Wrong {
    fn from(_: AllocError) -> Wrong {
        Wrong::Memory
    }
}

impl<T: Drop> From<AllocFailed<T>> for Wrong {
    fn from(_: AllocFailed<T>) -> Wrong {
        Wrong::Memory
    }
}

impl From<Memory> for Wrong {
    fn from(_: Memory) -> Wrong {
        Wrong::Memory
    }
}
