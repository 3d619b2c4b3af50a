//! The outside as traits: links with their clocks, files, outputs, hosts to dial, doors and gates. Each trait
//! states what a call moves, and that a call fails only if a counter rose in it. `Octets` and `Buffer` hold the
//! octets that move.
#![tactic(auto)]

mod buffer;
mod count;
mod dial;
mod door;
mod files;
mod gate;
mod link;
mod memory;
mod octets;
mod output;

pub use buffer::Buffer;
pub use count::raise;
pub use dial::{Dial, Dialled};
pub use door::{Arrival, Door, DoorFailed};
pub use files::{FILE_LIMIT, FileFault, Files};
pub use gate::{Gate, OpenGate};
pub use link::{Clock, Got, Link, Sent, Tick};
pub use memory::Memory;
pub use octets::Octets;
pub use output::{Out, OutFailed};
