//! The outside in memory: links, pipes between two partners, doors, files, hosts and outputs for tests and rigs,
//! and a link whose calls fail or wait by a list of fates.
#![tactic(auto)]

mod failing_link;
mod hold_gate;
mod memory_dial;
mod memory_door;
mod memory_files;
mod memory_link;
mod memory_out;
mod pipe_end;
mod pipes;

pub use failing_link::{FailingLink, Fate};
pub use hold_gate::HoldGate;
pub use memory_dial::MemoryDial;
pub use memory_door::MemoryDoor;
pub use memory_files::MemoryFiles;
pub use memory_link::MemoryLink;
pub use memory_out::MemoryOut;
pub use pipe_end::PipeEnd;
pub use pipes::{Pipes, Side};
