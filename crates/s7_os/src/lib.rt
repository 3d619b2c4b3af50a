//! The outside over the operating system: connections over TCP, standard streams, files and the clock. What these carry
//! is not visible to a contract; the tests of the machine show it.
#![tactic(auto)]

mod real_link;
mod std_files;
mod std_out;
mod tcp_dial;
mod tcp_door;

pub use real_link::RealLink;
pub use std_files::StdFiles;
pub use std_out::StdOut;
pub use tcp_dial::TcpDial;
pub use tcp_door::TcpDoor;
