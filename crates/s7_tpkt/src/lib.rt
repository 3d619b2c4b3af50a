//! Packets of RFC 1006 (TPKT) on a stream of octets. Reading cuts them out of pieces of any size; writing makes one
//! from its body.
#![tactic(auto)]

mod cutting;
mod front;
mod laws;
mod state;
mod writing;

pub use cutting::Cutter;
pub use laws::{held_is_rest, octets_behind, one_reading, states_tell, written_is_read};
pub use state::{Fed, FedState};
pub use writing::write_packet;
