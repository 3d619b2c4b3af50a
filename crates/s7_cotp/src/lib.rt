//! TPDUs of ISO 8073, class 0: reading, writing, and joining their fragments to messages.
#![tactic(auto)]

mod cutting;
mod joining;
mod laws;
mod pairs;
mod parameters;
mod reading;
mod said;
mod tpdu;
mod writing;

pub use cutting::fragments;
pub use joining::{Joined, Joiner};
pub use laws::{cut_is_joined, one_cut, one_joining, one_spelling, one_step, written_is_read};
pub use pairs::Fragments;
pub use reading::read_tpdu;
pub use tpdu::{Connection, CotpFault, Tpdu, Tsap};
pub use writing::{write_confirm, write_connect, write_data, write_disconnect};
