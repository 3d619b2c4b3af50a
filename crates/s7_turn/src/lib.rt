//! One machine for many callers. Each call takes its turn, and all calls enter the machine's one history.
#![tactic(auto)]

mod adder;
mod bell;
mod door;
mod hall;
mod machine;
mod plays;
mod turn;
mod view;
mod words;

pub use adder::Adder;
pub use hall::{Full, Hall, Receipt, Seat};
pub use machine::Machine;
pub use view::Entry;
